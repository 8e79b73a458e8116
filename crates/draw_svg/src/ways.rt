//! The rows of contracts.

ghost use Rattle.std.specs.Prelude.{◌≡◌, ◌++◌, ◌∷◌, [], codes, None, IfOk, OnOk};
ghost use Rattle.spec_tool.specs.declared.which.Which.TheVariants.{Init, At};
ghost use Rattle.spec_page.specs.declared.svg_row.Kind.TheVariants as kinds;
ghost use Rattle.spec_page.specs.declared.way_row.WayRow.TheVariants.{Way};
ghost use Rattle.spec_page.specs.ContractPart.{contract_title, fee_words};
ghost use Rattle.spec_page.specs.EventWords.{contract_text, move_text};
ghost use Rattle.spec_page.specs.Moments.{move};
ghost use Rattle.spec_page.specs.Timeline.{status_word as word_of, look_in as look_at};
ghost use Rattle.spec_page.specs.SvgItems.{item as plain, cell, grid_row};
ghost use Rattle.spec_page.specs.SvgContract as spec;
ghost use Rattle.draw_svg.specs.Endings.{ending_of};

use crate::conditions::{beside_branch, put_part, status_of};
use crate::ending::Ending;
use crate::items::{cell_with, item, plain_item, put_said, said};
use crate::sums::{payment_cells, stake_cells};
use bm_keys::put_path;
use bm_text::put;
use draw_page::{Piece, further, look_in, made, put_all, row_size, sheet_size, status_word};
use spec_data::{Bytes, Name, OutOfMemory, Seq};
use spec_page::{Cell, Condition, GridRow, Item, Kind, Payment, Sheet, Stake, Status, WayRow};
use spec_terms::Path;
use std::alloc::{AllocError, Global};

// ---- names

// The number of a contract before what is its, where there are several.
fn put_contract_number(alloc: Global, out: &mut Vec<u8>, ending: &Ending) -> Result<(), OutOfMemory>
    ensures { OnOk result (out.new.items ≡ out.old.items ++ contract_text ending.now.several ending.now.contract) }
{
    if !ending.several {
        return Ok(());
    }
    put_all(
        alloc,
        out,
        &[
            Piece::PlainNumber(u64::from(ending.contract)),
            Piece::Mark(b":"),
        ],
    )
}

fn initial_name(alloc: Global, ending: &Ending) -> Result<Vec<u8>, OutOfMemory>
    ensures { IfOk result (λ text. text.items ≡ move_text ending.now.several (move ending.now.contract Init)) }
{
    let mut text = Vec::new(alloc);
    put_contract_number(alloc, &mut text, ending)?;
    put(&mut text, b"init")?;
    Ok(text)
}

fn branch_name(alloc: Global, ending: &Ending, path: &Path) -> Result<Vec<u8>, OutOfMemory>
    ensures { IfOk result (λ text. text.items ≡ move_text ending.now.several (move ending.now.contract (At path.now))) }
{
    let mut text = Vec::new(alloc);
    put_contract_number(alloc, &mut text, ending)?;
    put_path(alloc, &mut text, path.steps())?;
    Ok(text)
}

// ---- rows

// So many characters a row stands to the right.
fn indent_of(depth: u32) -> u32
    ensures { result ≡ spec.indent_of depth }
{
    2 * depth.min(8)
}

fn way_look(alloc: Global, ending: &Ending, part: usize) -> Result<Bytes, OutOfMemory>
    ensures { IfOk result (λ text. text ≡ codes "way " ++ word_of (look_at part ending.now.looks.now)) }
{
    let word = status_word(look_in(part, ending.looks));
    let text = made(alloc, &[Piece::Mark(b"way "), Piece::Mark(word)])?;
    Ok(Bytes::of(text))
}

fn way_id(alloc: Global, name: &[u8]) -> Result<Bytes, OutOfMemory>
    ensures { IfOk result (λ text. text ≡ codes "way-" ++ name.now) }
{
    let text = made(alloc, &[Piece::Mark(b"way-"), Piece::Mark(name)])?;
    Ok(Bytes::of(text))
}

fn alone(alloc: Global, item: Item) -> Result<Seq<Item>, OutOfMemory>
    ensures { IfOk result (λ items. items ≡ item ∷ []) }
{
    let mut items = Seq::new(alloc);
    items.push(item)?;
    Ok(items)
}

// The row of a transaction of this name.
fn way_row(
    alloc: Global,
    ending: &Ending,
    part: usize,
    name: Vec<u8>,
    depth: u32,
    what: Seq<Item>,
    sums: Seq<Cell>,
) -> Result<GridRow, OutOfMemory>
    ensures { IfOk result (λ r. r ≡ grid_row (codes "way " ++ word_of (look_at part ending.now.looks.now)) (codes "way-" ++ name.items)
        (spec.indent_of depth) (plain kinds.Path (spec.status_of (ending_of ending.now) part) name.items ∷ []) what sums) }
{
    let look = way_look(alloc, ending, part)?;
    let id = way_id(alloc, &name)?;
    let path = alone(alloc, item(Kind::Path, status_of(ending, part), name))?;
    Ok(GridRow {
        look,
        id,
        indent: indent_of(depth),
        path,
        what,
        sums,
    })
}

fn branch_row(
    alloc: Global,
    ending: &Ending,
    part: usize,
    path: &Path,
    depth: u32,
    share: Option<u64>,
    conditions: &[Condition],
    payments: &[Payment],
) -> Result<GridRow, OutOfMemory>
    ensures { IfOk result (λ r. r ≡ spec.row_grid (ending_of ending.now) part (Way path.now depth share conditions.now payments.now)) }
{
    let first = further(part, 1)?;
    let next = further(first, conditions.len())?;
    let name = branch_name(alloc, ending, path)?;
    let what = beside_branch(alloc, ending, first, share, conditions)?;
    let sums = payment_cells(alloc, ending, next, payments)?;
    way_row(alloc, ending, part, name, depth, what, sums)
}

fn choice_row(alloc: Global, depth: u32, share: Option<u64>) -> Result<GridRow, OutOfMemory>
    ensures { IfOk result (λ r. r ≡ spec.choice_grid depth share) }
{
    let mut what = Seq::new(alloc);
    put_part(alloc, &mut what, share)?;
    put_said(alloc, &mut what, Kind::Strong, b"one of")?;
    Ok(GridRow {
        look: Bytes::from_slice(alloc, b"fork")?,
        id: Bytes::of(Vec::new(alloc)),
        indent: indent_of(depth),
        path: Seq::new(alloc),
        what,
        sums: Seq::new(alloc),
    })
}

fn row(alloc: Global, ending: &Ending, part: usize, row: &WayRow) -> Result<GridRow, OutOfMemory>
    ensures { IfOk result (λ r. r ≡ spec.row_grid (ending_of ending.now) part row.now) }
{
    match row {
        WayRow::Choice { depth, part: share } => choice_row(alloc, *depth, *share),
        WayRow::Way {
            path,
            depth,
            part: share,
            conditions,
            payments,
        } => branch_row(
            alloc,
            ending,
            part,
            path,
            *depth,
            *share,
            conditions.as_slice(),
            payments.as_slice(),
        ),
    }
}

#[tactic(auto, using(std::proofs::Common::append_assoc))]
fn put_rows(
    alloc: Global,
    rows: &mut Seq<GridRow>,
    ending: &Ending,
    part: usize,
    ways: &[WayRow],
) -> Result<(), OutOfMemory>
    ensures { OnOk result (rows.new ≡ rows.old ++ spec.row_grids (ending_of ending.now) part ways.now) }
{
    let mut number = part;
    for way in ways {
        let row = row(alloc, ending, number, way)?;
        rows.push(row)?;
        let size = row_size(way)?;
        number = further(number, size)?;
    }
    Ok(())
}

fn initial_row(
    alloc: Global,
    ending: &Ending,
    part: usize,
    stakes: &[Stake],
) -> Result<GridRow, OutOfMemory>
    ensures { IfOk result (λ r. r ≡ spec.initial_grid (ending_of ending.now) part stakes.now) }
{
    let name = initial_name(alloc, ending)?;
    let what = said(alloc, Kind::Word, b"all sign; each puts in")?;
    let sums = stake_cells(alloc, ending, part, stakes)?;
    way_row(alloc, ending, part, name, 0, what, sums)
}

// ---- heads

// The name of the party in the column of this number. More columns than a number of 32 bits counts are out of memory.
fn name_cell(alloc: Global, column: usize, party: &Name) -> Result<Cell, OutOfMemory>
    ensures { IfOk result (λ c. c ≡ cell (plain (kinds.Name column) None party.now ∷ [])) }
{
    if column > u32::MAX as usize {
        return Err(AllocError);
    }
    let name = plain_item(alloc, Kind::Name(column as u32), party.bytes())?;
    cell_with(alloc, name)
}

/// The names of the parties.
#[tactic(auto, using(std::proofs::Common::append_assoc))]
pub(crate) fn name_cells(alloc: Global, parties: &[Name]) -> Result<Seq<Cell>, OutOfMemory>
    ensures { IfOk result (λ cells. cells ≡ spec.name_cells 0 parties.now) }
{
    let mut cells = Seq::new(alloc);
    for (column, party) in parties.iter().enumerate() {
        let cell = name_cell(alloc, column, party)?;
        cells.push(cell)?;
    }
    Ok(cells)
}

/// A row that says what the columns are.
pub(crate) fn head_row(alloc: Global, what: &[u8], sums: Seq<Cell>) -> Result<GridRow, OutOfMemory>
    ensures { IfOk result (λ r. r ≡ spec.head_grid what.now sums) }
{
    Ok(GridRow {
        look: Bytes::from_slice(alloc, b"head")?,
        id: Bytes::of(Vec::new(alloc)),
        indent: 0,
        path: Seq::new(alloc),
        what: said(alloc, Kind::Strong, what)?,
        sums,
    })
}

fn put_title(alloc: Global, out: &mut Vec<u8>, ending: &Ending) -> Result<(), OutOfMemory>
    ensures { OnOk result (out.new.items ≡ out.old.items ++ contract_title ending.now.several ending.now.contract) }
{
    if !ending.several {
        return put(out, b"the contract");
    }
    put_all(
        alloc,
        out,
        &[
            Piece::Mark(b"contract "),
            Piece::PlainNumber(u64::from(ending.contract)),
        ],
    )
}

fn put_fee(alloc: Global, out: &mut Vec<u8>, fee: u64) -> Result<(), OutOfMemory>
    ensures { OnOk result (out.new.items ≡ out.old.items ++ fee_words fee) }
{
    if fee == 0 {
        return Ok(());
    }
    put_all(
        alloc,
        out,
        &[
            Piece::Mark(b", fee "),
            Piece::PlainSum(fee),
            Piece::Mark(b" a transaction"),
        ],
    )
}

fn contract_head(alloc: Global, ending: &Ending, fee: u64) -> Result<GridRow, OutOfMemory>
    ensures { IfOk result (λ r. r ≡ spec.head_grid (contract_title ending.now.several ending.now.contract ++ fee_words fee)
        (spec.name_cells 0 ending.now.parties.now)) }
{
    let mut title = Vec::new(alloc);
    put_title(alloc, &mut title, ending)?;
    put_fee(alloc, &mut title, fee)?;
    let names = name_cells(alloc, ending.parties)?;
    head_row(alloc, &title, names)
}

// ---- contracts

#[tactic(auto, using(std::proofs::Common::append_assoc))]
fn put_contract(
    alloc: Global,
    rows: &mut Seq<GridRow>,
    ending: &Ending,
    part: usize,
    sheet: &Sheet,
) -> Result<(), OutOfMemory>
    ensures { OnOk result (rows.new ≡ rows.old ++ spec.contract_grids (ending_of ending.now) part sheet.now) }
{
    let head = contract_head(alloc, ending, sheet.fee)?;
    rows.push(head)?;
    let initial = initial_row(alloc, ending, part, sheet.stakes.as_slice())?;
    rows.push(initial)?;
    let next = further(part, 1)?;
    put_rows(alloc, rows, ending, next, sheet.ways.as_slice())
}

// That of the contract of this number.
fn put_sheet(
    alloc: Global,
    rows: &mut Seq<GridRow>,
    parties: &[Name],
    several: bool,
    looks: &[Status],
    contract: u32,
    part: usize,
    sheet: &Sheet,
) -> Result<(), OutOfMemory>
    ensures { OnOk result (rows.new ≡ rows.old
        ++ spec.contract_grids (spec.ending parties.now several looks.now contract) part sheet.now) }
{
    let ending = Ending {
        parties,
        several,
        contract,
        looks,
    };
    put_contract(alloc, rows, &ending, part, sheet)
}

// A number of 32 bits; a greater one counts as out of memory.
fn narrow(count: usize) -> Result<u32, OutOfMemory>
    ensures { IfOk result (λ n. n ≡ count) }
{
    if count > u32::MAX as usize {
        return Err(AllocError);
    }
    Ok(count as u32)
}

/// The rows of these contracts.
#[tactic(auto, using(std::proofs::Common::append_assoc))]
pub(crate) fn put_sheets(
    alloc: Global,
    rows: &mut Seq<GridRow>,
    parties: &[Name],
    several: bool,
    looks: &[Status],
    sheets: &[Sheet],
) -> Result<(), OutOfMemory>
    ensures { OnOk result (rows.new ≡ rows.old ++ spec.sheet_grids parties.now several looks.now 0 0 sheets.now) }
{
    let mut part = 0;
    for (contract, sheet) in sheets.iter().enumerate() {
        let number = narrow(contract)?;
        put_sheet(alloc, rows, parties, several, looks, number, part, sheet)?;
        let size = sheet_size(sheet)?;
        part = further(part, size)?;
    }
    Ok(())
}
