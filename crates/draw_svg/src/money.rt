//! What everybody has, where it changes from row to row.

ghost use Rattle.std.specs.Prelude.{◌≡◌, ◌++◌, ◌∷◌, [], IfOk, OnOk};
ghost use Rattle.std.specs.Option.{option_copied};
ghost use Rattle.spec_page.specs.RunPart.{field};
ghost use Rattle.spec_page.specs.SvgItems.{cell};
ghost use Rattle.spec_page.specs.SvgRun as spec;

use crate::items::{cell_with, plain_item, sum_of};
use draw_page::{sum_at, sum_before};
use spec_data::{Name, OutOfMemory, Seq};
use spec_page::{Cell, Kind, Money};
use std::alloc::Global;

// A column with a sum where it isn't what it was in the row before.
fn changed_cell(alloc: Global, before: Option<u64>, now: u64) -> Result<Cell, OutOfMemory>
    ensures { IfOk result (λ c. c ≡ cell (spec.changed_items before now)) }
{
    match before {
        None => {
            let sum = sum_of(alloc, None, now)?;
            cell_with(alloc, sum)
        }
        Some(last) => {
            if last == now {
                return Ok(Cell {
                    items: Seq::new(alloc),
                });
            }
            let sum = sum_of(alloc, None, now)?;
            cell_with(alloc, sum)
        }
    }
}

#[tactic(auto, using(std::proofs::Common::append_assoc))]
fn put_parties(
    alloc: Global,
    cells: &mut Seq<Cell>,
    parties: &[Name],
    before: Option<&Money>,
    now: &Money,
) -> Result<(), OutOfMemory>
    ensures { OnOk result (cells.new ≡ cells.old ++ spec.party_cells (option_copied before.entry) now.now 0 parties.now) }
{
    for (column, _party) in parties.iter().enumerate() {
        let cell = changed_cell(alloc, sum_before(column, before), sum_at(column, now))?;
        cells.push(cell)?;
    }
    Ok(())
}

fn contracts_before(before: Option<&Money>) -> Option<u64>
    ensures { result ≡ field (λ m. m.contracts) (option_copied before.entry) }
{
    match before {
        None => None,
        Some(money) => Some(money.contracts),
    }
}

fn elsewhere_before(before: Option<&Money>) -> Option<u64>
    ensures { result ≡ field (λ m. m.elsewhere) (option_copied before.entry) }
{
    match before {
        None => None,
        Some(money) => Some(money.elsewhere),
    }
}

fn fees_before(before: Option<&Money>) -> Option<u64>
    ensures { result ≡ field (λ m. m.fees) (option_copied before.entry) }
{
    match before {
        None => None,
        Some(money) => Some(money.fees),
    }
}

// One that is there only where anything is ever elsewhere.
fn put_if(cells: &mut Seq<Cell>, there: bool, cell: Cell) -> Result<(), OutOfMemory>
    ensures { OnOk result (cells.new ≡ cells.old ++ spec.cell_if there cell) }
{
    if there {
        cells.push(cell)?;
    }
    Ok(())
}

#[tactic(auto, using(std::proofs::Common::append_assoc))]
fn put_last(
    alloc: Global,
    cells: &mut Seq<Cell>,
    elsewhere: bool,
    before: Option<&Money>,
    now: &Money,
) -> Result<(), OutOfMemory>
    ensures { OnOk result (cells.new ≡ cells.old ++ spec.last_cells elsewhere (option_copied before.entry) now.now) }
{
    let contracts = changed_cell(alloc, contracts_before(before), now.contracts)?;
    cells.push(contracts)?;
    let others = changed_cell(alloc, elsewhere_before(before), now.elsewhere)?;
    put_if(cells, elsewhere, others)?;
    let fees = changed_cell(alloc, fees_before(before), now.fees)?;
    cells.push(fees)?;
    Ok(())
}

/// What everybody has, where it isn't what it was.
#[tactic(auto, using(std::proofs::Common::append_assoc))]
pub(crate) fn money_cells(
    alloc: Global,
    parties: &[Name],
    elsewhere: bool,
    before: Option<&Money>,
    now: &Money,
) -> Result<Seq<Cell>, OutOfMemory>
    ensures { IfOk result (λ cells. cells ≡ spec.party_cells (option_copied before.entry) now.now 0 parties.now
        ++ spec.last_cells elsewhere (option_copied before.entry) now.now) }
{
    let mut cells = Seq::new(alloc);
    put_parties(alloc, &mut cells, parties, before, now)?;
    put_last(alloc, &mut cells, elsewhere, before, now)?;
    Ok(cells)
}

fn title_cell(alloc: Global, text: &[u8]) -> Result<Cell, OutOfMemory>
    ensures { IfOk result (λ c. c ≡ spec.title_cell text.now) }
{
    let title = plain_item(alloc, Kind::Strong, text)?;
    cell_with(alloc, title)
}

fn put_title(alloc: Global, cells: &mut Seq<Cell>, text: &[u8]) -> Result<(), OutOfMemory>
    ensures { OnOk result (cells.new ≡ cells.old ++ spec.title_cell text.now ∷ []) }
{
    let cell = title_cell(alloc, text)?;
    cells.push(cell)
}

fn put_title_if(
    alloc: Global,
    cells: &mut Seq<Cell>,
    there: bool,
    text: &[u8],
) -> Result<(), OutOfMemory>
    ensures { OnOk result (cells.new ≡ cells.old ++ spec.cell_if there (spec.title_cell text.now)) }
{
    if there {
        return put_title(alloc, cells, text);
    }
    Ok(())
}

/// What the last columns are.
#[tactic(auto, using(std::proofs::Common::append_assoc))]
pub(crate) fn put_last_titles(
    alloc: Global,
    cells: &mut Seq<Cell>,
    elsewhere: bool,
) -> Result<(), OutOfMemory>
    ensures { OnOk result (cells.new ≡ cells.old ++ spec.last_titles elsewhere) }
{
    put_title(alloc, cells, b"contract")?;
    put_title_if(alloc, cells, elsewhere, b"elsewhere")?;
    put_title(alloc, cells, b"fees")
}
