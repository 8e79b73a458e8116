//! The rows of a contract.

ghost use Rattle.std.specs.Prelude.{◌≡◌, ◌++◌, min, IfOk, OnOk};
ghost use Rattle.spec_page.specs.declared.way_row.WayRow.TheVariants.{Way};
ghost use Rattle.spec_tool.specs.declared.which.Which.TheVariants.{Init, At};
ghost use Rattle.spec_page.specs.Cells.{each_party};
ghost use Rattle.spec_page.specs.EventWords.{contract_text, move_text};
ghost use Rattle.spec_page.specs.Moments.{move};
ghost use Rattle.spec_page.specs.ContractPart as spec;
ghost use Rattle.draw_page.specs.Texts.{text_of, each_text, lines_text};
ghost use Rattle.draw_page.specs.Scenes.{scene_of};
ghost use Rattle.draw_page.specs.ShareTexts.{share_text};
ghost use Rattle.draw_page.specs.WayTexts.{row_text, way_text, fork_row_text, fork_text};

use crate::cells::{last_cells, put_head_row};
use crate::conditions::{inside_text, put_share};
use crate::looks::{end_word, statuses_text};
use crate::parts::{further, row_size};
use crate::pieces::{Piece, put_all};
use crate::scene::Scene;
use crate::sums::{payment_cells, stake_cells};
use bm_keys::put_path;
use bm_text::put;
use spec_data::{Name, OutOfMemory};
use spec_page::{Condition, Payment, Sheet, Stake, WayRow};
use spec_terms::Path;
use std::alloc::Global;

// ---- names

// The number of a contract before what is its, where there are several.
fn put_contract_number(alloc: Global, out: &mut Vec<u8>, scene: &Scene) -> Result<(), OutOfMemory>
    ensures { OnOk result (out.new.items ≡ out.old.items ++ contract_text scene.now.several scene.now.contract) }
{
    if !scene.several {
        return Ok(());
    }
    put_all(
        alloc,
        out,
        &[
            Piece::PlainNumber(u64::from(scene.contract)),
            Piece::Mark(b":"),
        ],
    )
}

fn initial_name(alloc: Global, scene: &Scene) -> Result<Vec<u8>, OutOfMemory>
    ensures { IfOk result (λ text. text.items ≡ move_text scene.now.several (move scene.now.contract Init)) }
{
    let mut text = Vec::new(alloc);
    put_contract_number(alloc, &mut text, scene)?;
    put(&mut text, b"init")?;
    Ok(text)
}

fn branch_name(alloc: Global, scene: &Scene, path: &Path) -> Result<Vec<u8>, OutOfMemory>
    ensures { IfOk result (λ text. text.items ≡ move_text scene.now.several (move scene.now.contract (At path.now))) }
{
    let mut text = Vec::new(alloc);
    put_contract_number(alloc, &mut text, scene)?;
    put_path(alloc, &mut text, path.steps())?;
    Ok(text)
}

// ---- a row

#[tactic(auto, unfolding(crate::specs::WayTexts::row_text))]
fn put_row_text<'a>(
    alloc: Global,
    out: &mut Vec<u8>,
    end: &'a [u8],
    at: &'a [u8],
    name: &'a [u8],
    depth: u64,
    inside: &'a [u8],
    cells: &'a [u8],
    rest: &'a [u8],
) -> Result<(), OutOfMemory>
    ensures { OnOk result (out.new.items ≡ out.old.items ++ row_text end.now at.now name.now depth inside.now cells.now rest.now) }
{
    put_all(
        alloc,
        out,
        &[
            Piece::Mark(b"<tr class=\"way d"),
            Piece::Number(depth),
            Piece::Mark(b" "),
            Piece::Said(end),
            Piece::Mark(b"\" data-at=\""),
            Piece::Said(at),
            Piece::Mark(b"\"><td class=\"path\"><bdi>"),
            Piece::Said(name),
            Piece::Mark(b"</bdi></td><td class=\"what\">"),
            Piece::Mark(inside),
            Piece::Mark(b"</td>"),
            Piece::Mark(cells),
            Piece::Mark(rest),
            Piece::Mark(b"</tr>"),
        ],
    )
}

// So far a row stands to the right.
fn depth_look(depth: u32) -> u64
    ensures { result ≡ min depth 8 }
{
    u64::from(depth.min(8))
}

// The row of a transaction, whose cells are written already.
#[tactic(auto, unfolding(crate::specs::WayTexts::way_text))]
fn put_way<'a>(
    alloc: Global,
    out: &mut Vec<u8>,
    scene: &Scene,
    part: usize,
    name: &'a [u8],
    depth: u32,
    inside: &'a [u8],
    cells: &'a [u8],
) -> Result<(), OutOfMemory>
    ensures { OnOk result (out.new.items ≡ out.old.items ++ way_text (scene_of scene.now) part name.now depth inside.now cells.now) }
{
    let at = statuses_text(alloc, part, scene.rows)?;
    let end = end_word(part, scene.rows);
    let rest = last_cells(&scene.columns);
    put_row_text(
        alloc,
        out,
        end,
        &at,
        name,
        depth_look(depth),
        inside,
        cells,
        rest,
    )
}

fn put_branch(
    alloc: Global,
    out: &mut Vec<u8>,
    scene: &Scene,
    part: usize,
    path: &Path,
    depth: u32,
    share: Option<u64>,
    conditions: &[Condition],
    payments: &[Payment],
) -> Result<(), OutOfMemory>
    ensures { OnOk result (out.new.items ≡ out.old.items
        ++ text_of (spec.row_element (scene_of scene.now) part (Way path.now depth share conditions.now payments.now))) }
{
    let first = further(part, 1)?;
    let next = further(first, conditions.len())?;
    let name = branch_name(alloc, scene, path)?;
    let inside = inside_text(alloc, scene, first, share, conditions)?;
    let cells = payment_cells(alloc, scene, next, payments)?;
    put_way(alloc, out, scene, part, &name, depth, &inside, &cells)
}

// Before alternatives.
#[tactic(auto, unfolding(crate::specs::WayTexts::fork_row_text))]
fn put_fork_text<'a>(
    alloc: Global,
    out: &mut Vec<u8>,
    depth: u64,
    inside: &'a [u8],
    cells: &'a [u8],
    rest: &'a [u8],
) -> Result<(), OutOfMemory>
    ensures { OnOk result (out.new.items ≡ out.old.items ++ fork_row_text depth inside.now cells.now rest.now) }
{
    put_all(
        alloc,
        out,
        &[
            Piece::Mark(b"<tr class=\"fork d"),
            Piece::Number(depth),
            Piece::Mark(b"\"><td></td><td class=\"what\">"),
            Piece::Mark(inside),
            Piece::Mark(b"<b>one of</b></td>"),
            Piece::Mark(cells),
            Piece::Mark(rest),
            Piece::Mark(b"</tr>"),
        ],
    )
}

#[tactic(auto, unfolding(crate::specs::Texts::text_of))]
fn put_no_cell(out: &mut Vec<u8>, _column: usize, _party: &Name) -> Result<(), OutOfMemory>
    ensures { OnOk result (out.new.items ≡ out.old.items ++ text_of (spec.no_cell _column _party.now)) }
{
    put(out, b"<td></td>")
}

// As many empty cells as there are parties.
fn no_cells(alloc: Global, scene: &Scene) -> Result<Vec<u8>, OutOfMemory>
    ensures { IfOk result (λ text. text.items ≡ each_text (each_party spec.no_cell (scene_of scene.now).columns)) }
{
    let mut text = Vec::new(alloc);
    for (column, party) in scene.columns.parties.iter().enumerate() {
        put_no_cell(&mut text, column, party)?;
    }
    Ok(text)
}

#[tactic(auto, unfolding(crate::specs::WayTexts::fork_text))]
fn put_fork(
    alloc: Global,
    out: &mut Vec<u8>,
    scene: &Scene,
    depth: u32,
    share: Option<u64>,
) -> Result<(), OutOfMemory>
    ensures { OnOk result (out.new.items ≡ out.old.items
        ++ fork_text (scene_of scene.now) depth (share_text share) (each_text (each_party spec.no_cell (scene_of scene.now).columns))) }
{
    let mut inside = Vec::new(alloc);
    put_share(alloc, &mut inside, share)?;
    let cells = no_cells(alloc, scene)?;
    let rest = last_cells(&scene.columns);
    put_fork_text(alloc, out, depth_look(depth), &inside, &cells, rest)
}

fn put_choice(
    alloc: Global,
    out: &mut Vec<u8>,
    scene: &Scene,
    depth: u32,
    share: Option<u64>,
) -> Result<(), OutOfMemory>
    ensures { OnOk result (out.new.items ≡ out.old.items ++ text_of (spec.choice_element (scene_of scene.now) depth share)) }
{
    put_fork(alloc, out, scene, depth, share)
}

fn put_row(
    alloc: Global,
    out: &mut Vec<u8>,
    scene: &Scene,
    part: usize,
    row: &WayRow,
) -> Result<(), OutOfMemory>
    ensures { OnOk result (out.new.items ≡ out.old.items ++ text_of (spec.row_element (scene_of scene.now) part row.now)) }
{
    match row {
        WayRow::Choice { depth, part: share } => put_choice(alloc, out, scene, *depth, *share),
        WayRow::Way {
            path,
            depth,
            part: share,
            conditions,
            payments,
        } => put_branch(
            alloc,
            out,
            scene,
            part,
            path,
            *depth,
            *share,
            conditions.as_slice(),
            payments.as_slice(),
        ),
    }
}

#[tactic(auto, using(std::proofs::Common::append_assoc))]
fn put_rows(
    alloc: Global,
    out: &mut Vec<u8>,
    scene: &Scene,
    part: usize,
    rows: &[WayRow],
) -> Result<(), OutOfMemory>
    ensures { OnOk result (out.new.items ≡ out.old.items ++ lines_text (spec.row_elements (scene_of scene.now) part rows.now)) }
{
    let mut number = part;
    for row in rows {
        put_row(alloc, out, scene, number, row)?;
        put(out, b"\n")?;
        let size = row_size(row)?;
        number = further(number, size)?;
    }
    Ok(())
}

// ---- a contract

fn put_initial(
    alloc: Global,
    out: &mut Vec<u8>,
    scene: &Scene,
    part: usize,
    stakes: &[Stake],
) -> Result<(), OutOfMemory>
    ensures { OnOk result (out.new.items ≡ out.old.items ++ text_of (spec.initial_element (scene_of scene.now) part stakes.now)) }
{
    let name = initial_name(alloc, scene)?;
    let cells = stake_cells(alloc, scene, part, stakes)?;
    put_way(
        alloc,
        out,
        scene,
        part,
        &name,
        0,
        b"all sign; each puts in",
        &cells,
    )
}

fn put_title(alloc: Global, out: &mut Vec<u8>, scene: &Scene) -> Result<(), OutOfMemory>
    ensures { OnOk result (out.new.items ≡ out.old.items ++ spec.contract_title scene.now.several scene.now.contract) }
{
    if !scene.several {
        return put(out, b"the contract");
    }
    put_all(
        alloc,
        out,
        &[
            Piece::Mark(b"contract "),
            Piece::PlainNumber(u64::from(scene.contract)),
        ],
    )
}

fn put_fee(alloc: Global, out: &mut Vec<u8>, fee: u64) -> Result<(), OutOfMemory>
    ensures { OnOk result (out.new.items ≡ out.old.items ++ spec.fee_words fee) }
{
    if fee == 0 {
        return Ok(());
    }
    put_all(
        alloc,
        out,
        &[
            Piece::Mark(b", fee "),
            Piece::PlainSum(fee),
            Piece::Mark(b" a transaction"),
        ],
    )
}

fn put_head(alloc: Global, out: &mut Vec<u8>, scene: &Scene, fee: u64) -> Result<(), OutOfMemory>
    ensures { OnOk result (out.new.items ≡ out.old.items ++ text_of (spec.contract_head (scene_of scene.now) fee)) }
{
    let mut title = Vec::new(alloc);
    put_title(alloc, &mut title, scene)?;
    put_fee(alloc, &mut title, fee)?;
    put_head_row(alloc, out, &scene.columns, &title, b"", b"", b"")
}

/// The rows of a contract, whose parts are numbered from this number on, a line each.
#[tactic(auto, using(std::proofs::Common::append_assoc), unfolding(spec_page::specs::ContractPart::contract_elements))]
pub(crate) fn put_contract(
    alloc: Global,
    out: &mut Vec<u8>,
    scene: &Scene,
    part: usize,
    sheet: &Sheet,
) -> Result<(), OutOfMemory>
    ensures { OnOk result (out.new.items ≡ out.old.items ++ lines_text (spec.contract_elements (scene_of scene.now) part sheet.now)) }
{
    put_head(alloc, out, scene, sheet.fee)?;
    put(out, b"\n")?;
    put_initial(alloc, out, scene, part, sheet.stakes.as_slice())?;
    put(out, b"\n")?;
    let next = further(part, 1)?;
    put_rows(alloc, out, scene, next, sheet.ways.as_slice())
}
