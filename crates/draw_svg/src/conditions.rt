//! What stands beside the name of a branch: the value of its part, and what it waits for.

ghost use Rattle.std.specs.Prelude.{◌≡◌, ◌++◌, ◌∷◌, [], codes, None, IfOk, OnOk};
ghost use Rattle.spec_page.specs.ContractPart.{condition_text as text_of_condition};
ghost use Rattle.spec_page.specs.Figures.{sum_text};
ghost use Rattle.spec_page.specs.SvgItems.{item as plain, said_items};
ghost use Rattle.spec_page.specs.SvgContract as spec;
ghost use Rattle.spec_page.specs.declared.svg_row.Kind.TheVariants as kinds;
ghost use Rattle.draw_svg.specs.Endings.{ending_of};

use crate::ending::Ending;
use crate::items::{item, plain_item, put_said};
use draw_page::{Piece, condition_text, further, look_in, made};
use spec_data::{OutOfMemory, Seq};
use spec_page::{Condition, Item, Kind, Status};
use std::alloc::Global;

/// Where the part of this number stands.
pub(crate) fn status_of(ending: &Ending, part: usize) -> Option<Status>
    ensures { result ≡ spec.status_of (ending_of ending.now) part }
{
    Some(look_in(part, ending.looks))
}

fn chip(
    alloc: Global,
    ending: &Ending,
    part: usize,
    condition: &Condition,
) -> Result<Item, OutOfMemory>
    ensures { IfOk result (λ i. i ≡ plain kinds.Chip (spec.status_of (ending_of ending.now) part) (text_of_condition condition.now)) }
{
    let text = condition_text(alloc, condition)?;
    Ok(item(Kind::Chip, status_of(ending, part), text))
}

fn predicate_chip(alloc: Global, ending: &Ending, part: usize) -> Result<Item, OutOfMemory>
    ensures { IfOk result (λ i. i ≡ plain kinds.Chip (spec.status_of (ending_of ending.now) part) (codes "if")) }
{
    let text = made(alloc, &[Piece::Mark(b"if")])?;
    Ok(item(Kind::Chip, status_of(ending, part), text))
}

#[tactic(auto, using(std::proofs::Common::append_assoc))]
fn put_predicate(
    alloc: Global,
    items: &mut Seq<Item>,
    ending: &Ending,
    part: usize,
    text: &[u8],
) -> Result<(), OutOfMemory>
    ensures { OnOk result (items.new ≡ items.old
        ++ plain kinds.Chip (spec.status_of (ending_of ending.now) part) (codes "if") ∷ said_items kinds.Word text.now) }
{
    let chip = predicate_chip(alloc, ending, part)?;
    items.push(chip)?;
    put_said(alloc, items, Kind::Word, text)
}

// A condition in a frame.
fn put_chip(
    alloc: Global,
    items: &mut Seq<Item>,
    ending: &Ending,
    part: usize,
    condition: &Condition,
) -> Result<(), OutOfMemory>
    ensures { OnOk result (items.new ≡ items.old
        ++ plain kinds.Chip (spec.status_of (ending_of ending.now) part) (text_of_condition condition.now) ∷ []) }
{
    let chip = chip(alloc, ending, part, condition)?;
    items.push(chip)
}

fn put_condition(
    alloc: Global,
    items: &mut Seq<Item>,
    ending: &Ending,
    part: usize,
    condition: &Condition,
) -> Result<(), OutOfMemory>
    ensures { OnOk result (items.new ≡ items.old ++ spec.chips_of (ending_of ending.now) part condition.now) }
{
    match condition {
        Condition::Agrees(_) => put_chip(alloc, items, ending, part, condition),
        Condition::Block(_) => put_chip(alloc, items, ending, part, condition),
        Condition::Puts { .. } => put_chip(alloc, items, ending, part, condition),
        Condition::Shows { .. } => put_chip(alloc, items, ending, part, condition),
        Condition::Holds(text) => put_predicate(alloc, items, ending, part, text.as_slice()),
    }
}

#[tactic(auto, using(std::proofs::Common::append_assoc))]
fn put_chips(
    alloc: Global,
    items: &mut Seq<Item>,
    ending: &Ending,
    part: usize,
    conditions: &[Condition],
) -> Result<(), OutOfMemory>
    ensures { OnOk result (items.new ≡ items.old ++ spec.chip_items (ending_of ending.now) part conditions.now) }
{
    for (index, condition) in conditions.iter().enumerate() {
        let number = further(part, index)?;
        put_condition(alloc, items, ending, number, condition)?;
    }
    Ok(())
}

fn put_conditions(
    alloc: Global,
    items: &mut Seq<Item>,
    ending: &Ending,
    part: usize,
    conditions: &[Condition],
) -> Result<(), OutOfMemory>
    ensures { OnOk result (items.new ≡ items.old ++ spec.condition_items (ending_of ending.now) part conditions.now) }
{
    if conditions.is_empty() {
        let anyone = plain_item(alloc, Kind::Note, b"anyone")?;
        items.push(anyone)?;
        return Ok(());
    }
    put_chips(alloc, items, ending, part, conditions)
}

/// The value of a part before what comes of it.
pub(crate) fn put_part(
    alloc: Global,
    items: &mut Seq<Item>,
    share: Option<u64>,
) -> Result<(), OutOfMemory>
    ensures { OnOk result (items.new ≡ items.old ++ spec.part_items share) }
{
    let Some(value) = share else {
        return Ok(());
    };
    let text = made(alloc, &[Piece::PlainSum(value), Piece::Mark(b":")])?;
    items.push(item(Kind::Note, None, text))?;
    Ok(())
}

/// The value of a part, and what the branch waits for.
#[tactic(auto, using(std::proofs::Common::append_assoc))]
pub(crate) fn beside_branch(
    alloc: Global,
    ending: &Ending,
    part: usize,
    share: Option<u64>,
    conditions: &[Condition],
) -> Result<Seq<Item>, OutOfMemory>
    ensures { IfOk result (λ items. items
        ≡ spec.part_items share ++ spec.condition_items (ending_of ending.now) part conditions.now) }
{
    let mut items = Seq::new(alloc);
    put_part(alloc, &mut items, share)?;
    put_conditions(alloc, &mut items, ending, part, conditions)?;
    Ok(items)
}
