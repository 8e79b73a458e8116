//! What a transaction pays to each party, and what each party brings.

ghost use Rattle.std.specs.Prelude.{◌≡◌, ◌++◌, map, codes, None, IfOk, OnOk};
ghost use Rattle.std.specs.Str.{bytes_eq};
ghost use Rattle.spec_page.specs.SvgItems.{cell};
ghost use Rattle.spec_page.specs.SvgContract as spec;
ghost use Rattle.draw_svg.specs.Endings.{ending_of};

use crate::conditions::status_of;
use crate::ending::Ending;
use crate::items::{item, sum_of};
use draw_page::{Piece, further, made};
use spec_data::{Name, OutOfMemory, Seq};
use spec_page::{Cell, Item, Kind, Payment, Stake};
use std::alloc::Global;

fn is_same(one: &Name, other: &Name) -> bool
    ensures { result ≡ bytes_eq one.now other.now }
{
    *one == *other
}

// One where it is the party's.
fn put_if(items: &mut Seq<Item>, own: bool, item: Item) -> Result<(), OutOfMemory>
    ensures { OnOk result (items.new ≡ items.old ++ spec.item_of own item) }
{
    if own {
        items.push(item)?;
    }
    Ok(())
}

// ---- payments

// Those of the payments that go to a party.
#[tactic(auto, using(std::proofs::Common::append_assoc))]
fn put_payments(
    alloc: Global,
    items: &mut Seq<Item>,
    ending: &Ending,
    party: &Name,
    part: usize,
    payments: &[Payment],
) -> Result<(), OutOfMemory>
    ensures { OnOk result (items.new ≡ items.old ++ spec.payment_items (ending_of ending.now) party.now part payments.now) }
{
    for (index, payment) in payments.iter().enumerate() {
        let number = further(part, index)?;
        let sum = sum_of(alloc, status_of(ending, number), payment.value)?;
        put_if(items, is_same(&payment.party, party), sum)?;
    }
    Ok(())
}

fn payment_cell(
    alloc: Global,
    ending: &Ending,
    part: usize,
    payments: &[Payment],
    party: &Name,
) -> Result<Cell, OutOfMemory>
    ensures { IfOk result (λ c. c ≡ cell (spec.payment_items (ending_of ending.now) party.now part payments.now)) }
{
    let mut items = Seq::new(alloc);
    put_payments(alloc, &mut items, ending, party, part, payments)?;
    Ok(Cell { items })
}

/// A column for each party, in which the payments to it stand.
#[tactic(auto, using(std::proofs::Common::append_assoc))]
pub(crate) fn payment_cells(
    alloc: Global,
    ending: &Ending,
    part: usize,
    payments: &[Payment],
) -> Result<Seq<Cell>, OutOfMemory>
    ensures { IfOk result (λ cells. cells ≡ spec.payment_cells (ending_of ending.now) part payments.now) }
{
    let mut cells = Seq::new(alloc);
    for party in ending.parties {
        let cell = payment_cell(alloc, ending, part, payments, party)?;
        cells.push(cell)?;
    }
    Ok(cells)
}

// ---- stakes

// A deposit of the beginning, or one that may be put in later.
fn stake_item(
    alloc: Global,
    ending: &Ending,
    part: usize,
    stake: &Stake,
) -> Result<Item, OutOfMemory>
    ensures { IfOk result (λ i. i ≡ spec.stake_item (ending_of ending.now) part stake.now.volatile stake.now.value) }
{
    if !stake.volatile {
        return sum_of(alloc, status_of(ending, part), stake.value);
    }
    let text = made(
        alloc,
        &[Piece::PlainSum(stake.value), Piece::Mark(b" if put")],
    )?;
    Ok(item(Kind::Note, None, text))
}

// Those of the deposits that a party brings.
#[tactic(auto, using(std::proofs::Common::append_assoc))]
fn put_stakes(
    alloc: Global,
    items: &mut Seq<Item>,
    ending: &Ending,
    party: &Name,
    part: usize,
    stakes: &[Stake],
) -> Result<(), OutOfMemory>
    ensures { OnOk result (items.new ≡ items.old ++ spec.stake_items (ending_of ending.now) party.now part stakes.now) }
{
    for stake in stakes {
        let item = stake_item(alloc, ending, part, stake)?;
        put_if(items, is_same(&stake.party, party), item)?;
    }
    Ok(())
}

fn stake_cell(
    alloc: Global,
    ending: &Ending,
    part: usize,
    stakes: &[Stake],
    party: &Name,
) -> Result<Cell, OutOfMemory>
    ensures { IfOk result (λ c. c ≡ cell (spec.stake_items (ending_of ending.now) party.now part stakes.now)) }
{
    let mut items = Seq::new(alloc);
    put_stakes(alloc, &mut items, ending, party, part, stakes)?;
    Ok(Cell { items })
}

/// A column for each party, in which the deposits stand that it brings.
#[tactic(auto, using(std::proofs::Common::append_assoc))]
pub(crate) fn stake_cells(
    alloc: Global,
    ending: &Ending,
    part: usize,
    stakes: &[Stake],
) -> Result<Seq<Cell>, OutOfMemory>
    ensures { IfOk result (λ cells. cells ≡ spec.stake_cells (ending_of ending.now) part stakes.now) }
{
    let mut cells = Seq::new(alloc);
    for party in ending.parties {
        let cell = stake_cell(alloc, ending, part, stakes, party)?;
        cells.push(cell)?;
    }
    Ok(cells)
}
