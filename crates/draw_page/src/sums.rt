//! What a transaction pays to each party, and what each party brings.

ghost use Rattle.std.specs.Prelude.{◌≡◌, ◌++◌, ◌∷◌, [], codes, IfOk, OnOk};
ghost use Rattle.std.specs.Str.{bytes_eq};
ghost use Rattle.spec_page.specs.Html.{element, said};
ghost use Rattle.spec_page.specs.Figures.{sum_text};
ghost use Rattle.spec_page.specs.Cells.{each_party};
ghost use Rattle.spec_page.specs.ContractPart as spec;
ghost use Rattle.draw_page.specs.Texts.{text_of, each_text, spaced_text};
ghost use Rattle.draw_page.specs.Scenes.{scene_of};

use crate::cells::put_party_cell;
use crate::conditions::put_span;
use crate::looks::{end_word, statuses_text};
use crate::parts::further;
use crate::pieces::{Piece, made, put_all};
use crate::scene::Scene;
use bm_text::put;
use spec_data::{Name, OutOfMemory};
use spec_page::{Payment, Stake};
use std::alloc::Global;

fn put_sum_text<'a>(
    alloc: Global,
    out: &mut Vec<u8>,
    end: &'a [u8],
    at: &'a [u8],
    value: u64,
) -> Result<(), OutOfMemory>
    ensures { OnOk result (out.new.items ≡ out.old.items
        ++ text_of (element (codes "i") ((codes "class", end.now) ∷ (codes "data-at", at.now) ∷ []) (said (sum_text value)))) }
{
    put_all(
        alloc,
        out,
        &[
            Piece::Mark(b"<i class=\""),
            Piece::Said(end),
            Piece::Mark(b"\" data-at=\""),
            Piece::Said(at),
            Piece::Mark(b"\">"),
            Piece::Sum(value),
            Piece::Mark(b"</i>"),
        ],
    )
}

/// A sum that a transaction pays or takes, as the part of this number.
fn put_sum(
    alloc: Global,
    out: &mut Vec<u8>,
    scene: &Scene,
    part: usize,
    value: u64,
) -> Result<(), OutOfMemory>
    ensures { OnOk result (out.new.items ≡ out.old.items ++ text_of (spec.sum_element (scene_of scene.now) part value)) }
{
    let at = statuses_text(alloc, part, scene.rows)?;
    put_sum_text(alloc, out, end_word(part, scene.rows), &at, value)
}

fn is_same(one: &Name, other: &Name) -> bool
    ensures { result ≡ bytes_eq one.now other.now }
{
    *one == *other
}

// ---- payments

#[tactic(auto, using(std::proofs::Common::append_assoc))]
fn put_payment(
    alloc: Global,
    out: &mut Vec<u8>,
    scene: &Scene,
    own: bool,
    part: usize,
    value: u64,
) -> Result<(), OutOfMemory>
    ensures { OnOk result (out.new.items ≡ out.old.items ++ spaced_text (spec.sum_if own (scene_of scene.now) part value)) }
{
    if !own {
        return Ok(());
    }
    put_sum(alloc, out, scene, part, value)?;
    put(out, b" ")
}

// Those of the payments that go to a party.
#[tactic(auto, using(std::proofs::Common::append_assoc, crate::proofs::WayLemmas::spaced_text_append))]
fn put_payments(
    alloc: Global,
    out: &mut Vec<u8>,
    scene: &Scene,
    party: &Name,
    part: usize,
    payments: &[Payment],
) -> Result<(), OutOfMemory>
    ensures { OnOk result (out.new.items ≡ out.old.items
        ++ spaced_text (spec.sums_to (scene_of scene.now) party.now part payments.now)) }
{
    for (index, payment) in payments.iter().enumerate() {
        let number = further(part, index)?;
        let own = is_same(&payment.party, party);
        put_payment(alloc, out, scene, own, number, payment.value)?;
    }
    Ok(())
}

fn put_payment_cell(
    alloc: Global,
    out: &mut Vec<u8>,
    scene: &Scene,
    part: usize,
    payments: &[Payment],
    column: usize,
    party: &Name,
) -> Result<(), OutOfMemory>
    ensures { OnOk result (out.new.items ≡ out.old.items
        ++ text_of (spec.payment_cell (scene_of scene.now) part payments.now column party.now)) }
{
    let mut inside = Vec::new(alloc);
    put_payments(alloc, &mut inside, scene, party, part, payments)?;
    put_party_cell(alloc, out, column, party.bytes(), &inside)
}

/// A cell for each party, in which the payments to it stand.
pub(crate) fn payment_cells(
    alloc: Global,
    scene: &Scene,
    part: usize,
    payments: &[Payment],
) -> Result<Vec<u8>, OutOfMemory>
    ensures { IfOk result (λ text. text.items
        ≡ each_text (each_party (spec.payment_cell (scene_of scene.now) part payments.now) (scene_of scene.now).columns)) }
{
    let mut text = Vec::new(alloc);
    for (column, party) in scene.columns.parties.iter().enumerate() {
        put_payment_cell(alloc, &mut text, scene, part, payments, column, party)?;
    }
    Ok(text)
}

// ---- stakes

// A deposit of the beginning, or one that may be put in later.
fn put_stake(
    alloc: Global,
    out: &mut Vec<u8>,
    scene: &Scene,
    part: usize,
    stake: &Stake,
) -> Result<(), OutOfMemory>
    ensures { OnOk result (out.new.items ≡ out.old.items
        ++ text_of (spec.stake_element (scene_of scene.now) part stake.now.volatile stake.now.value)) }
{
    if !stake.volatile {
        return put_sum(alloc, out, scene, part, stake.value);
    }
    let text = made(
        alloc,
        &[Piece::PlainSum(stake.value), Piece::Mark(b" if put")],
    )?;
    put_span(alloc, out, b"brings", &text)
}

#[tactic(auto, using(std::proofs::Common::append_assoc))]
fn put_stake_if(
    alloc: Global,
    out: &mut Vec<u8>,
    scene: &Scene,
    own: bool,
    part: usize,
    stake: &Stake,
) -> Result<(), OutOfMemory>
    ensures { OnOk result (out.new.items ≡ out.old.items ++ spaced_text (spec.stake_if own (scene_of scene.now) part stake.now)) }
{
    if !own {
        return Ok(());
    }
    put_stake(alloc, out, scene, part, stake)?;
    put(out, b" ")
}

// Those of the deposits that a party brings.
#[tactic(auto, using(std::proofs::Common::append_assoc, crate::proofs::WayLemmas::spaced_text_append))]
fn put_stakes(
    alloc: Global,
    out: &mut Vec<u8>,
    scene: &Scene,
    part: usize,
    party: &Name,
    stakes: &[Stake],
) -> Result<(), OutOfMemory>
    ensures { OnOk result (out.new.items ≡ out.old.items
        ++ spaced_text (spec.stake_elements (scene_of scene.now) part party.now stakes.now)) }
{
    for stake in stakes {
        let own = is_same(&stake.party, party);
        put_stake_if(alloc, out, scene, own, part, stake)?;
    }
    Ok(())
}

fn put_stake_cell(
    alloc: Global,
    out: &mut Vec<u8>,
    scene: &Scene,
    part: usize,
    stakes: &[Stake],
    column: usize,
    party: &Name,
) -> Result<(), OutOfMemory>
    ensures { OnOk result (out.new.items ≡ out.old.items
        ++ text_of (spec.stake_cell (scene_of scene.now) part stakes.now column party.now)) }
{
    let mut inside = Vec::new(alloc);
    put_stakes(alloc, &mut inside, scene, part, party, stakes)?;
    put_party_cell(alloc, out, column, party.bytes(), &inside)
}

/// A cell for each party, in which the deposits stand that it brings.
pub(crate) fn stake_cells(
    alloc: Global,
    scene: &Scene,
    part: usize,
    stakes: &[Stake],
) -> Result<Vec<u8>, OutOfMemory>
    ensures { IfOk result (λ text. text.items
        ≡ each_text (each_party (spec.stake_cell (scene_of scene.now) part stakes.now) (scene_of scene.now).columns)) }
{
    let mut text = Vec::new(alloc);
    for (column, party) in scene.columns.parties.iter().enumerate() {
        put_stake_cell(alloc, &mut text, scene, part, stakes, column, party)?;
    }
    Ok(text)
}
