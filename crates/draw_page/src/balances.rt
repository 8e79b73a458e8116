//! What everybody has, where it changes from row to row.

ghost use Rattle.std.specs.Prelude.{◌≡◌, ◌++◌, [], codes, IfOk, OnOk};
ghost use Rattle.std.specs.Option.{option_copied};
ghost use Rattle.spec_page.specs.Cells.{each_party};
ghost use Rattle.spec_page.specs.Html.{content_text};
ghost use Rattle.spec_page.specs.RunPart as spec;
ghost use Rattle.draw_page.specs.RunTexts.{changed_text, elsewhere_text};
ghost use Rattle.draw_page.specs.Scenes.{columns_of};
ghost use Rattle.draw_page.specs.Texts.{text_of, each_text, sum_cell_text};

use crate::cells::{put_party_cell, put_sum_cell};
use crate::pieces::{Piece, put_all};
use crate::scene::Columns;
use bm_text::put;
use spec_data::{Name, OutOfMemory};
use spec_page::Money;
use std::alloc::Global;

// A sum where it isn't what it was before.
fn put_changed(
    alloc: Global,
    out: &mut Vec<u8>,
    before: Option<u64>,
    now: u64,
) -> Result<(), OutOfMemory>
    ensures { OnOk result (out.new.items ≡ out.old.items ++ changed_text before now) }
{
    match before {
        None => put_all(alloc, out, &[Piece::Sum(now)]),
        Some(sum) => {
            if sum == now {
                return Ok(());
            }
            put_all(alloc, out, &[Piece::Sum(now)])
        }
    }
}

// A mark in the column of who acts.
#[tactic(auto, unfolding(spec_page::specs::Html::attribute_text))]
fn put_mark(out: &mut Vec<u8>, own: bool) -> Result<(), OutOfMemory>
    ensures { OnOk result (out.new.items ≡ out.old.items ++ content_text (spec.mark own)) }
{
    if !own {
        return Ok(());
    }
    put(out, b"<span class=\"dot\" title=\"acts\"></span>")
}

fn is_actor(actor: &Option<Name>, party: &Name) -> bool
    ensures { result ≡ spec.is_actor actor.now party.now }
{
    match actor {
        None => false,
        Some(who) => *who == *party,
    }
}

/// What the party of this number has.
pub fn sum_at(number: usize, money: &Money) -> u64
    ensures { result ≡ spec.sum_at number money.now }
{
    match money.parties.as_slice().get(number) {
        Some(sum) => *sum,
        None => 0,
    }
}

/// What it had before, where there is a row before.
pub fn sum_before(number: usize, before: Option<&Money>) -> Option<u64>
    ensures { result ≡ spec.sum_before number (option_copied before.entry) }
{
    match before {
        None => None,
        Some(money) => Some(sum_at(number, money)),
    }
}

fn put_party_sum(
    alloc: Global,
    out: &mut Vec<u8>,
    actor: &Option<Name>,
    before: Option<&Money>,
    now: &Money,
    column: usize,
    party: &Name,
) -> Result<(), OutOfMemory>
    ensures { OnOk result (out.new.items ≡ out.old.items
        ++ text_of (spec.party_sum actor.now (option_copied before.entry) now.now column party.now)) }
{
    let mut inside = Vec::new(alloc);
    put_changed(
        alloc,
        &mut inside,
        sum_before(column, before),
        sum_at(column, now),
    )?;
    put_mark(&mut inside, is_actor(actor, party))?;
    put_party_cell(alloc, out, column, party.bytes(), &inside)
}

/// A cell for each party, with its sum where it changed.
pub(crate) fn party_sums(
    alloc: Global,
    columns: &Columns,
    actor: &Option<Name>,
    before: Option<&Money>,
    now: &Money,
) -> Result<Vec<u8>, OutOfMemory>
    ensures { IfOk result (λ text. text.items
        ≡ each_text (each_party (spec.party_sum actor.now (option_copied before.entry) now.now) (columns_of columns.now))) }
{
    let mut text = Vec::new(alloc);
    for (column, party) in columns.parties.iter().enumerate() {
        put_party_sum(alloc, &mut text, actor, before, now, column, party)?;
    }
    Ok(text)
}

// ---- the contract's, what is elsewhere, and the fees

fn contracts_before(before: Option<&Money>) -> Option<u64>
    ensures { result ≡ spec.field (λ m. m.contracts) (option_copied before.entry) }
{
    match before {
        None => None,
        Some(money) => Some(money.contracts),
    }
}

fn elsewhere_before(before: Option<&Money>) -> Option<u64>
    ensures { result ≡ spec.field (λ m. m.elsewhere) (option_copied before.entry) }
{
    match before {
        None => None,
        Some(money) => Some(money.elsewhere),
    }
}

fn fees_before(before: Option<&Money>) -> Option<u64>
    ensures { result ≡ spec.field (λ m. m.fees) (option_copied before.entry) }
{
    match before {
        None => None,
        Some(money) => Some(money.fees),
    }
}

fn put_field(
    alloc: Global,
    out: &mut Vec<u8>,
    name: &[u8],
    before: Option<u64>,
    now: u64,
) -> Result<(), OutOfMemory>
    ensures { OnOk result (out.new.items ≡ out.old.items ++ sum_cell_text [] name.now (changed_text before now)) }
{
    let mut inside = Vec::new(alloc);
    put_changed(alloc, &mut inside, before, now)?;
    put_sum_cell(alloc, out, name, &inside)
}

fn put_elsewhere(
    alloc: Global,
    out: &mut Vec<u8>,
    columns: &Columns,
    before: Option<&Money>,
    now: &Money,
) -> Result<(), OutOfMemory>
    ensures { OnOk result (out.new.items ≡ out.old.items
        ++ elsewhere_text columns.now.elsewhere (spec.field (λ m. m.elsewhere) (option_copied before.entry)) now.now.elsewhere) }
{
    if !columns.elsewhere {
        return Ok(());
    }
    put_field(
        alloc,
        out,
        b"elsewhere",
        elsewhere_before(before),
        now.elsewhere,
    )
}

/// The cells behind those of the parties.
pub(crate) fn last_sums(
    alloc: Global,
    columns: &Columns,
    before: Option<&Money>,
    now: &Money,
) -> Result<Vec<u8>, OutOfMemory>
    ensures { IfOk result (λ text. text.items ≡ each_text (spec.last_sums (columns_of columns.now) (option_copied before.entry) now.now)) }
{
    let mut text = Vec::new(alloc);
    put_field(
        alloc,
        &mut text,
        b"contract",
        contracts_before(before),
        now.contracts,
    )?;
    put_elsewhere(alloc, &mut text, columns, before, now)?;
    put_field(alloc, &mut text, b"fees", fees_before(before), now.fees)?;
    Ok(text)
}
