//! Who takes part in a contract.

ghost use Rattle.std.specs.Prelude.{◌≡◌, ◌++◌, map, IfOk, OnOk, OnErr};
ghost use Rattle.bm_syntax.specs.View.{guarded, contract, part_view, choice_of, parts_of};
ghost use Rattle.spec_terms.specs.Parties as spec;
ghost use Rattle.spec_terms.specs.Precondition.{party_of as party_in};

use crate::advert::Advert;
use crate::term::{Contract, Guarded, Part};
use spec_data::{Name, OutOfMemory};
use spec_terms::Pre;
use std::alloc::Global;

/// Every party that the precondition or the contract names, each once, in the order of first appearance.
pub fn participants(alloc: Global, advert: &Advert) -> Result<Vec<Name>, OutOfMemory>
    ensures { IfOk result (λ names. names.items ≡ spec.participants advert.now) }
{
    let mut names = Vec::new(alloc);
    add_pre(&mut names, &advert.pre)?;
    add_contract(&mut names, &advert.root)?;
    Ok(names)
}

fn add_pre(names: &mut Vec<Name>, entries: &[Pre]) -> Result<(), OutOfMemory>
    ensures { OnOk result (names.new.items ≡ spec.add_all names.old.items (map party_in entries.now)) }
{
    for entry in entries {
        add_new(names, party_of(entry))?;
    }
    Ok(())
}

fn party_of(entry: &Pre) -> &Name
    ensures { result.now ≡ party_in entry.now }
{
    match entry {
        Pre::Persistent { party, .. } => party,
        Pre::Volatile { party, .. } => party,
        Pre::Secret { party, .. } => party,
    }
}

#[cycle(add)]
fn add_contract(names: &mut Vec<Name>, choice: &Contract) -> Result<(), OutOfMemory>
    ensures { OnOk result (names.new.items ≡ spec.add_all names.old.items (spec.choice_mentions (contract choice.now))) }
{
    for branch in &choice.branches {
        add_branch(names, branch)?;
    }
    Ok(())
}

#[cycle(add)]
fn add_branch(names: &mut Vec<Name>, branch: &Guarded) -> Result<(), OutOfMemory>
    ensures { OnOk result (names.new.items ≡ spec.add_all names.old.items (spec.mentions (guarded branch.now))) }
{
    match branch {
        Guarded::Auth { party, body } => {
            add_new(names, party)?;
            add_branch(names, body)
        }
        Guarded::After { body, .. } => add_branch(names, body),
        Guarded::PutReveal { next, .. } => add_contract(names, next),
        Guarded::Withdraw { party } => add_new(names, party),
        Guarded::Split { parts } => add_parts(names, parts),
    }
}

#[cycle(add)]
fn add_parts(names: &mut Vec<Name>, parts: &[Part]) -> Result<(), OutOfMemory>
    ensures { OnOk result (names.new.items ≡ spec.add_all names.old.items (spec.parts_mentions (parts_of (map part_view parts.now)))) }
{
    for part in parts {
        add_contract(names, &part.next)?;
    }
    Ok(())
}

/// Adds the party as the last one, unless it is among them. An `Err` changes nothing.
pub fn add_new(names: &mut Vec<Name>, party: &Name) -> Result<(), OutOfMemory>
    ensures ok { OnOk result (names.new.items ≡ spec.add_new names.old.items party.now) }
    ensures err { OnErr result (names.new.items ≡ names.old.items) }
{
    if !names.contains(party) {
        names.push(*party)?;
    }
    Ok(())
}
