//! Who can give now what is missing.

ghost use Rattle.std.specs.Prelude.{◌≡◌, ◌&&◌, IfOk};
ghost use Rattle.std.specs.List.{list_any};
ghost use Rattle.spec_next.specs.Prospects as spec;

use crate::gives::gives;
use bm_calculus::Config;
use next_events::awaited;
use spec_data::{Name, OutOfMemory, Seq};
use spec_next::{Prospect, Requirement, Ruling};
use std::alloc::Global;

// Whether what is missing is for this party to give.
fn is_for(requirement: &Requirement, party: &Name) -> bool
    ensures { result ≡ spec.is_for requirement.now party.now }
{
    match awaited(requirement) {
        Some(name) => *name == *party,
        None => false,
    }
}

fn can_come(ruling: &Ruling) -> bool
    ensures { result ≡ spec.can_come ruling.now }
{
    match ruling {
        Ruling::Can => true,
        Ruling::Cannot(_) => false,
        Ruling::Halts => false,
    }
}

// Whether the event can come and gives what is missing.
fn is_giving(prospect: &Prospect, requirement: &Requirement) -> bool
    ensures { result ≡ (spec.can_come prospect.now.ruling && spec.gives requirement.now prospect.now.event) }
{
    can_come(&prospect.ruling) && gives(requirement, &prospect.event)
}

// Whether one of these events can come and gives what is missing.
fn is_given(prospects: &[Prospect], requirement: &Requirement) -> bool
    ensures { result ≡ spec.is_given prospects.now requirement.now }
{
    prospects
        .iter()
        .any(|prospect| is_giving(prospect, requirement))
}

// Whether nothing stands in the way of giving it by an event that isn't listed.
fn is_open(config: &Config, requirement: &Requirement) -> bool
    ensures { result ≡ spec.is_open config.now requirement.now }
{
    match requirement {
        Requirement::Digest { contract, .. } => config.is_advertised(*contract),
        Requirement::Posted { .. } => true,
        _ => false,
    }
}

// Whether it can be given now.
fn is_at_hand(config: &Config, prospects: &[Prospect], requirement: &Requirement) -> bool
    ensures { result ≡ spec.is_at_hand config.now prospects.now requirement.now }
{
    is_open(config, requirement) || is_given(prospects, requirement)
}

// Whether this party can give it now.
fn is_from(config: &Config, prospects: &[Prospect], requirement: &Requirement, party: &Name) -> bool
    ensures { result ≡ (spec.is_for requirement.now party.now && spec.is_at_hand config.now prospects.now requirement.now) }
{
    is_for(requirement, party) && is_at_hand(config, prospects, requirement)
}

// Whether this party can give one of these now.
fn is_one_from(
    config: &Config,
    prospects: &[Prospect],
    requirements: &[Requirement],
    party: &Name,
) -> bool
    ensures { result
        ≡ list_any (λ requirement. spec.is_for requirement party.now && spec.is_at_hand config.now prospects.now requirement) requirements.now }
{
    requirements.iter().any(|requirement| is_from(config, prospects, requirement, party))
}

// Whether this party can give now what is missing for one of these.
fn is_waited_for(config: &Config, prospects: &[Prospect], party: &Name) -> bool
    ensures { result ≡ spec.is_waited_for config.now prospects.now party.now }
{
    prospects.iter().any(|prospect| is_one_from(
        config,
        prospects,
        prospect.requirements.as_slice(),
        party,
    ))
}

/// Those of these people who can give now what is missing for one of the prospects.
pub(crate) fn waits(
    alloc: Global,
    config: &Config,
    people: &[Name],
    prospects: &[Prospect],
) -> Result<Seq<Name>, OutOfMemory>
    ensures { IfOk result (λ list. list ≡ spec.waits config.now people.now prospects.now) }
{
    let mut list = Seq::new(alloc);
    for party in people {
        if is_waited_for(config, prospects, party) {
            list.push(*party)?;
        }
    }
    Ok(list)
}
