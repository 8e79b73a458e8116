//! The first fault of an advert, and the first limit that it exceeds.

ghost use Rattle.std.specs.Prelude.{◌≡◌, ◌≤◌, ◌<◌, ◌^◌, [], map, length, IfOk, option_map};
ghost use Rattle.spec_terms.specs.Faults as spec;
ghost use Rattle.spec_terms.specs.Parties.{participants};
ghost use Rattle.spec_terms.specs.Precondition.{owners_of, persistent, name_in};
ghost use Rattle.spec_terms.specs.declared.place.Place.TheVariants as places;
ghost use Rattle.bm_wellformed.specs.Small.{IsSearchable};

use crate::entries::{has_persistent, repeated_entry};
use crate::flaw::Flaw;
use crate::search::find;
use bm_syntax::{Advert, Limit, Name, Pre};
use spec_data::OutOfMemory;
use spec_terms::Place;
use std::alloc::Global;

/// The most participants that a contract may have.
const MOST_PARTICIPANTS: u32 = 16;

/// The first fault by number, with its place.
pub fn first_fault(
    alloc: Global,
    advert: &Advert,
    parties: &[Name],
) -> Result<Option<(u8, Place)>, OutOfMemory>
    requires searchable { IsSearchable advert.now }
    requires parties { parties.now ≡ participants advert.now }
    ensures { IfOk result (λ fault. fault ≡ spec.first_fault advert.now) }
{
    if let Some(place) = name_repeated(&advert.pre) {
        return Ok(Some((1, place)));
    }
    if let Some(place) = find(alloc, advert, Flaw::UnknownDeposit)? {
        return Ok(Some((2, place)));
    }
    if let Some(place) = find(alloc, advert, Flaw::UnknownSecret)? {
        return Ok(Some((3, place)));
    }
    if let Some(place) = find(alloc, advert, Flaw::PrefixRepeated)? {
        return Ok(Some((4, place)));
    }
    if let Some(place) = find(alloc, advert, Flaw::PredicateSecret)? {
        return Ok(Some((5, place)));
    }
    if let Some(place) = first_without(&advert.pre, parties) {
        return Ok(Some((6, place)));
    }
    if let Some(place) = find(alloc, advert, Flaw::SplitSum)? {
        return Ok(Some((7, place)));
    }
    if let Some(place) = find(alloc, advert, Flaw::FeeShort)? {
        return Ok(Some((8, place)));
    }
    Ok(None)
}

fn name_repeated(pre: &[Pre]) -> Option<Place>
    requires { length pre.now < 2 ^ 32 }
    ensures { result ≡ option_map places.Pre (spec.first_repeated 0 [] (map name_in pre.now)) }
{
    let number = repeated_entry(pre)?;
    Some(Place::Pre(number))
}

// The first party that has no persistent deposit.
fn first_without(pre: &[Pre], parties: &[Name]) -> Option<Place>
    ensures { result ≡ spec.first_without (owners_of (persistent pre.now)) parties.now }
{
    for party in parties {
        if !has_persistent(pre, party) {
            return Some(Place::Party(*party));
        }
    }
    None
}

/// The first limit in their order that the advert exceeds, with its place.
pub fn first_limit(
    alloc: Global,
    advert: &Advert,
    parties: &[Name],
) -> Result<Option<(Limit, Place)>, OutOfMemory>
    requires searchable { IsSearchable advert.now }
    requires parties { parties.now ≡ participants advert.now }
    requires few { length parties.now ≤ 32 }
    ensures { IfOk result (λ limit. limit ≡ spec.first_limit advert.now) }
{
    let count = parties.len() as u32;
    if count > MOST_PARTICIPANTS {
        return Ok(Some((Limit::Participants, Place::Count(count))));
    }
    if let Some(place) = find(alloc, advert, Flaw::Balance)? {
        return Ok(Some((Limit::Balance, place)));
    }
    if let Some(place) = find(alloc, advert, Flaw::Expression)? {
        return Ok(Some((Limit::Expression, place)));
    }
    if let Some(place) = too_large(alloc, advert, parties)? {
        return Ok(Some((Limit::Script, place)));
    }
    Ok(None)
}

// Where the script of a position is too large.
#[tactic(auto, using(crate::proofs::Found::script_found))]
fn too_large(alloc: Global, advert: &Advert, parties: &[Name]) -> Result<Option<Place>, OutOfMemory>
    requires searchable { IsSearchable advert.now }
    requires parties { parties.now ≡ participants advert.now }
    requires few { length parties.now ≤ 32 }
    ensures { IfOk result (λ place. place ≡ spec.script_exceeded advert.now) }
{
    let parties = parties.len() as u32;
    find(alloc, advert, Flaw::Script { parties })
}
