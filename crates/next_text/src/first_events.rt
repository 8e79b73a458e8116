//! The events up to a contract's beginning.

ghost use Rattle.std.specs.Prelude.{◌≡◌, ◌+◌, ◌++◌, ◌∷◌, [], map, IfOk, OnOk};
ghost use Rattle.spec_terms.specs.Precondition.{deposits, names_of};
ghost use Rattle.spec_run.specs.declared.event.Event.TheVariants as events;
ghost use Rattle.spec_next.specs.FirstLines as spec;

use bm_wellformed::Checked;
use spec_data::{Name, OutOfMemory, Seq};
use spec_run::Event;
use spec_terms::Pre;
use std::alloc::{AllocError, Global};

// Binds a name to the output of this number, and answers the next one's. One of 2^32 counts as out of memory.
fn bind(bound: &mut Seq<(Name, u32)>, number: u32, name: &Name) -> Result<u32, OutOfMemory>
    ensures bound { OnOk result (bound.new ≡ bound.old ++ (name.now, number) ∷ []) }
    ensures next { IfOk result (λ next. next ≡ number + 1) }
{
    if number == u32::MAX {
        return Err(AllocError);
    }
    bound.push((*name, number))?;
    Ok(number + 1)
}

// The deposits of a precondition, bound to the outputs from the first on.
#[tactic(auto, using(std::proofs::Common::append_assoc))]
fn bindings(alloc: Global, pre: &[Pre]) -> Result<Seq<(Name, u32)>, OutOfMemory>
    ensures { IfOk result (λ bound. bound ≡ spec.bound_from 0 (names_of (deposits pre.now))) }
{
    let mut bound = Seq::new(alloc);
    let mut number = 0u32;
    for entry in pre {
        match entry {
            Pre::Persistent { name, .. } => number = bind(&mut bound, number, name)?,
            Pre::Volatile { name, .. } => number = bind(&mut bound, number, name)?,
            Pre::Secret { .. } => {}
        }
    }
    Ok(bound)
}

#[tactic(auto, using(std::proofs::Common::append_assoc))]
fn put_commitments(
    alloc: Global,
    found: &mut Seq<Event>,
    parties: &[Name],
) -> Result<(), OutOfMemory>
    ensures { OnOk result (found.new ≡ found.old ++ map (λ party. events.Commit 0 party []) parties.now) }
{
    for party in parties {
        found.push(Event::Commit {
            contract: 0,
            party: *party,
            digests: Seq::new(alloc),
        })?;
    }
    Ok(())
}

#[tactic(auto, using(std::proofs::Common::append_assoc))]
fn put_endorsements(found: &mut Seq<Event>, parties: &[Name]) -> Result<(), OutOfMemory>
    ensures { OnOk result (found.new ≡ found.old ++ map (λ party. events.Endorse 0 party) parties.now) }
{
    for party in parties {
        found.push(Event::Endorse {
            contract: 0,
            party: *party,
        })?;
    }
    Ok(())
}

#[tactic(auto, using(std::proofs::Common::append_assoc))]
fn put_signatures(found: &mut Seq<Event>, parties: &[Name]) -> Result<(), OutOfMemory>
    ensures { OnOk result (found.new ≡ found.old ++ map (λ party. events.Init 0 party) parties.now) }
{
    for party in parties {
        found.push(Event::Init {
            contract: 0,
            party: *party,
        })?;
    }
    Ok(())
}

/// The contract is advertised; all commit, all endorse, all sign the initial transaction; it begins.
#[tactic(auto, using(std::proofs::Common::append_assoc))]
pub(crate) fn first_events(alloc: Global, contract: &Checked) -> Result<Seq<Event>, OutOfMemory>
    ensures { IfOk result (λ found. found ≡ spec.first_events contract.now) }
{
    let parties = contract.parties();
    let bindings = bindings(alloc, &contract.advert().pre)?;
    let mut found = Seq::new(alloc);
    found.push(Event::Advertise {
        contract: 0,
        bindings,
    })?;
    put_commitments(alloc, &mut found, parties)?;
    put_endorsements(&mut found, parties)?;
    put_signatures(&mut found, parties)?;
    found.push(Event::FireInit { contract: 0 })?;
    Ok(found)
}
