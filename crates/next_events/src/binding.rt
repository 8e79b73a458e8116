//! A contract is advertised with the deposits that fit.

ghost use Rattle.std.specs.Prelude.{◌≡◌, ◌++◌, IfOk, OnOk};
ghost use Rattle.spec_terms.specs.Precondition.{holding, deposits};
ghost use Rattle.spec_calculus.specs.declared.step.Owner.TheVariants.{Party};
ghost use Rattle.spec_calculus.specs.Same as same;
ghost use Rattle.spec_run.specs.declared.event.Event.TheVariants as events;
ghost use Rattle.spec_next.specs.Bindings as spec;

use bm_calculus::{Config, Owner};
use spec_calculus::Deposit;
use spec_data::{Name, OutOfMemory, Seq};
use spec_run::Event;
use spec_terms::Pre;
use std::alloc::Global;
use std::collections::VecDeque;

// Whether the owner is this party.
fn is_of(owner: &Owner, party: &Name) -> bool
    ensures { result ≡ same.owner_eq owner.now (Party party.now) }
{
    match owner {
        Owner::Party(name) => *name == *party,
        Owner::Outside => false,
    }
}

// Whether a deposit has this owner and value.
fn fits(deposit: &Deposit, party: &Name, value: u64) -> bool
    ensures { result ≡ spec.fits (holding party.now value) deposit.now }
{
    is_of(&deposit.owner, party) && deposit.value == value
}

// Whether a name is bound to the deposit of this number.
fn is_taken(bound: &[(Name, u32)], number: u32) -> bool
    ensures { result ≡ spec.is_taken bound.now number }
{
    bound.iter().any(|b| b.1 == number)
}

// The number of the first of these deposits that fits and that no name is bound to.
fn first_fitting(
    live: &VecDeque<Deposit>,
    party: &Name,
    value: u64,
    bound: &[(Name, u32)],
) -> Option<u32>
    ensures { result ≡ spec.first_fitting (holding party.now value) bound.now live.now.items }
{
    for deposit in live {
        if fits(deposit, party, value) && !is_taken(bound, deposit.number) {
            return Some(deposit.number);
        }
    }
    None
}

// Binds a name to the first deposit that fits, if there is one.
#[tactic(auto, using(crate::proofs::Takings::nothing_bound))]
fn bind(
    bound: &mut Seq<(Name, u32)>,
    live: &VecDeque<Deposit>,
    party: &Name,
    value: u64,
    name: &Name,
) -> Result<(), OutOfMemory>
    ensures { OnOk result (bound.new
        ≡ bound.old ++ spec.binding name.now (spec.first_fitting (holding party.now value) bound.old live.now.items)) }
{
    match first_fitting(live, party, value, bound.as_slice()) {
        None => Ok(()),
        Some(number) => {
            bound.push((*name, number))?;
            Ok(())
        }
    }
}

// The bindings of the deposits of a precondition.
fn bindings_for(
    alloc: Global,
    live: &VecDeque<Deposit>,
    pre: &[Pre],
) -> Result<Seq<(Name, u32)>, OutOfMemory>
    ensures { IfOk result (λ bound. bound ≡ spec.bindings_for live.now.items (deposits pre.now)) }
{
    let mut bound = Seq::new(alloc);
    for entry in pre {
        match entry {
            Pre::Persistent { party, value, name } => bind(&mut bound, live, party, *value, name)?,
            Pre::Volatile { party, value, name } => bind(&mut bound, live, party, *value, name)?,
            Pre::Secret { .. } => {}
        }
    }
    Ok(bound)
}

/// The advertisement of a contract with this precondition, bound to the first deposits that fit.
pub fn advertising(
    alloc: Global,
    config: &Config,
    contract: u32,
    pre: &[Pre],
) -> Result<Event, OutOfMemory>
    ensures { IfOk result (λ event. event
        ≡ events.Advertise contract (spec.bindings_for config.now.deposits (deposits pre.now))) }
{
    let bindings = bindings_for(alloc, config.deposits(), pre)?;
    Ok(Event::Advertise { contract, bindings })
}
