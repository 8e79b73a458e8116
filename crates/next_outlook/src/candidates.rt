//! The events that may come next of a contract.

ghost use Rattle.std.specs.Prelude.{◌≡◌, ◌++◌, IfOk, OnOk};
ghost use Rattle.spec_next.specs.Candidates as spec;
ghost use Rattle.bm_world.specs.Playing.{setup_in};

use crate::endorsed::has_endorsed;
use crate::people::people_of;
use bm_calculus::Config;
use bm_hash::Hash32;
use bm_wellformed::Checked;
use bm_world::World;
use next_events::{advertising, put_actives, put_committing, put_revealing, put_starting};
use spec_data::{Name, OutOfMemory, Seq};
use spec_run::Event;
use spec_terms::Pre;
use std::alloc::Global;

// Adds the endorsements of those of these people who have something left to sign.
#[tactic(auto, using(std::proofs::Common::append_assoc))]
fn put_endorsing<H: Hash32 + Drop>(
    alloc: Global,
    found: &mut Seq<Event>,
    world: &World<H>,
    contract: u32,
    people: &[Name],
) -> Result<(), OutOfMemory>
    ensures { OnOk result (found.new
        ≡ found.old ++ spec.endorsing (setup_in H.digest_of world.now) world.now.world contract people.now) }
{
    for party in people {
        let done = has_endorsed(alloc, world, contract, party)?;
        if !done {
            found.push(Event::Endorse {
                contract,
                party: *party,
            })?;
        }
    }
    Ok(())
}

// The precondition of a contract.
fn pre_of(checked: &Checked) -> &[Pre]
    ensures { result.now ≡ checked.now.pre }
{
    &checked.advert().pre
}

// The candidates by these people.
#[tactic(auto, using(std::proofs::Common::append_assoc))]
fn candidates_by<H: Hash32 + Drop>(
    alloc: Global,
    world: &World<H>,
    config: &Config,
    contract: u32,
    checked: &Checked,
    people: &[Name],
) -> Result<Seq<Event>, OutOfMemory>
    ensures { IfOk result (λ found. found
        ≡ spec.candidates_by (setup_in H.digest_of world.now) config.now world.now.world contract checked.now people.now) }
{
    let pre = pre_of(checked);
    let advertised = advertising(alloc, config, contract, pre)?;
    let mut found = Seq::new(alloc);
    found.push(advertised)?;
    put_committing(alloc, &mut found, contract, people)?;
    put_endorsing(alloc, &mut found, world, contract, people)?;
    put_starting(&mut found, config, contract, pre, people)?;
    found.push(Event::FireInit { contract })?;
    let honest = world.header().honest.as_slice();
    put_revealing(&mut found, honest, contract, pre)?;
    put_actives(&mut found, config, people, contract)?;
    Ok(found)
}

/// The candidates of a contract.
pub(crate) fn candidates<H: Hash32 + Drop>(
    alloc: Global,
    world: &World<H>,
    config: &Config,
    contract: u32,
    checked: &Checked,
) -> Result<Seq<Event>, OutOfMemory>
    ensures { IfOk result (λ found. found
        ≡ spec.candidates (setup_in H.digest_of world.now) config.now world.now.world contract checked.now) }
{
    let people = people_of(alloc, world, checked)?;
    candidates_by(alloc, world, config, contract, checked, people.as_slice())
}
