//! What is missing for an event in a world.

ghost use Rattle.std.specs.Prelude.{◌≡◌, ◌++◌, IfOk, OnOk};
ghost use Rattle.spec_calculus.specs.Beginning.{pre_of, participants_of};
ghost use Rattle.spec_calculus.specs.Beginning as beginning;
ghost use Rattle.spec_run.specs.Compiled.{compiled_instance};
ghost use Rattle.spec_terms.specs.Precondition.{persistent};
ghost use Rattle.spec_run.specs.Setup as run;
ghost use Rattle.spec_run.specs.Setup.{pre_at};
ghost use Rattle.next_outlook.specs.Endorsed.{endorsed_by};
ghost use Rattle.spec_run.specs.declared.event.Event.TheVariants as events;
ghost use Rattle.spec_next.specs.Prospects.{decisive, lasting, outstanding};
ghost use Rattle.spec_next.specs.Requirements as spec;
ghost use Rattle.bm_world.specs.Playing.{setup_in};

use crate::endorsed::has_endorsed;
use crate::hands::put_outstanding;
use crate::never::{decisive, put_lasting};
use bm_calculus::Config;
use bm_hash::Hash32;
use bm_world::World;
use bm_world_board::is_name_among;
use next_events::{
    put_agreed, put_begun, put_branch, put_digests, put_started, put_unbound, put_unless,
};
use spec_data::{Name, OutOfMemory, Seq};
use spec_next::Requirement;
use spec_run::{Event, Reason};
use spec_terms::Pre;
use std::alloc::Global;
use std::marker::Model;

// The precondition of the contract of this number in the world.
fn pre_in<H: Hash32 + Drop>(world: &World<H>, contract: u32) -> &[Pre]
    ensures { result.now ≡ pre_at (setup_in H.digest_of world.now) contract }
{
    match world.contracts().get(contract as usize) {
        Some(checked) => &checked.advert().pre,
        None => &[],
    }
}

// The precondition of the contract of this place in the configuration.
fn pre_there(config: &Config, contract: u32) -> &[Pre]
    ensures { result.now ≡ pre_of (beginning.contract_at config.now.contracts contract) }
{
    match config.checked(contract) {
        Some(checked) => &checked.advert().pre,
        None => &[],
    }
}

// Who takes part in the contract of this place in the configuration.
fn parties_of(config: &Config, contract: u32) -> &[Name]
    ensures { result.now ≡ participants_of (beginning.contract_at config.now.contracts contract) }
{
    match config.checked(contract) {
        Some(checked) => checked.parties(),
        None => &[],
    }
}

// Whether the party is honest.
fn is_honest<H: Hash32 + Drop>(world: &World<H>, party: &Name) -> bool
    ensures { result ≡ run.is_honest (setup_in H.digest_of world.now) party.now }
{
    is_name_among(world.header().honest.as_slice(), party)
}

// What is missing for a commitment.
#[tactic(auto, using(std::proofs::Common::append_assoc, next_events::proofs::Unmet::unmet_first))]
fn put_committing<H: Hash32 + Drop>(
    requirements: &mut Seq<Requirement>,
    world: &World<H>,
    config: &Config,
    contract: u32,
    party: &Name,
    digests: &[(Name, [u8; 32])],
) -> Result<(), OutOfMemory>
    ensures { OnOk result (requirements.new ≡ requirements.old ++ spec.unmet
        (spec.conditions (setup_in H.digest_of world.now) config.now world.now.world (events.Commit contract party.now digests.now))) }
{
    put_unless(
        requirements,
        config.is_advertised(contract),
        Requirement::Advert(contract),
    )?;
    let honest = is_honest(world, party);
    put_digests(
        requirements,
        pre_in(world, contract),
        contract,
        party,
        honest,
        digests,
    )
}

// The endorsements of these people that are missing for a contract that is compiled.
#[tactic(auto, using(std::proofs::Common::append_assoc, next_events::proofs::Unmet::unmet_first))]
fn put_unendorsed<H: Hash32 + Drop>(
    alloc: Global,
    requirements: &mut Seq<Requirement>,
    world: &World<H>,
    contract: u32,
    people: &[Name],
) -> Result<(), OutOfMemory>
    ensures { OnOk result (requirements.new ≡ requirements.old ++ spec.unmet (endorsed_by (setup_in H.digest_of world.now) world.now.world contract
        (compiled_instance (setup_in H.digest_of world.now) world.now.world contract) people.now)) }
{
    for party in people {
        let met = has_endorsed(alloc, world, contract, party)?;
        let requirement = Requirement::Endorsement {
            party: *party,
            contract,
        };
        put_unless(requirements, met, requirement)?;
    }
    Ok(())
}

// The endorsements that an honest party waits for.
#[tactic(auto, using(next_events::proofs::Unmet::nothing_more))]
fn put_waited<H: Hash32 + Drop>(
    alloc: Global,
    requirements: &mut Seq<Requirement>,
    world: &World<H>,
    contract: u32,
    party: &Name,
    people: &[Name],
) -> Result<(), OutOfMemory>
    ensures { OnOk result (requirements.new ≡ requirements.old ++ spec.unmet (spec.endorsed_for (setup_in H.digest_of world.now) world.now.world contract
        party.now (compiled_instance (setup_in H.digest_of world.now) world.now.world contract) people.now)) }
{
    match world.compiled(contract) {
        None => Ok(()),
        Some(_) => {
            if !is_honest(world, party) {
                return Ok(());
            }
            put_unendorsed(alloc, requirements, world, contract, people)
        }
    }
}

// What is missing for a signature of the initial transaction.
#[tactic(auto, using(std::proofs::Common::append_assoc, next_events::proofs::Unmet::unmet_append))]
fn put_starting<H: Hash32 + Drop>(
    alloc: Global,
    requirements: &mut Seq<Requirement>,
    world: &World<H>,
    config: &Config,
    contract: u32,
    party: &Name,
) -> Result<(), OutOfMemory>
    ensures { OnOk result (requirements.new ≡ requirements.old ++ spec.unmet
        (spec.conditions (setup_in H.digest_of world.now) config.now world.now.world (events.Init contract party.now))) }
{
    put_agreed(requirements, config, contract)?;
    put_waited(
        alloc,
        requirements,
        world,
        contract,
        party,
        parties_of(config, contract),
    )
}

// What is missing for a contract to begin.
#[tactic(auto, using(std::proofs::Common::append_assoc, next_events::proofs::Unmet::unmet_append))]
fn put_beginning(
    requirements: &mut Seq<Requirement>,
    config: &Config,
    contract: u32,
) -> Result<(), OutOfMemory>
    ensures { OnOk result (requirements.new ≡ requirements.old ++ spec.unmet (spec.agreed config.now contract
        ++ spec.started config.now contract (persistent (pre_of (beginning.contract_at config.now.contracts contract))))) }
{
    put_agreed(requirements, config, contract)?;
    put_started(requirements, config, contract, pre_there(config, contract))
}

// Adds what is missing for an event.
fn put_requirements<H: Hash32 + Drop>(
    alloc: Global,
    requirements: &mut Seq<Requirement>,
    world: &World<H>,
    config: &Config,
    event: &Event,
) -> Result<(), OutOfMemory>
    ensures { OnOk result (requirements.new ≡ requirements.old ++ spec.requirements_of (setup_in H.digest_of world.now) config.now world.now.world event.now) }
{
    match event {
        Event::Advertise { contract, bindings } => {
            put_unbound(requirements, pre_in(world, *contract), bindings.as_slice())
        }
        Event::Commit {
            contract,
            party,
            digests,
        } => put_committing(
            requirements,
            world,
            config,
            *contract,
            party,
            digests.as_slice(),
        ),
        Event::Endorse { contract, .. } => put_agreed(requirements, config, *contract),
        Event::Init { contract, party } => {
            put_starting(alloc, requirements, world, config, *contract, party)
        }
        Event::FireInit { contract } => put_beginning(requirements, config, *contract),
        Event::Reveal {
            contract,
            party,
            ..
        } => {
            let begun = world.board().has_begun(*contract);
            put_begun(requirements, config, begun, *contract, party)
        }
        Event::Fire { output, branch } => {
            let honest = world.header().honest.as_slice();
            put_branch(requirements, honest, config, *output, *branch)
        }
        _ => Ok(()),
    }
}

/// What an event that is refused for this reason lacks.
#[tactic(auto, using(std::proofs::Common::append_assoc))]
pub(crate) fn lacking<H: Hash32 + Drop>(
    alloc: Global,
    world: &World<H>,
    config: &Config,
    event: &Event,
    reason: &Reason,
) -> Result<Seq<Requirement>, OutOfMemory>
    ensures { IfOk result (λ requirements. requirements ≡ decisive (lasting reason.now
        ++ outstanding (setup_in H.digest_of world.now) config.now world.now.world event.now)) }
{
    let mut all = Seq::new(alloc);
    put_requirements(alloc, &mut all, world, config, event)?;
    let mut requirements = Seq::new(alloc);
    put_lasting(&mut requirements, reason)?;
    put_outstanding(alloc, &mut requirements, world, all.as_slice())?;
    decisive(alloc, requirements)
}
