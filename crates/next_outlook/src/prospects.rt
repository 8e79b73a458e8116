//! What is told of an event with what it would come to.

ghost use Rattle.std.specs.Prelude.{◌≡◌, ◌++◌, IfOk, OnOk};
ghost use Rattle.spec_next.specs.Prospects.{outstanding, requirements_by, ruling_by};
ghost use Rattle.bm_world.specs.Playing.{setup_in};
ghost use Rattle.next_outlook.specs.Foretold as spec;

use crate::ahead::is_shown;
use crate::requirements::lacking;
use bm_calculus::Config;
use bm_hash::Hash32;
use bm_world::World;
use spec_data::{OutOfMemory, Seq};
use spec_next::{Prospect, Requirement, Ruling};
use spec_run::{Event, Outcome};
use std::alloc::Global;

// The ruling of an outcome.
fn ruling_by(alloc: Global, outcome: &Outcome) -> Result<Ruling, OutOfMemory>
    ensures { IfOk result (λ ruling. ruling ≡ ruling_by outcome.now) }
{
    match outcome {
        Outcome::Done => Ok(Ruling::Can),
        Outcome::Accepted { .. } => Ok(Ruling::Can),
        Outcome::Refused(reason) => Ok(Ruling::Cannot(reason.copy(alloc)?)),
    }
}

// The ruling of an outcome; without one the event halts.
fn ruling_in(alloc: Global, outcome: &Option<Outcome>) -> Result<Ruling, OutOfMemory>
    ensures { IfOk result (λ ruling. ruling ≡ spec.ruling_in outcome.now) }
{
    match outcome {
        Some(outcome) => ruling_by(alloc, outcome),
        None => Ok(Ruling::Halts),
    }
}

// What is said to be missing for an event with this ruling: nothing where it can come.
fn requirements_by<H: Hash32 + Drop>(
    alloc: Global,
    world: &World<H>,
    config: &Config,
    event: &Event,
    ruling: &Ruling,
) -> Result<Seq<Requirement>, OutOfMemory>
    ensures { IfOk result (λ requirements. requirements ≡ requirements_by
        (outstanding (setup_in H.digest_of world.now) config.now world.now.world event.now) ruling.now) }
{
    match ruling {
        Ruling::Cannot(reason) => lacking(alloc, world, config, event, reason),
        Ruling::Can => Ok(Seq::new(alloc)),
        Ruling::Halts => Ok(Seq::new(alloc)),
    }
}

// Adds what is told of an event with this ruling, where it is shown.
#[tactic(auto, using(crate::proofs::Hashless::nothing_told))]
fn tell_ruling<H: Hash32 + Drop>(
    alloc: Global,
    world: &World<H>,
    config: &Config,
    prospects: &mut Seq<Prospect>,
    event: &Event,
    ruling: Ruling,
) -> Result<(), OutOfMemory>
    ensures { OnOk result (prospects.new ≡ prospects.old
        ++ spec.told (setup_in H.digest_of world.now) config.now world.now.world event.now ruling) }
{
    if !is_shown(world, event, &ruling) {
        return Ok(());
    }
    let requirements = requirements_by(alloc, world, config, event, &ruling)?;
    let event = event.copy(alloc)?;
    prospects.push(Prospect {
        event,
        ruling,
        requirements,
    })?;
    Ok(())
}

/// Adds what is told of an event that would come to this.
pub(crate) fn tell<H: Hash32 + Drop>(
    alloc: Global,
    world: &World<H>,
    config: &Config,
    prospects: &mut Seq<Prospect>,
    event: &Event,
    outcome: &Option<Outcome>,
) -> Result<(), OutOfMemory>
    ensures { OnOk result (prospects.new ≡ prospects.old
        ++ spec.told (setup_in H.digest_of world.now) config.now world.now.world event.now (spec.ruling_in outcome.now)) }
{
    let ruling = ruling_in(alloc, outcome)?;
    tell_ruling(alloc, world, config, prospects, event, ruling)
}
