//! The run that led to a world, in the calculus.

ghost use Rattle.std.specs.Prelude.{◌≡◌, IfOk};
ghost use Rattle.spec_run.specs.Statements.{Simulates, HoldsThroughout, licensed};
ghost use Rattle.spec_run.specs.Translation as run;
ghost use Rattle.bm_world.specs.Playing.{setup_in};
ghost use Rattle.bm_translate_course.specs.Courses.{events_of};

use crate::walking::{Translation, translate_run};
use bm_hash::Hash32;
use bm_world::World;
use spec_data::OutOfMemory;
use std::alloc::Global;

/// The run that led to a world, in the calculus of BitML: the steps of each record of its trace, and the configurations before and
/// after them. The steps are a legal run that agrees with the world at the opening and after every event, and honest parties
/// authorise in it only by their own events.
pub fn translate<H: Hash32 + Drop>(
    alloc: Global,
    world: &World<H>,
) -> Result<Translation, OutOfMemory>
    ensures steps { IfOk result (λ t. t.steps ≡ run.translated (setup_in H.digest_of world.now) (events_of world.now.trace)) }
    ensures last { IfOk result (λ t. t.last ≡ run.last_configuration (setup_in H.digest_of world.now) (events_of world.now.trace)) }
    ensures simulated { IfOk result (λ _. Simulates (setup_in H.digest_of world.now) (events_of world.now.trace)) }
    ensures licensed { IfOk result (λ _. HoldsThroughout (setup_in H.digest_of world.now)
        (licensed (setup_in H.digest_of world.now)) (events_of world.now.trace)) }
{
    let made = translate_run(alloc, world.trail(), world.board(), world.trace())?;
    Ok(made)
}
