//! The events of a run, one by one.

ghost use Rattle.std.specs.Prelude.{◌≡◌, ◌≢◌, ◌+◌, ◌<◌, ◌≤◌, length, Some, None, IfOk};
ghost use Rattle.std.specs.List.{AllByRecursion};
ghost use Rattle.spec_run.specs.Conditions.{IsEvent};
ghost use Rattle.bm_world.specs.Playing.{most_records, setup_in};
ghost use Rattle.bm_world.specs.declared.halt.Halt.TheVariants.{Memory};
ghost use Rattle.tool_replies.specs.Going.{Steps, Plays};

use bm_hash::Hash32;
use bm_world::{Halt, World};
use spec_data::OutOfMemory;
use spec_run::Event;
use std::alloc::AllocError;

// What halts an event, but as memory ran out.
fn stop_of(halt: Halt) -> Result<Option<Halt>, OutOfMemory>
    ensures stop { IfOk result (λ stop. stop ≡ Some halt) }
    ensures memory { IfOk result (λ _. halt ≢ Memory) }
{
    match halt {
        Halt::Memory => Err(AllocError),
        _ => Ok(Some(halt)),
    }
}

// One event, and what it is halted by.
fn play_event<H: Hash32 + Drop>(
    world: &mut World<H>,
    event: &Event,
) -> Result<Option<Halt>, OutOfMemory>
    requires is { IsEvent (setup_in H.digest_of world.old) event.now }
    requires going { world.old.halt ≡ None }
    requires few { length world.old.trace < most_records }
    ensures { IfOk result (Steps H.digest_of world.old world.new event.now) }
{
    match world.event(event) {
        Ok(_) => Ok(None),
        Err(halt) => stop_of(halt),
    }
}

/// Plays the events in order, up to the first that is halted: its number, counted from 0, and by what.
pub(crate) fn play_events<H: Hash32 + Drop>(
    world: &mut World<H>,
    events: &[Event],
) -> Result<Option<(usize, Halt)>, OutOfMemory>
    requires events { AllByRecursion (IsEvent (setup_in H.digest_of world.old)) events.now }
    requires going { world.old.halt ≡ None }
    requires few { length world.old.trace + length events.now ≤ most_records }
    ensures { IfOk result (Plays H.digest_of world.old world.new events.now) }
{
    for (number, event) in events.iter().enumerate() {
        if let Some(halt) = play_event(world, event)? {
            return Ok(Some((number, halt)));
        }
    }
    Ok(None)
}
