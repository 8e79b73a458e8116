//! A run at its end.

ghost use Rattle.std.specs.Prelude.{◌≤◌, List, length, IfOk, IfErr};
ghost use Rattle.spec_data.specs.Ranges.{most_contracts};
ghost use Rattle.spec_text.specs.Limits.{most_events};
ghost use Rattle.theory_text.specs.RunFiles.{IsReadRun};
ghost use Rattle.spec_tool.specs.Commands.{setup_of};
ghost use Rattle.spec_run.specs.Setup.{Setup};
ghost use Rattle.spec_run.specs.declared.event.Event.{Event as Happening};
ghost use Rattle.tool_replies.specs.Whole.{IsLeft};
ghost use Rattle.tool_replies.specs.Last.{IsWhole, IsHaltedBy};

use crate::played::play;
use bm_hash::Hash32;
use bm_wellformed::Checked;
use bm_world::{Halt, World};
use spec_run::Run;
use std::alloc::Global;
use std::mem::forget;

/// drops a world, or of its records and their steps. Their memory goes back with the process: a program writes its answer next and ends, and to give
/// back piece by piece what a long run holds would take a sixth of its time. Nothing else lets a world go, here or in the crates of
/// further replies.
pub fn leak<T: Drop>(held: T) {
    forget(held);
}

// The world that a run left, or what halted an event of it.
fn last_of<H: Hash32 + Drop>(world: World<H>, stop: Option<(usize, Halt)>) -> Result<World<H>, Halt>
    ensures whole { (s : Setup) (es : List Happening) → IsLeft H.digest_of s es world stop → IfOk result (IsWhole H.digest_of s es) }
    ensures halted { (s : Setup) (es : List Happening) → IsLeft H.digest_of s es world stop → IfErr result (IsHaltedBy s es) }
{
    match stop {
        None => Ok(world),
        Some((_, halt)) => {
            leak(world);
            Err(halt)
        }
    }
}

/// Plays a run with contracts to its end: the world that its events leave, or what halts it.
pub fn play_to_end<H: Hash32 + Drop>(
    alloc: Global,
    hash: H,
    run: &Run,
    contracts: Vec<Checked>,
) -> Result<World<H>, Halt>
    requires run { IsReadRun run.now }
    requires events { length run.now.events ≤ most_events }
    requires few { length contracts.items ≤ most_contracts }
    ensures whole { IfOk result (IsWhole H.digest_of (setup_of (H.digest_of hash) run.now contracts.items) run.now.events) }
    ensures halted { IfErr result (IsHaltedBy (setup_of (H.digest_of hash) run.now contracts.items) run.now.events) }
{
    match play(alloc, hash, run, contracts) {
        Ok((world, stop)) => last_of(world, stop),
        Err(halt) => Err(halt),
    }
}
