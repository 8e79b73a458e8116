//! A run and its contracts are played.

ghost use Rattle.std.specs.Prelude.{◌≤◌, length, IfOk, IfErr};
ghost use Rattle.spec_data.specs.Ranges.{most_contracts};
ghost use Rattle.spec_run.specs.Conditions.{IsSetup};
ghost use Rattle.spec_text.specs.Limits.{most_events};
ghost use Rattle.theory_text.specs.RunFiles.{IsReadRun};
ghost use Rattle.spec_tool.specs.Commands.{setup_of};
ghost use Rattle.tool_replies.specs.Whole.{IsLeft};
ghost use Rattle.bm_world.specs.Starting.{Opens, Unopened};

use crate::events::play_events;
use bm_hash::Hash32;
use bm_wellformed::Checked;
use bm_world::{Halt, World};
use spec_data::OutOfMemory;
use spec_run::Run;
use std::alloc::Global;

// The events of a run from its opening on.
fn play_opened<H: Hash32 + Drop>(
    world: World<H>,
    run: &Run,
) -> Result<(World<H>, Option<(usize, Halt)>), OutOfMemory>
    requires setup { IsSetup (setup_of (H.digest_of world.hasher) run.now world.contracts) }
    requires run { IsReadRun run.now }
    requires events { length run.now.events ≤ most_events }
    requires opens { Opens H.digest_of world.hasher run.now.header world.contracts world }
    ensures { IfOk result (λ p. IsLeft H.digest_of (setup_of (H.digest_of world.hasher) run.now world.contracts) run.now.events p.0 p.1) }
{
    let mut world = world;
    world.make_room(run.events.len())?;
    let stop = play_events(&mut world, run.events.as_slice())?;
    Ok((world, stop))
}

/// Plays the events of a run with contracts, from its opening on up to the first that is halted: the world that they leave, and the
/// number of the event that was halted, counted from 0, with what halted it. A run that doesn't open is answered by what halts it.
pub fn play<H: Hash32 + Drop>(
    alloc: Global,
    hash: H,
    run: &Run,
    contracts: Vec<Checked>,
) -> Result<(World<H>, Option<(usize, Halt)>), Halt>
    requires run { IsReadRun run.now }
    requires events { length run.now.events ≤ most_events }
    requires few { length contracts.items ≤ most_contracts }
    ensures left { IfOk result (λ p. IsLeft H.digest_of (setup_of (H.digest_of hash) run.now contracts.items) run.now.events p.0 p.1) }
    ensures unopened { IfErr result (Unopened (setup_of (H.digest_of hash) run.now contracts.items)) }
{
    let world = World::start(alloc, &run.header, contracts, hash)?;
    let _board = world.board();
    match play_opened(world, run) {
        Ok(played) => Ok(played),
        Err(_) => Err(Halt::Memory),
    }
}
