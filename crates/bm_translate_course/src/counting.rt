//! The steps of a run are counted.

ghost use Rattle.std.specs.Prelude.{◌≡◌, ◌+◌, ◌<◌, ◌^◌, length, IfOk};
ghost use Rattle.spec_run.specs.Translation as run;
ghost use Rattle.spec_text.specs.PlanText.{step_count};
ghost use Rattle.bm_world.specs.Playing.{setup_in};
ghost use Rattle.bm_world_board.specs.Prepares.{setup_of};
ghost use Rattle.bm_translate_course.specs.Courses.{IsPlayed, events_of, started};

use crate::walking::{pass, start};
use bm_calculus::Config;
use bm_hash::{Hash32, Trail};
use bm_translate::Running;
use bm_world::World;
use bm_world_board::Board;
use spec_data::OutOfMemory;
use spec_run::Record;
use std::alloc::{AllocError, Global};

/// How many steps the events of a run stand for, and the last configuration.
#[derive(Drop)]
pub struct Counted {
    pub steps: u64,
    pub last: Config,
}

// A count with more. Counts of more than 64 bits, which no run has, count as out of memory.
fn with_more(count: u64, more: usize) -> Result<u64, OutOfMemory>
    ensures { IfOk result (λ n. n ≡ count + more) }
{
    count.checked_add(more as u64).ok_or(AllocError)
}

// How many steps there are of all events. They are taken from the opening on, and those of an event are dropped before the next.
fn count_all<H: Hash32 + Drop>(
    alloc: Global,
    trail: &Trail<H>,
    board: &Board,
    running: &mut Running,
    trace: &[Record],
) -> Result<u64, OutOfMemory>
    requires few { length board.now.compiled < 2 ^ 32 }
    requires run { IsPlayed (setup_of (H.digest_of trail.now.hasher) board.now) board.now trail.now.messages trace.now }
    requires room { length board.now.coins.outputs < 2 ^ 32 }
    requires start { running.old ≡ started (setup_of (H.digest_of trail.now.hasher) board.now) board.now trail.now.messages }
    ensures steps { IfOk result (λ n. n
        ≡ step_count (run.translated (setup_of (H.digest_of trail.now.hasher) board.now) (events_of trace.now))) }
    ensures last { IfOk result (λ _. running.new.config
        ≡ run.last_configuration (setup_of (H.digest_of trail.now.hasher) board.now) (events_of trace.now)) }
{
    let mut count = 0u64;
    let mut room = Vec::new(alloc);
    for recorded in trace {
        let mut made = pass(alloc, room, trail, board, running, recorded)?;
        count = with_more(count, made.len())?;
        made.clear();
        room = made;
    }
    Ok(count)
}

// The steps of the run that left this board, this trail and this trace.
fn count_run<H: Hash32 + Drop>(
    alloc: Global,
    trail: &Trail<H>,
    board: &Board,
    trace: &[Record],
) -> Result<Counted, OutOfMemory>
    requires run { IsPlayed (setup_of (H.digest_of trail.now.hasher) board.now) board.now trail.now.messages trace.now }
    ensures steps { IfOk result (λ c. c.steps
        ≡ step_count (run.translated (setup_of (H.digest_of trail.now.hasher) board.now) (events_of trace.now))) }
    ensures last { IfOk result (λ c. c.last
        ≡ run.last_configuration (setup_of (H.digest_of trail.now.hasher) board.now) (events_of trace.now)) }
{
    let _births = board.coins.ledger().births();
    let mut running = start(alloc, trail, board)?;
    let steps = count_all(alloc, trail, board, &mut running, trace)?;
    Ok(Counted {
        steps,
        last: running.config,
    })
}

/// How many steps the run that led to a world has in the calculus of BitML, and its last configuration: as by `translate`, for who
/// needs no list of the steps. They are never all there at once.
pub fn count_steps<H: Hash32 + Drop>(
    alloc: Global,
    world: &World<H>,
) -> Result<Counted, OutOfMemory>
    ensures steps { IfOk result (λ c. c.steps
        ≡ step_count (run.translated (setup_in H.digest_of world.now) (events_of world.now.trace))) }
    ensures last { IfOk result (λ c. c.last ≡ run.last_configuration (setup_in H.digest_of world.now) (events_of world.now.trace)) }
{
    let made = count_run(alloc, world.trail(), world.board(), world.trace())?;
    Ok(made)
}
