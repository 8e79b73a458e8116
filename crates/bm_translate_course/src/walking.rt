//! A run is walked, event by event.

ghost use Rattle.std.specs.Prelude.{◌≡◌, ◌<◌, ◌^◌, [], length, IfOk};
ghost use Rattle.spec_calculus.specs.Steps as calculus;
ghost use Rattle.spec_run.specs.Conditions.{IsHeader};
ghost use Rattle.spec_run.specs.Statements.{Simulates, HoldsThroughout, licensed};
ghost use Rattle.spec_run.specs.Translation as run;
ghost use Rattle.spec_run.specs.Steps.{outcome_steps};
ghost use Rattle.spec_run.specs.World.{World};
ghost use Rattle.bm_world_board.specs.Prepares.{setup_of};
ghost use Rattle.bm_translate.specs.Moments.{IsTurn};
ghost use Rattle.bm_translate.specs.Shown.{posts_of};
ghost use Rattle.bm_translate_course.specs.Courses.{IsPlayed, IsNext, events_of, started, passed_by};

use crate::passing::{blocks_of, pass_blocks};
use crate::taking::take_steps;
use bm_calculus::Config;
use bm_hash::{Hash32, Trail};
use bm_rows::Rows;
use bm_translate::{Running, Secrets, event_steps, posted_by};
use bm_wellformed::Checked;
use bm_world_board::Board;
use spec_calculus::Step;
use spec_data::{OutOfMemory, Seq};
use spec_run::{Header, Record};
use std::alloc::Global;
use theory_run::{licence_theorem, simulation_theorem};

/// A run in the calculus: the steps of each event of the trace, and the last configuration.
#[derive(Drop)]
pub struct Translation {
    pub steps: Rows<Step>,
    pub last: Config,
}

// The configuration before any event.
fn opening(alloc: Global, header: &Header, contracts: &[Checked]) -> Result<Config, OutOfMemory>
    requires header { IsHeader header.now }
    ensures { IfOk result (λ g. g ≡ calculus.opening header.now.parties header.now.honest header.now.deposits contracts.now) }
{
    Config::opening(
        alloc,
        header.parties.as_slice(),
        header.honest.as_slice(),
        header.deposits.as_slice(),
        contracts,
    )
}

/// What is known before any event.
pub(crate) fn start<H: Hash32 + Drop>(
    alloc: Global,
    trail: &Trail<H>,
    board: &Board,
) -> Result<Running, OutOfMemory>
    requires header { IsHeader board.now.header }
    requires few { length board.now.contracts < 2 ^ 32 }
    ensures { IfOk result (λ r. r ≡ started (setup_of (H.digest_of trail.now.hasher) board.now) board.now trail.now.messages) }
{
    let contracts = board.contracts.as_slice();
    let config = opening(alloc, &board.header, contracts)?;
    let secrets = Secrets::of_run(alloc, trail, &board.exchange, contracts)?;
    Ok(Running {
        config,
        inits: Seq::new(alloc),
        asked: Seq::new(alloc),
        secrets,
    })
}

// The steps of an event that is more than blocks that come. It stands apart, so that the room that it needs isn't blanked where only time
// passes.
#[inline(never)]
fn pass_event<H: Hash32 + Drop>(
    alloc: Global,
    room: Vec<Step>,
    trail: &Trail<H>,
    board: &Board,
    running: &mut Running,
    recorded: &Record,
) -> Result<Vec<Step>, OutOfMemory>
    requires few { length board.now.compiled < 2 ^ 32 }
    requires room { room.items ≡ [] }
    requires is { IsNext (setup_of (H.digest_of trail.now.hasher) board.now) board.now trail.now.messages running.old recorded.now }
    ensures { IfOk result (λ made. (f w next : World)
        → IsTurn (setup_of (H.digest_of trail.now.hasher) board.now) board.now trail.now.messages f w next running.old recorded.now
        → (made.items ≡ outcome_steps (setup_of (H.digest_of trail.now.hasher) board.now) f.posted running.old.config w next
        recorded.now.event recorded.now.tx recorded.now.outcome)
        × (running.new ≡ passed_by running.old made.items (posts_of board.now.header.secrets recorded.now))) }
{
    let shown = posted_by(
        alloc,
        &running.secrets,
        board.header.secrets.as_slice(),
        recorded,
    )?;
    let made = event_steps(alloc, room, trail, board, running, &shown, recorded)?;
    take_steps(running, &made)?;
    running.secrets.note(&shown);
    Ok(made)
}

/// The steps of an event, which are taken. A step that stands alone comes into the room of an empty list.
pub(crate) fn pass<H: Hash32 + Drop>(
    alloc: Global,
    room: Vec<Step>,
    trail: &Trail<H>,
    board: &Board,
    running: &mut Running,
    recorded: &Record,
) -> Result<Vec<Step>, OutOfMemory>
    requires few { length board.now.compiled < 2 ^ 32 }
    requires room { room.items ≡ [] }
    requires is { IsNext (setup_of (H.digest_of trail.now.hasher) board.now) board.now trail.now.messages running.old recorded.now }
    ensures { IfOk result (λ made. (f w next : World)
        → IsTurn (setup_of (H.digest_of trail.now.hasher) board.now) board.now trail.now.messages f w next running.old recorded.now
        → (made.items ≡ outcome_steps (setup_of (H.digest_of trail.now.hasher) board.now) f.posted running.old.config w next
        recorded.now.event recorded.now.tx recorded.now.outcome)
        × (running.new ≡ passed_by running.old made.items (posts_of board.now.header.secrets recorded.now))) }
{
    if let Some(blocks) = blocks_of(recorded) {
        let made = pass_blocks(room, running, blocks)?;
        return Ok(made);
    }
    pass_event(alloc, room, trail, board, running, recorded)
}

// The steps of all events, which are taken from the opening on.
fn walk<H: Hash32 + Drop>(
    alloc: Global,
    trail: &Trail<H>,
    board: &Board,
    running: &mut Running,
    trace: &[Record],
) -> Result<Rows<Step>, OutOfMemory>
    requires few { length board.now.compiled < 2 ^ 32 }
    requires run { IsPlayed (setup_of (H.digest_of trail.now.hasher) board.now) board.now trail.now.messages trace.now }
    requires room { length board.now.coins.outputs < 2 ^ 32 }
    requires start { running.old ≡ started (setup_of (H.digest_of trail.now.hasher) board.now) board.now trail.now.messages }
    ensures steps { IfOk result (λ made. made ≡ run.translated (setup_of (H.digest_of trail.now.hasher) board.now) (events_of trace.now)) }
    ensures last { IfOk result (λ _. running.new.config
        ≡ run.last_configuration (setup_of (H.digest_of trail.now.hasher) board.now) (events_of trace.now)) }
{
    let mut all = Rows::with_capacity(alloc, trace.len())?;
    let mut room = Vec::new(alloc);
    for recorded in trace {
        let mut made = pass(alloc, room, trail, board, running, recorded)?;
        all.push(&mut made)?;
        room = made;
    }
    Ok(all)
}

/// A run in the calculus, by the board, the trail and the trace that it left.
pub fn translate_run<H: Hash32 + Drop>(
    alloc: Global,
    trail: &Trail<H>,
    board: &Board,
    trace: &[Record],
) -> Result<Translation, OutOfMemory>
    requires run { IsPlayed (setup_of (H.digest_of trail.now.hasher) board.now) board.now trail.now.messages trace.now }
    ensures steps { IfOk result (λ t. t.steps ≡ run.translated (setup_of (H.digest_of trail.now.hasher) board.now) (events_of trace.now)) }
    ensures last { IfOk result (λ t. t.last
        ≡ run.last_configuration (setup_of (H.digest_of trail.now.hasher) board.now) (events_of trace.now)) }
    ensures simulated { Simulates (setup_of (H.digest_of trail.now.hasher) board.now) (events_of trace.now) }
    ensures licensed { HoldsThroughout (setup_of (H.digest_of trail.now.hasher) board.now)
        (licensed (setup_of (H.digest_of trail.now.hasher) board.now)) (events_of trace.now) }
{
    simulation_theorem();
    licence_theorem();
    let _births = board.coins.ledger().births();
    let mut running = start(alloc, trail, board)?;
    let steps = walk(alloc, trail, board, &mut running, trace)?;
    Ok(Translation {
        steps,
        last: running.config,
    })
}
