//! Blocks that come within the limit of time: nothing is prepared of them, since they ask for no memory but that of their record.

ghost use Rattle.std.specs.Prelude.{◌≡◌, ℕ, ◌+◌, ◌<◌, ◌≤◌, ◌∷◌, ◌++◌, [], None, IfOk, IfErr, IfNone, IfSome, OnOk, OnErr};
ghost use Rattle.spec_data.specs.Ranges.{last_height};
ghost use Rattle.spec_run.specs.declared.event.Event.TheVariants as events;
ghost use Rattle.spec_run.specs.declared.outcome.Outcome.TheVariants as outcomes;
ghost use Rattle.bm_world_board.specs.Playable.{IsPlayable};
ghost use Rattle.bm_world_board.specs.Prepares.{setup_of, world_of};
ghost use Rattle.bm_world.specs.Playing.{SameBoard, GoesOn, Halts};

use crate::halt::Halt;
use bm_hash::{Hash32, Trail};
use bm_world_board::Board;
use spec_data::{LAST_HEIGHT, OutOfMemory, Seq};
use spec_run::{Event, Outcome, Record};

/// How many blocks come, where the event is that, and their time is within its limit.
pub(crate) fn passing(board: &Board, event: &Event) -> Option<u32>
    ensures event { IfSome result (λ blocks. event.now ≡ events.Mine blocks) }
    ensures few { IfSome result (λ blocks. board.now.coins.tip + blocks ≤ last_height) }
    ensures none { IfNone result ((blocks : ℕ) → event.now ≡ events.Mine blocks → last_height < board.now.coins.tip + blocks) }
{
    if let Event::Mine { blocks } = event {
        if board.coins.tip() as u64 + *blocks as u64 <= LAST_HEIGHT as u64 {
            return Some(*blocks);
        }
    }
    None
}

// Records so many blocks, and lets them come. After an error nothing has changed.
fn record_blocks(board: &mut Board, trace: &mut Seq<Record>, blocks: u32) -> Result<(), OutOfMemory>
    requires few { board.old.coins.tip + blocks ≤ last_height }
    ensures board { OnOk result (board.new ≡ record board.old { coins = record board.old.coins { tip = board.old.coins.tip + blocks } }) }
    ensures trace { OnOk result (trace.new ≡ trace.old ++ record { event = events.Mine blocks; outcome = outcomes.Done; tx = None } ∷ []) }
    ensures same { OnErr result (board.new ≡ board.old) }
    ensures records { OnErr result (trace.new ≡ trace.old) }
{
    trace.push(Record {
        event: Event::Mine { blocks },
        outcome: Outcome::Done,
        tx: None,
    })?;
    board.coins.mine(blocks);
    Ok(())
}

/// The blocks of an event that come within the limit of time. After a halt, which is as memory ran out, nothing has changed.
pub(crate) fn pass_blocks<H: Hash32 + Drop>(
    trail: &Trail<H>,
    board: &mut Board,
    trace: &mut Seq<Record>,
    event: &Event,
    blocks: u32,
) -> Result<Outcome, Halt>
    requires playable { IsPlayable (setup_of (H.digest_of trail.now.hasher) board.old) board.old trail.now.messages }
    requires event { event.now ≡ events.Mine blocks }
    requires few { board.old.coins.tip + blocks ≤ last_height }
    ensures same { SameBoard board.old board.new }
    ensures goes { IfOk result (GoesOn (setup_of (H.digest_of trail.now.hasher) board.old) (world_of board.old trail.now.messages)
        board.new trail.now.messages trace.old trace.new event.now) }
    ensures halts { IfErr result (Halts (setup_of (H.digest_of trail.now.hasher) board.old) (world_of board.old trail.now.messages)
        trail.now.messages event.now) }
    ensures board { OnErr result (board.new ≡ board.old) }
    ensures records { OnErr result (trace.new ≡ trace.old) }
{
    match record_blocks(board, trace, blocks) {
        Ok(()) => Ok(Outcome::Done),
        Err(_) => Err(Halt::Memory),
    }
}
