//! One event.

ghost use Rattle.std.specs.Prelude.{◌≡◌, IfOk, IfErr, OnErr};
ghost use Rattle.spec_run.specs.Conditions.{IsEvent};
ghost use Rattle.spec_run.specs.Event as run;
ghost use Rattle.spec_run.specs.Values as values;
ghost use Rattle.bm_world_board.specs.Playable.{IsPlayable};
ghost use Rattle.bm_world_board.specs.Prepares.{setup_of, world_of, Prepares, Signs};
ghost use Rattle.bm_world.specs.Playing.{IsCompiledAfter, Passes, SameBoard, GoesOn, Tests, Halts};

use crate::evidence::trail_halt;
use crate::halt::Halt;
use crate::passing::{pass_blocks, passing};
use crate::placing::place;
use crate::preparing::pending;
use bm_compile::Compiled;
use bm_hash::{Hash32, Trail};
use bm_world_apply::{apply, first_guessed};
use bm_world_board::{Board, PendingChange};
use spec_data::{Boxed, Seq};
use spec_run::{Event, Outcome, Record};
use std::alloc::Global;

// The pending effect of an event, and the contract that it compiles, where it does. The pairs that it signs are then in the book.
fn pending_or_halt<H: Hash32 + Drop>(
    alloc: Global,
    trail: &mut Trail<H>,
    board: &mut Board,
    event: &Event,
) -> Result<(Boxed<PendingChange>, Option<(u32, Boxed<Compiled>)>), Halt>
    requires playable { IsPlayable (setup_of (H.digest_of trail.old.hasher) board.old) board.old trail.old.messages }
    requires is { IsEvent (setup_of (H.digest_of trail.old.hasher) board.old) event.now }
    ensures hasher { trail.new.hasher ≡ trail.old.hasher }
    ensures board { Signs board.old board.new }
    ensures ok { IfOk result (λ p. Prepares (H.digest_of trail.old.hasher) (world_of board.new trail.old.messages) trail.old.messages
        trail.new.messages (run.pending (setup_of (H.digest_of trail.old.hasher) board.old) (world_of board.old trail.old.messages) event.now)
        p.0) }
    ensures compiled { IfOk result (λ p. IsCompiledAfter (setup_of (H.digest_of trail.old.hasher) board.old)
        (world_of board.old trail.old.messages) board.old.compiled event.now p.1) }
    ensures halts { IfErr result (Halts (setup_of (H.digest_of trail.old.hasher) board.old) (world_of board.old trail.old.messages)
        trail.new.messages event.now) }
{
    match pending(alloc, trail, board, event) {
        Ok(answer) => Ok(answer),
        Err(error) => Err(trail_halt(alloc, trail, error)),
    }
}

// The pending effect of an event that goes on, and the contract that it compiles, where it does. Whether it goes on or halts, the pairs that
// it signs are then in the book.
fn pending_passing<H: Hash32 + Drop>(
    alloc: Global,
    trail: &mut Trail<H>,
    board: &mut Board,
    event: &Event,
) -> Result<(Boxed<PendingChange>, Option<(u32, Boxed<Compiled>)>), Halt>
    requires playable { IsPlayable (setup_of (H.digest_of trail.old.hasher) board.old) board.old trail.old.messages }
    requires is { IsEvent (setup_of (H.digest_of trail.old.hasher) board.old) event.now }
    ensures hasher { trail.new.hasher ≡ trail.old.hasher }
    ensures signs { Signs board.old board.new }
    ensures passes { IfOk result (λ p. Passes (setup_of (H.digest_of trail.old.hasher) board.old) (world_of board.old trail.old.messages)
        (world_of board.new trail.old.messages) trail.new.messages board.old.compiled event.now p.0 p.1) }
    ensures halts { IfErr result (Halts (setup_of (H.digest_of trail.old.hasher) board.old) (world_of board.old trail.old.messages)
        trail.new.messages event.now) }
{
    let answer = pending_or_halt(alloc, trail, board, event)?;
    let guessed = first_guessed(
        alloc,
        board.header.secrets.as_slice(),
        &board.known,
        &mut board.exchange,
        answer.0.value().posts.as_slice(),
        &answer.0.value().allowed,
    )?;
    if let Some(held) = guessed {
        return Err(Halt::Guessed {
            party: held.party,
            secret: held.name,
        });
    }
    Ok(answer)
}

// One event that is prepared. After a halt the pairs that it signed are still in the book. It stands apart, so that the room that it needs
// isn't blanked where only time passes.
#[inline(never)]
fn attempt<H: Hash32 + Drop>(
    alloc: Global,
    trail: &mut Trail<H>,
    board: &mut Board,
    trace: &mut Seq<Record>,
    event: &Event,
) -> Result<Outcome, Halt>
    requires playable { IsPlayable (setup_of (H.digest_of trail.old.hasher) board.old) board.old trail.old.messages }
    requires is { IsEvent (setup_of (H.digest_of trail.old.hasher) board.old) event.now }
    ensures hasher { trail.new.hasher ≡ trail.old.hasher }
    ensures same { SameBoard board.old board.new }
    ensures goes { IfOk result (GoesOn (setup_of (H.digest_of trail.old.hasher) board.old) (world_of board.old trail.old.messages)
        board.new trail.new.messages trace.old trace.new event.now) }
    ensures halts { IfErr result (Halts (setup_of (H.digest_of trail.old.hasher) board.old) (world_of board.old trail.old.messages)
        trail.new.messages event.now) }
    ensures signs { OnErr result (Signs board.old board.new) }
    ensures records { OnErr result (trace.new ≡ trace.old) }
{
    let answer = pending_passing(alloc, trail, board, event)?;
    let (pending_change, entry) = answer;
    let outcome = apply(alloc, board, trace, event, pending_change)?;
    place(alloc, &mut board.compiled, entry);
    Ok(outcome)
}

/// One event. After a halt only the trail is changed.
pub(crate) fn play<H: Hash32 + Drop>(
    alloc: Global,
    trail: &mut Trail<H>,
    board: &mut Board,
    trace: &mut Seq<Record>,
    event: &Event,
) -> Result<Outcome, Halt>
    requires playable { IsPlayable (setup_of (H.digest_of trail.old.hasher) board.old) board.old trail.old.messages }
    requires is { IsEvent (setup_of (H.digest_of trail.old.hasher) board.old) event.now }
    ensures hasher { trail.new.hasher ≡ trail.old.hasher }
    ensures same { SameBoard board.old board.new }
    ensures goes { IfOk result (GoesOn (setup_of (H.digest_of trail.old.hasher) board.old) (world_of board.old trail.old.messages)
        board.new trail.new.messages trace.old trace.new event.now) }
    ensures halts { IfErr result (Halts (setup_of (H.digest_of trail.old.hasher) board.old) (world_of board.old trail.old.messages)
        trail.new.messages event.now) }
    ensures board { OnErr result (board.new ≡ board.old) }
    ensures records { OnErr result (trace.new ≡ trace.old) }
{
    if let Some(blocks) = passing(board, event) {
        return pass_blocks(trail, board, trace, event, blocks);
    }
    let pairs = board.book.count();
    match attempt(alloc, trail, board, trace, event) {
        Ok(outcome) => Ok(outcome),
        Err(halt) => {
            board.book.cut(pairs);
            Err(halt)
        }
    }
}

// Whether an event was refused.
fn is_refused(outcome: &Outcome) -> bool
    ensures { result ≡ values.is_refused outcome.now }
{
    match outcome {
        Outcome::Refused(_) => true,
        Outcome::Accepted { .. } => false,
        Outcome::Done => false,
    }
}

// Whether an event would be done or accepted. The pairs that it would sign are still in the book.
fn try_event<H: Hash32 + Drop>(
    alloc: Global,
    trail: &mut Trail<H>,
    board: &mut Board,
    event: &Event,
) -> Result<bool, Halt>
    requires playable { IsPlayable (setup_of (H.digest_of trail.old.hasher) board.old) board.old trail.old.messages }
    requires is { IsEvent (setup_of (H.digest_of trail.old.hasher) board.old) event.now }
    ensures hasher { trail.new.hasher ≡ trail.old.hasher }
    ensures signs { Signs board.old board.new }
    ensures tests { IfOk result (Tests (setup_of (H.digest_of trail.old.hasher) board.old) (world_of board.old trail.old.messages)
        trail.new.messages event.now) }
    ensures halts { IfErr result (Halts (setup_of (H.digest_of trail.old.hasher) board.old) (world_of board.old trail.old.messages)
        trail.new.messages event.now) }
{
    let answer = pending_passing(alloc, trail, board, event)?;
    Ok(!is_refused(&answer.0.value().outcome))
}

/// Whether an event would be done or accepted. Only the trail is changed.
pub(crate) fn test<H: Hash32 + Drop>(
    alloc: Global,
    trail: &mut Trail<H>,
    board: &mut Board,
    event: &Event,
) -> Result<bool, Halt>
    requires playable { IsPlayable (setup_of (H.digest_of trail.old.hasher) board.old) board.old trail.old.messages }
    requires is { IsEvent (setup_of (H.digest_of trail.old.hasher) board.old) event.now }
    ensures hasher { trail.new.hasher ≡ trail.old.hasher }
    ensures board { board.new ≡ board.old }
    ensures tests { IfOk result (Tests (setup_of (H.digest_of trail.old.hasher) board.old) (world_of board.old trail.old.messages)
        trail.new.messages event.now) }
    ensures halts { IfErr result (Halts (setup_of (H.digest_of trail.old.hasher) board.old) (world_of board.old trail.old.messages)
        trail.new.messages event.now) }
{
    let signed = board.book.count();
    let answer = try_event(alloc, trail, board, event);
    board.book.cut(signed);
    answer
}
