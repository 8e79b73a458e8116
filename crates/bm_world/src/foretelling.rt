//! What an event would come to, without playing it.

ghost use Rattle.std.specs.Prelude.{◌≡◌, IfOk, IfErr};
ghost use Rattle.spec_run.specs.Conditions.{IsEvent};
ghost use Rattle.bm_world_board.specs.Playable.{IsPlayable};
ghost use Rattle.bm_world_board.specs.Prepares.{setup_of, world_of, Signs};
ghost use Rattle.bm_hash.specs.Trails.{StopsAlong};
ghost use Rattle.spec_run.specs.Event as run;
ghost use Rattle.bm_world.specs.Foreseeing.{Foretells};

use crate::preparing::pending;
use bm_hash::{Hash32, Trail, TrailError};
use bm_world_apply::first_guessed;
use bm_world_board::Board;
use spec_run::{Event, Outcome};
use std::alloc::Global;

// What an event would come to, none where it would guess a secret. The pairs that it would sign are still in the book.
fn try_outcome<H: Hash32 + Drop>(
    alloc: Global,
    trail: &mut Trail<H>,
    board: &mut Board,
    event: &Event,
) -> Result<Option<Outcome>, TrailError>
    requires playable { IsPlayable (setup_of (H.digest_of trail.old.hasher) board.old) board.old trail.old.messages }
    requires is { IsEvent (setup_of (H.digest_of trail.old.hasher) board.old) event.now }
    ensures hasher { trail.new.hasher ≡ trail.old.hasher }
    ensures signs { Signs board.old board.new }
    ensures foretells { IfOk result (Foretells (setup_of (H.digest_of trail.old.hasher) board.old) (world_of board.old trail.old.messages)
        trail.new.messages event.now) }
    ensures stops { IfErr result (StopsAlong H.digest_of trail.old trail.new
        ((run.pending (setup_of (H.digest_of trail.old.hasher) board.old) (world_of board.old trail.old.messages) event.now).hashes)) }
{
    let answer = pending(alloc, trail, board, event)?;
    let guessed = first_guessed(
        alloc,
        board.header.secrets.as_slice(),
        &board.known,
        &mut board.exchange,
        answer.0.value().posts.as_slice(),
        &answer.0.value().allowed,
    )?;
    match guessed {
        Some(_) => Ok(None),
        None => Ok(Some(answer.0.into_value().into_outcome())),
    }
}

/// What an event would come to, none where it would guess a secret. Only the trail is changed.
pub(crate) fn foretell<H: Hash32 + Drop>(
    alloc: Global,
    trail: &mut Trail<H>,
    board: &mut Board,
    event: &Event,
) -> Result<Option<Outcome>, TrailError>
    requires playable { IsPlayable (setup_of (H.digest_of trail.old.hasher) board.old) board.old trail.old.messages }
    requires is { IsEvent (setup_of (H.digest_of trail.old.hasher) board.old) event.now }
    ensures hasher { trail.new.hasher ≡ trail.old.hasher }
    ensures board { board.new ≡ board.old }
    ensures foretells { IfOk result (Foretells (setup_of (H.digest_of trail.old.hasher) board.old) (world_of board.old trail.old.messages)
        trail.new.messages event.now) }
    ensures stops { IfErr result (StopsAlong H.digest_of trail.old trail.new
        ((run.pending (setup_of (H.digest_of trail.old.hasher) board.old) (world_of board.old trail.old.messages) event.now).hashes)) }
{
    let signed = board.book.count();
    let answer = try_outcome(alloc, trail, board, event);
    board.book.cut(signed);
    answer
}
