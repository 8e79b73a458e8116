//! The pending effects of all events.

ghost use Rattle.std.specs.Prelude.{◌≡◌, IfOk, IfErr};
ghost use Rattle.bm_hash.specs.Trails.{StopsAlong};
ghost use Rattle.spec_run.specs.Conditions.{IsEvent};
ghost use Rattle.spec_run.specs.Event as run;
ghost use Rattle.bm_world_board.specs.Playable.{IsPlayable};
ghost use Rattle.bm_world_board.specs.Prepares.{setup_of, world_of, Prepares, Signs};
ghost use Rattle.bm_world.specs.Kinds.{IsNoCommit};
ghost use Rattle.bm_world.specs.Playing.{IsCompiledAfter};

use crate::handing::{pending_appended, pending_given, pending_initial, pending_taken};
use crate::telling::{
    pending_advertised, pending_allowed, pending_authorised, pending_committed, pending_endorsed,
    pending_mined, pending_posted, pending_revealed, pending_signed,
};
use bm_compile::Compiled;
use bm_hash::{Hash32, Trail, TrailError};
use bm_world_board::{Board, PendingChange};
use spec_data::Boxed;
use spec_run::Event;
use std::alloc::Global;

// The pending effect of an event that commits nothing, in a box, since few pending effects fill what the largest of them need. The pairs that it signs are then in the book.
#[tactic(auto, using(bm_hash::proofs::HashesLemmas::stops_early))]
fn pending_other<H: Hash32 + Drop>(
    alloc: Global,
    trail: &mut Trail<H>,
    board: &mut Board,
    event: &Event,
) -> Result<Boxed<PendingChange>, TrailError>
    requires playable { IsPlayable (setup_of (H.digest_of trail.old.hasher) board.old) board.old trail.old.messages }
    requires is { IsEvent (setup_of (H.digest_of trail.old.hasher) board.old) event.now }
    requires kind { IsNoCommit event.now }
    ensures hasher { trail.new.hasher ≡ trail.old.hasher }
    ensures board { Signs board.old board.new }
    ensures ok { IfOk result (Prepares (H.digest_of trail.old.hasher) (world_of board.new trail.old.messages) trail.old.messages
        trail.new.messages
        (run.pending (setup_of (H.digest_of trail.old.hasher) board.old) (world_of board.old trail.old.messages) event.now)) }
    ensures err { IfErr result (StopsAlong H.digest_of trail.old trail.new
        ((run.pending (setup_of (H.digest_of trail.old.hasher) board.old) (world_of board.old trail.old.messages) event.now).hashes)) }
{
    match event {
        Event::Commit { .. } => unreachable!(),
        Event::Advertise { contract, bindings } => {
            pending_advertised(alloc, trail, board, *contract, bindings.as_slice())
        }
        Event::Endorse { contract, party } => pending_endorsed(
            alloc, trail, board, *contract, party,
        ),
        Event::Init { contract, party } => pending_allowed(alloc, trail, board, *contract, party),
        Event::Authorise {
            party,
            output,
            branch,
        } => pending_authorised(alloc, trail, board, party, *output, *branch),
        Event::Reveal {
            contract,
            party,
            secret,
        } => pending_revealed(alloc, trail, board, *contract, party, secret),
        Event::Post { bytes } => pending_posted(alloc, trail, board, bytes.as_slice()),
        Event::Sign {
            party,
            label,
            digest,
        } => pending_signed(alloc, trail, board, party, label.value(), digest),
        Event::Give {
            party,
            inputs,
            outputs,
        } => {
            let inputs = inputs.as_slice();
            pending_given(
                alloc,
                trail,
                board,
                party,
                inputs,
                outputs.value().as_slice(),
            )
        }
        Event::Append { bytes } => pending_appended(alloc, trail, board, bytes.as_slice()),
        Event::FireInit { contract } => pending_initial(alloc, trail, board, *contract),
        Event::Fire { output, branch } => pending_taken(alloc, trail, board, *output, *branch),
        Event::Mine { blocks } => pending_mined(alloc, trail, board, *blocks),
    }
}

// Makes it fast to ask what was posted, before an event for which somebody asks: a reveal, a branch that is fired, and a commitment, of whose
// secrets the lengths are sought. In a long run most events are others.
fn make_ready(board: &mut Board, event: &Event)
    ensures { board.new ≡ board.old }
{
    match event {
        Event::Commit { .. } => board.exchange.index_posts(),
        Event::Reveal { .. } => board.exchange.index_posts(),
        Event::Fire { .. } => board.exchange.index_posts(),
        _ => {}
    }
}

/// The pending effect of an event, and the contract that it compiles, where it is the last commitment to it. The pairs that it signs are then
/// in the book; the compiled contract isn't yet placed on the board.
#[tactic(auto, using(bm_hash::proofs::HashesLemmas::stops_early))]
pub(crate) fn pending<H: Hash32 + Drop>(
    alloc: Global,
    trail: &mut Trail<H>,
    board: &mut Board,
    event: &Event,
) -> Result<(Boxed<PendingChange>, Option<(u32, Boxed<Compiled>)>), TrailError>
    requires playable { IsPlayable (setup_of (H.digest_of trail.old.hasher) board.old) board.old trail.old.messages }
    requires is { IsEvent (setup_of (H.digest_of trail.old.hasher) board.old) event.now }
    ensures hasher { trail.new.hasher ≡ trail.old.hasher }
    ensures board { Signs board.old board.new }
    ensures ok { IfOk result (λ p. Prepares (H.digest_of trail.old.hasher) (world_of board.new trail.old.messages) trail.old.messages
        trail.new.messages (run.pending (setup_of (H.digest_of trail.old.hasher) board.old) (world_of board.old trail.old.messages) event.now)
        p.0) }
    ensures compiled { IfOk result (λ p. IsCompiledAfter (setup_of (H.digest_of trail.old.hasher) board.old)
        (world_of board.old trail.old.messages) board.old.compiled event.now p.1) }
    ensures err { IfErr result (StopsAlong H.digest_of trail.old trail.new
        ((run.pending (setup_of (H.digest_of trail.old.hasher) board.old) (world_of board.old trail.old.messages) event.now).hashes)) }
{
    make_ready(board, event);
    match event {
        Event::Commit {
            contract,
            party,
            digests,
        } => pending_committed(alloc, trail, board, *contract, party, digests.as_slice()),
        _ => {
            let pending_change = pending_other(alloc, trail, board, event)?;
            Ok((pending_change, None))
        }
    }
}
