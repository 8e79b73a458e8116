//! The pending effects of events that hand a transaction to the ledger, in a world that a run led to. Each is made in a function of its own and
//! stands in a box.

ghost use Rattle.std.specs.Prelude.{◌≡◌, IfOk, IfErr};
ghost use Rattle.bm_hash.specs.Trails.{StopsAlong};
ghost use Rattle.spec_run.specs.Conditions.{IsPiece, IsGift};
ghost use Rattle.spec_run.specs.Event as run;
ghost use Rattle.spec_run.specs.declared.event.Event.TheVariants as events;
ghost use Rattle.bm_world_board.specs.Playable.{IsPlayable};
ghost use Rattle.bm_world_board.specs.Prepares.{setup_of, world_of, Prepares, Signs};

use bm_hash::{Hash32, Trail, TrailError};
use bm_world_board::{Board, PendingChange};
use bm_world_fire::{pending_fire, pending_fire_init};
use bm_world_spend::{pending_append, pending_give};
use spec_data::{Boxed, Name};
use std::alloc::Global;

/// The pending effect of a transaction that is handed over as it is.
#[tactic(auto, using(bm_hash::proofs::HashesLemmas::stops_early))]
pub(crate) fn pending_appended<H: Hash32 + Drop>(
    alloc: Global,
    trail: &mut Trail<H>,
    board: &Board,
    bytes: &[u8],
) -> Result<Boxed<PendingChange>, TrailError>
    requires playable { IsPlayable (setup_of (H.digest_of trail.old.hasher) board.now) board.now trail.old.messages }
    requires piece { IsPiece bytes.now }
    ensures hasher { trail.new.hasher ≡ trail.old.hasher }
    ensures ok { let s = setup_of (H.digest_of trail.old.hasher) board.now in let w = world_of board.now trail.old.messages in
        IfOk result (Prepares s.hash w trail.old.messages trail.new.messages (run.pending s w (events.Append bytes.now))) }
    ensures err { let s = setup_of (H.digest_of trail.old.hasher) board.now in let w = world_of board.now trail.old.messages in
        IfErr result (StopsAlong H.digest_of trail.old trail.new ((run.pending s w (events.Append bytes.now)).hashes)) }
{
    let pending_change = pending_append(alloc, trail, board, bytes)?;
    Ok(Boxed::new(alloc, pending_change)?)
}

/// The pending effect of a gift, whose pairs are then in the book.
#[tactic(auto, using(bm_hash::proofs::HashesLemmas::stops_early))]
pub(crate) fn pending_given<H: Hash32 + Drop>(
    alloc: Global,
    trail: &mut Trail<H>,
    board: &mut Board,
    party: &Name,
    inputs: &[u32],
    outputs: &[(Name, u64)],
) -> Result<Boxed<PendingChange>, TrailError>
    requires playable { IsPlayable (setup_of (H.digest_of trail.old.hasher) board.old) board.old trail.old.messages }
    requires gift { IsGift (setup_of (H.digest_of trail.old.hasher) board.old) party.now inputs.now outputs.now }
    ensures hasher { trail.new.hasher ≡ trail.old.hasher }
    ensures board { Signs board.old board.new }
    ensures ok { let s = setup_of (H.digest_of trail.old.hasher) board.old in let w = world_of board.old trail.old.messages in
        IfOk result (Prepares s.hash (world_of board.new trail.old.messages) trail.old.messages trail.new.messages
        (run.pending s w (events.Give party.now inputs.now outputs.now))) }
    ensures err { let s = setup_of (H.digest_of trail.old.hasher) board.old in let w = world_of board.old trail.old.messages in
        IfErr result (StopsAlong H.digest_of trail.old trail.new ((run.pending s w (events.Give party.now inputs.now outputs.now)).hashes)) }
{
    let pending_change = pending_give(alloc, trail, board, party, inputs, outputs)?;
    Ok(Boxed::new(alloc, pending_change)?)
}

/// The pending effect of the initial transaction of a contract.
#[tactic(auto, using(bm_hash::proofs::HashesLemmas::stops_early))]
pub(crate) fn pending_initial<H: Hash32 + Drop>(
    alloc: Global,
    trail: &mut Trail<H>,
    board: &Board,
    contract: u32,
) -> Result<Boxed<PendingChange>, TrailError>
    requires playable { IsPlayable (setup_of (H.digest_of trail.old.hasher) board.now) board.now trail.old.messages }
    ensures hasher { trail.new.hasher ≡ trail.old.hasher }
    ensures ok { let s = setup_of (H.digest_of trail.old.hasher) board.now in let w = world_of board.now trail.old.messages in
        IfOk result (Prepares s.hash w trail.old.messages trail.new.messages (run.pending s w (events.FireInit contract))) }
    ensures err { let s = setup_of (H.digest_of trail.old.hasher) board.now in let w = world_of board.now trail.old.messages in
        IfErr result (StopsAlong H.digest_of trail.old trail.new ((run.pending s w (events.FireInit contract)).hashes)) }
{
    let pending_change = pending_fire_init(alloc, trail, board, contract)?;
    Ok(Boxed::new(alloc, pending_change)?)
}

/// The pending effect of the transaction of a branch.
#[tactic(auto, using(bm_hash::proofs::HashesLemmas::stops_early))]
pub(crate) fn pending_taken<H: Hash32 + Drop>(
    alloc: Global,
    trail: &mut Trail<H>,
    board: &Board,
    output: u32,
    branch: u32,
) -> Result<Boxed<PendingChange>, TrailError>
    requires playable { IsPlayable (setup_of (H.digest_of trail.old.hasher) board.now) board.now trail.old.messages }
    ensures hasher { trail.new.hasher ≡ trail.old.hasher }
    ensures ok { let s = setup_of (H.digest_of trail.old.hasher) board.now in let w = world_of board.now trail.old.messages in
        IfOk result (Prepares s.hash w trail.old.messages trail.new.messages (run.pending s w (events.Fire output branch))) }
    ensures err { let s = setup_of (H.digest_of trail.old.hasher) board.now in let w = world_of board.now trail.old.messages in
        IfErr result (StopsAlong H.digest_of trail.old trail.new ((run.pending s w (events.Fire output branch)).hashes)) }
{
    let pending_change = pending_fire(alloc, trail, board, output, branch)?;
    Ok(Boxed::new(alloc, pending_change)?)
}
