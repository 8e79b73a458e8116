//! Initial transactions and those of branches, handed to the ledger.

ghost use Rattle.std.specs.Prelude.{◌≡◌, Some, IfOk, IfErr};
ghost use Rattle.bm_hash.specs.Trails.{StopsAlong};
ghost use Rattle.spec_run.specs.Firing as spec;
ghost use Rattle.bm_world_board.specs.Playable.{IsPlayable};
ghost use Rattle.bm_world_board.specs.Prepares.{setup_of, world_of, Prepares};
ghost use Rattle.bm_world_fire.specs.Taken.{IsTaking, IsOpen};

use crate::initial::{initial_purpose, initial_transaction};
use crate::shown::first_unshown;
use crate::taking::{Taking, branch_purpose, taking_of};
use crate::witnesses::taking_transaction;
use bm_hash::{Hash32, Trail, TrailError};
use bm_syntax::reveals;
use bm_world_board::{Board, PendingChange, reach};
use spec_run::Reason;
use std::alloc::Global;

/// The pending effect of `fire init`.
#[tactic(auto, using(bm_hash::proofs::HashesLemmas::stops_early))]
pub fn pending_fire_init<H: Hash32 + Drop>(
    alloc: Global,
    trail: &mut Trail<H>,
    board: &Board,
    contract: u32,
) -> Result<PendingChange, TrailError>
    requires playable { IsPlayable (setup_of (H.digest_of trail.old.hasher) board.now) board.now trail.old.messages }
    ensures hasher { trail.new.hasher ≡ trail.old.hasher }
    ensures ok { let s = setup_of (H.digest_of trail.old.hasher) board.now in let w = world_of board.now trail.old.messages in
        IfOk result (Prepares s.hash w trail.old.messages trail.new.messages (spec.fire_init_pending s w contract)) }
    ensures err { let s = setup_of (H.digest_of trail.old.hasher) board.now in let w = world_of board.now trail.old.messages in
        IfErr result (StopsAlong H.digest_of trail.old trail.new ((spec.fire_init_pending s w contract).hashes)) }
{
    let Some(checked) = board.contract(contract) else {
        return Ok(PendingChange::refused(alloc, Reason::NoContract));
    };
    let Some(compiled) = board.compiled(contract) else {
        return Ok(PendingChange::refused(alloc, Reason::NotCompiled));
    };
    let tx = initial_transaction(alloc, trail.hasher(), checked, compiled)?;
    let purpose = initial_purpose(alloc, contract);
    let pending_change = reach(alloc, trail, board, tx, purpose)?;
    Ok(pending_change)
}

// The pending effect of a branch whose secrets are known.
#[tactic(auto, using(bm_hash::proofs::HashesLemmas::stops_early))]
fn pending_taking<H: Hash32 + Drop>(
    alloc: Global,
    trail: &mut Trail<H>,
    board: &Board,
    taking: &Taking,
) -> Result<PendingChange, TrailError>
    requires playable { IsPlayable (setup_of (H.digest_of trail.old.hasher) board.now) board.now trail.old.messages }
    requires taking { IsTaking board.now taking.now }
    requires opened { IsOpen (setup_of (H.digest_of trail.old.hasher) board.now) (world_of board.now trail.old.messages) taking.now }
    ensures hasher { trail.new.hasher ≡ trail.old.hasher }
    ensures ok { let s = setup_of (H.digest_of trail.old.hasher) board.now in let w = world_of board.now trail.old.messages in
        let made = spec.taking_of_position s w (Some taking.now.held.now) taking.now.number in
        IfOk result (Prepares s.hash w trail.old.messages trail.new.messages (spec.reaches_if s w made)) }
    ensures err { let s = setup_of (H.digest_of trail.old.hasher) board.now in let w = world_of board.now trail.old.messages in
        let made = spec.taking_of_position s w (Some taking.now.held.now) taking.now.number in
        IfErr result (StopsAlong H.digest_of trail.old trail.new ((spec.reaches_if s w made).hashes)) }
{
    let tx = taking_transaction(alloc, trail, board, taking)?;
    let purpose = branch_purpose(alloc, taking)?;
    let pending_change = reach(alloc, trail, board, tx, purpose)?;
    Ok(pending_change)
}

/// The pending effect of `fire`.
#[tactic(auto, using(bm_hash::proofs::HashesLemmas::stops_early))]
pub fn pending_fire<H: Hash32 + Drop>(
    alloc: Global,
    trail: &mut Trail<H>,
    board: &Board,
    output: u32,
    branch: u32,
) -> Result<PendingChange, TrailError>
    requires playable { IsPlayable (setup_of (H.digest_of trail.old.hasher) board.now) board.now trail.old.messages }
    ensures hasher { trail.new.hasher ≡ trail.old.hasher }
    ensures ok { let s = setup_of (H.digest_of trail.old.hasher) board.now in let w = world_of board.now trail.old.messages in
        IfOk result (Prepares s.hash w trail.old.messages trail.new.messages (spec.fire_pending s w output branch)) }
    ensures err { let s = setup_of (H.digest_of trail.old.hasher) board.now in let w = world_of board.now trail.old.messages in
        IfErr result (StopsAlong H.digest_of trail.old trail.new ((spec.fire_pending s w output branch).hashes)) }
{
    let Some(held) = board.coins.held_at(output) else {
        return Ok(PendingChange::refused(alloc, Reason::NotActive));
    };
    let Some(taken) = board.branch_held(held, branch) else {
        return Ok(PendingChange::refused(alloc, Reason::NoBranch));
    };
    let taking = taking_of(alloc, board, held, branch, taken)?;
    let secrets = reveals(taken);
    if let Some(name) = first_unshown(trail, board, taking.hashes.as_slice(), secrets) {
        return Ok(PendingChange::refused(alloc, Reason::SecretUnknown(name)));
    }
    let pending_change = pending_taking(alloc, trail, board, &taking)?;
    Ok(pending_change)
}
