//! Endorsements: what a party signs of all that a contract needs before it begins.

ghost use Rattle.std.specs.Prelude.{◌≡◌, IfOk};
ghost use Rattle.spec_run.specs.Signing as spec;
ghost use Rattle.bm_world_board.specs.Playable.{IsPlayable};
ghost use Rattle.bm_world_board.specs.Prepares.{setup_of, world_of, Prepares, Signs};
ghost use Rattle.bm_world_sign.specs.Instances.{AllCompiled, instance_on};

use crate::booking::pending_pairs;
use crate::known::{compiled_contract, refusal};
use bm_hash::{Hash32, Trail};
use bm_honest::{Pair, endorsing_pairs};
use bm_world_board::{Board, PendingChange};
use spec_data::{Name, OutOfMemory};
use std::alloc::Global;

// What the party signs to endorse the contract, nothing where that isn't compiled.
fn pairs_to_endorse<H: Hash32 + Drop>(
    alloc: Global,
    trail: &Trail<H>,
    board: &Board,
    contract: u32,
    party: &Name,
) -> Result<Vec<Pair>, OutOfMemory>
    requires { AllCompiled (H.digest_of trail.now.hasher) board.now trail.now.messages }
    ensures { let hash = H.digest_of trail.now.hasher in
        IfOk result (λ pairs. pairs.items
        ≡ spec.endorsing_pairs (setup_of hash board.now) party.now (instance_on hash board.now trail.now.messages contract)) }
{
    let Some((checked, compiled)) = compiled_contract(board, contract) else {
        return Ok(Vec::new(alloc));
    };
    let pairs = endorsing_pairs(alloc, trail.hasher(), checked, contract, compiled, party)?;
    Ok(pairs)
}

/// The pending effect of `endorse`, whose pairs are then in the book; it hashes nothing.
pub fn pending_endorse<H: Hash32 + Drop>(
    alloc: Global,
    trail: &Trail<H>,
    board: &mut Board,
    contract: u32,
    party: &Name,
) -> Result<PendingChange, OutOfMemory>
    requires playable { IsPlayable (setup_of (H.digest_of trail.now.hasher) board.old) board.old trail.now.messages }
    ensures board { Signs board.old board.new }
    ensures ok { let hash = H.digest_of trail.now.hasher in
        let messages = trail.now.messages in
        IfOk result (Prepares hash (world_of board.new messages) messages messages
        (spec.endorse_pending (setup_of hash board.old) (world_of board.old messages) contract party.now)) }
{
    if let Some(reason) = refusal(board, contract, party) {
        return Ok(PendingChange::refused(alloc, reason));
    }
    let pairs = pairs_to_endorse(alloc, trail, board, contract, party)?;
    let pending_change = pending_pairs(alloc, board, &pairs)?;
    Ok(pending_change)
}
