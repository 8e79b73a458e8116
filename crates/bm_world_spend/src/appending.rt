//! Raw transactions that are handed to the ledger.

ghost use Rattle.std.specs.Prelude.{◌≡◌, ◌<◌, ◌≤◌, ◌+◌, ◌^◌, length, None, IfOk, IfErr};
ghost use Rattle.bm_hash.specs.Messages.{evidence_of};
ghost use Rattle.bm_hash.specs.Trails.{StopsAlong};
ghost use Rattle.spec_data.specs.Ranges.{most_contracts};
ghost use Rattle.spec_bitcoin.specs.Reading.{transaction_of};
ghost use Rattle.spec_run.specs.Conditions.{IsPiece};
ghost use Rattle.spec_run.specs.Event.{append_read};
ghost use Rattle.bm_match.specs.Matches.{all_compiled};
ghost use Rattle.bm_world_board.specs.Playable.{IsPlayable};
ghost use Rattle.bm_world_board.specs.Prepares.{setup_of, world_of, Prepares};
ghost use Rattle.bm_world_board.specs.Reaching.{IsFresh, reaches_in};
ghost use Rattle.bm_world_spend.specs.Placed.{IsPlaced};

use crate::purposes::purpose;
use bm_hash::{Hash32, Trail, TrailError};
use bm_tx::{TxError, decode};
use bm_world_board::{Board, PendingChange, reach};
use spec_bitcoin::Tx;
use spec_run::Reason;
use std::alloc::Global;

/// The pending effect of a transaction that reaches the ledger, where its event signs nothing.
#[tactic(auto, using(bm_hash::proofs::HashesLemmas::stops_early))]
pub(crate) fn pending_reaching<H: Hash32 + Drop>(
    alloc: Global,
    trail: &mut Trail<H>,
    board: &Board,
    tx: Tx,
) -> Result<PendingChange, TrailError>
    requires inputs { length tx.inputs < 2 ^ 32 }
    requires room { length board.now.coins.outputs + length tx.outputs < 2 ^ 32 }
    requires clear { evidence_of (H.digest_of trail.old.hasher) trail.old.messages ≡ None }
    requires contracts { length board.now.contracts ≤ most_contracts }
    requires compiled { board.now.compiled ≡ all_compiled (setup_of (H.digest_of trail.old.hasher) board.now) (world_of board.now trail.old.messages) }
    requires placed { IsPlaced (setup_of (H.digest_of trail.old.hasher) board.now) (world_of board.now trail.old.messages) }
    requires fresh { IsFresh (setup_of (H.digest_of trail.old.hasher) board.now) (world_of board.now trail.old.messages) tx }
    ensures hasher { trail.new.hasher ≡ trail.old.hasher }
    ensures ok { IfOk result (Prepares (H.digest_of trail.old.hasher) (world_of board.now trail.old.messages) trail.old.messages trail.new.messages (reaches_in (setup_of (H.digest_of trail.old.hasher) board.now) (world_of board.now trail.old.messages) tx)) }
    ensures err { IfErr result (StopsAlong H.digest_of trail.old trail.new ((reaches_in (setup_of (H.digest_of trail.old.hasher) board.now) (world_of board.now trail.old.messages) tx).hashes)) }
{
    let purpose = purpose(alloc, board, &tx)?;
    let pending_change = reach(alloc, trail, board, tx, purpose)?;
    Ok(pending_change)
}

/// The pending effect of `append`.
pub fn pending_append<H: Hash32 + Drop>(
    alloc: Global,
    trail: &mut Trail<H>,
    board: &Board,
    bytes: &[u8],
) -> Result<PendingChange, TrailError>
    requires playable { IsPlayable (setup_of (H.digest_of trail.old.hasher) board.now) board.now trail.old.messages }
    requires piece { IsPiece bytes.now }
    ensures hasher { trail.new.hasher ≡ trail.old.hasher }
    ensures ok { IfOk result (Prepares (H.digest_of trail.old.hasher) (world_of board.now trail.old.messages) trail.old.messages trail.new.messages (append_read (setup_of (H.digest_of trail.old.hasher) board.now) (world_of board.now trail.old.messages) (transaction_of bytes.now))) }
    ensures err { IfErr result (StopsAlong H.digest_of trail.old trail.new ((append_read (setup_of (H.digest_of trail.old.hasher) board.now) (world_of board.now trail.old.messages) (transaction_of bytes.now)).hashes)) }
{
    match decode(alloc, bytes) {
        Ok(tx) => {
            let pending_change = pending_reaching(alloc, trail, board, tx)?;
            Ok(pending_change)
        }
        Err(TxError::BadTx(place)) => Ok(PendingChange::refused(alloc, Reason::BadTx(place))),
        Err(TxError::Memory) => Err(TrailError::Memory),
    }
}
