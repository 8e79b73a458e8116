//! The transaction that opens a ledger.

ghost use Rattle.std.specs.Prelude.{◌≡◌, ◌<◌, ◌^◌, length, IfOk};
ghost use Rattle.bm_hash.specs.Trails.{Hashes};
ghost use Rattle.spec_bitcoin.specs.Digests as spec;
ghost use Rattle.spec_bitcoin.specs.Live.{born};

use crate::outputs::{Live, add_outputs};
use bm_hash::{Hash32, Trail, TrailError};
use bm_tx::txid;
use spec_bitcoin::tx::copy_outputs;
use spec_bitcoin::{Tx, TxOut};
use spec_data::{OutOfMemory, Seq};
use std::alloc::Global;

// The transaction that makes these outputs of nothing.
fn opening_tx(alloc: Global, outputs: &[TxOut]) -> Result<Tx, OutOfMemory>
    ensures { IfOk result (λ tx. tx ≡ spec.opening_transaction outputs.now) }
{
    Ok(Tx {
        version: 2,
        inputs: Seq::new(alloc),
        outputs: copy_outputs(alloc, outputs)?,
        lock: 0,
    })
}

/// The txid of the transaction that makes these outputs of nothing. It hashes the transaction, and its hash.
#[tactic(auto, using(bm_hash::proofs::HashesLemmas::stopping))]
pub(crate) fn opening_txid<H: Hash32 + Drop>(
    alloc: Global,
    trail: &mut Trail<H>,
    outputs: &[TxOut],
) -> Result<[u8; 32], TrailError>
    ensures id { IfOk result (λ d. d ≡ spec.txid (H.digest_of trail.old.hasher) (spec.opening_transaction outputs.now)) }
    ensures trail { Hashes H.digest_of trail.old trail.new
        (spec.txid_strings (H.digest_of trail.old.hasher) (spec.opening_transaction outputs.now)) result }
{
    if trail.has_collided() {
        return Err(TrailError::Collided);
    }
    let tx = opening_tx(alloc, outputs)?;
    let id = txid(alloc, trail, &tx)?;
    Ok(id)
}

/// The outputs of a ledger's first transaction.
pub(crate) fn first_outputs(
    alloc: Global,
    txid: &[u8; 32],
    outputs: &[TxOut],
) -> Result<Live, OutOfMemory>
    requires { length outputs.now < 2 ^ 32 }
    ensures { IfOk result (λ live. live ≡ born 0 txid.now 0 outputs.now) }
{
    let mut live = Live::new(alloc);
    add_outputs(alloc, &mut live, 0, txid, outputs)?;
    Ok(live)
}
