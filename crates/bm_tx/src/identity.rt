//! The txid of a transaction.

ghost use Rattle.std.specs.Prelude.{◌≡◌, IfOk};
ghost use Rattle.bm_hash.specs.Trails.{Hashes};
ghost use Rattle.spec_bitcoin.specs.Digests as spec;

use crate::writing::encode_stripped;
use bm_hash::{Hash32, Trail, TrailError};
use spec_bitcoin::Tx;
use std::alloc::Global;

/// The txid of a transaction, in the order of the hash's bytes. It hashes the bytes without marker and witnesses, and their hash.
#[tactic(auto, using(bm_hash::proofs::HashesLemmas::hashing, bm_hash::proofs::HashesLemmas::stopping))]
pub fn txid<H: Hash32 + Drop>(
    alloc: Global,
    trail: &mut Trail<H>,
    tx: &Tx,
) -> Result<[u8; 32], TrailError>
    ensures id { IfOk result (λ d. d ≡ spec.txid (H.digest_of trail.old.hasher) tx.now) }
    ensures trail { Hashes H.digest_of trail.old trail.new (spec.txid_strings (H.digest_of trail.old.hasher) tx.now) result }
{
    if trail.has_collided() {
        return Err(TrailError::Collided);
    }
    let bytes = encode_stripped(alloc, tx)?;
    let txid = trail.double(&bytes)?;
    Ok(txid)
}
