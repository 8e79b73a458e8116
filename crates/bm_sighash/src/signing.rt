//! The digest of an input.

ghost use Rattle.std.specs.Prelude.{◌≡◌, ◌<◌, ◌++◌, IfOk, length};
ghost use Rattle.bm_hash.specs.Trails.{Hashes};
ghost use Rattle.spec_bitcoin.specs.Digests as spec;
ghost use Rattle.bm_sighash.specs.Shared.{hashes_of, preimage_with, strings_at};

use crate::list_hashes::ListHashes;
use bm_hash::{Hash32, Trail, TrailError};
use bm_tx::{put_long_word, put_place, put_sized, put_word};
use spec_bitcoin::{Tx, TxIn};
use spec_data::OutOfMemory;
use std::alloc::Global;

// The bytes of what is signed without the script, or some more.
const ROOM: usize = 200;

// What is signed.
#[tactic(auto, unfolding(spec_bitcoin::specs::Digests::preimage))]
fn preimage_bytes(
    alloc: Global,
    tx: &Tx,
    shared: &ListHashes,
    input: &TxIn,
    script: &[u8],
    value: u64,
) -> Result<Vec<u8>, OutOfMemory>
    ensures { IfOk result (λ bytes. bytes.items ≡ preimage_with shared.now tx.now input.now script.now value) }
{
    let mut out = Vec::with_capacity(alloc, script.len().saturating_add(ROOM))?;
    put_word(&mut out, tx.version)?;
    out.extend_from_slice(&shared.prevouts)?;
    out.extend_from_slice(&shared.sequences)?;
    put_place(&mut out, &input.prev)?;
    put_sized(&mut out, script)?;
    put_long_word(&mut out, value)?;
    put_word(&mut out, input.sequence)?;
    out.extend_from_slice(&shared.outputs)?;
    put_word(&mut out, tx.lock)?;
    put_word(&mut out, 1)?;
    Ok(out)
}

/// The digest of an input of the transaction that spends an output with this script and value, in satoshi.
/// It hashes what is signed, and its hash.
#[tactic(auto, unfolding(spec_bitcoin::specs::Digests::preimage), using(bm_hash::proofs::HashesLemmas::stopping))]
pub fn digest_of_input<H: Hash32 + Drop>(
    alloc: Global,
    trail: &mut Trail<H>,
    tx: &Tx,
    shared: &ListHashes,
    input: &TxIn,
    script: &[u8],
    value: u64,
) -> Result<[u8; 32], TrailError>
    requires shared { shared.now ≡ hashes_of (H.digest_of trail.old.hasher) tx.now }
    ensures digest { IfOk result (λ d. d ≡ spec.digest (H.digest_of trail.old.hasher) tx.now input.now script.now value) }
    ensures trail { Hashes H.digest_of trail.old trail.new
        (spec.digest_strings (H.digest_of trail.old.hasher) tx.now input.now script.now value) result }
{
    if trail.has_collided() {
        return Err(TrailError::Collided);
    }
    let bytes = preimage_bytes(alloc, tx, shared, input, script, value)?;
    let digest = trail.double(&bytes)?;
    Ok(digest)
}

/// The digest of the input of this number, counted from 0, that spends an output with this script and value, in satoshi.
/// It hashes what is signed, and its hash.
pub fn digest<H: Hash32 + Drop>(
    alloc: Global,
    trail: &mut Trail<H>,
    tx: &Tx,
    shared: &ListHashes,
    input: usize,
    script: &[u8],
    value: u64,
) -> Result<[u8; 32], TrailError>
    requires input { input < length tx.now.inputs }
    requires shared { shared.now ≡ hashes_of (H.digest_of trail.old.hasher) tx.now }
    ensures digest { IfOk result (λ d. d ≡ spec.digest_at (H.digest_of trail.old.hasher) tx.now input script.now value) }
    ensures trail { Hashes H.digest_of trail.old trail.new
        (strings_at (H.digest_of trail.old.hasher) tx.now input script.now value) result }
{
    let signed = &tx.inputs.as_slice()[input];
    digest_of_input(alloc, trail, tx, shared, signed, script, value)
}
