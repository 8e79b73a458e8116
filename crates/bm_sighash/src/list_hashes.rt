//! The hashes of three lists, which all inputs of a transaction share.

ghost use Rattle.std.specs.Prelude.{◌≡◌, IfOk};
ghost use Rattle.bm_hash.specs.Trails.{Hashes};
ghost use Rattle.spec_bitcoin.specs.Digests as spec;
ghost use Rattle.bm_sighash.specs.Shared.{hashes_of, strings_of};

use bm_hash::{Hash32, Trail, TrailError};
use bm_tx::{put_output, put_place, put_word, with_room};
use spec_bitcoin::Tx;
use spec_data::OutOfMemory;
use std::alloc::Global;

/// The double hashes of a transaction's lists. They are made once for each transaction.
#[derive(Clone, Copy, Debug, PartialEq, Eq)]
pub struct ListHashes {
    /// Of the places that the inputs spend.
    pub prevouts: [u8; 32],
    pub sequences: [u8; 32],
    pub outputs: [u8; 32],
}

#[tactic(auto, unfolding(spec_bitcoin::specs::Digests::places_list))]
fn places_bytes(alloc: Global, tx: &Tx) -> Result<Vec<u8>, OutOfMemory>
    ensures { IfOk result (λ bytes. bytes.items ≡ spec.places_list tx.now) }
{
    let mut out = with_room(alloc)?;
    for input in tx.inputs.as_slice() {
        put_place(&mut out, &input.prev)?;
    }
    Ok(out)
}

#[tactic(auto, unfolding(spec_bitcoin::specs::Digests::sequences_list))]
fn sequences_bytes(alloc: Global, tx: &Tx) -> Result<Vec<u8>, OutOfMemory>
    ensures { IfOk result (λ bytes. bytes.items ≡ spec.sequences_list tx.now) }
{
    let mut out = with_room(alloc)?;
    for input in tx.inputs.as_slice() {
        put_word(&mut out, input.sequence)?;
    }
    Ok(out)
}

#[tactic(auto, unfolding(spec_bitcoin::specs::Digests::outputs_list))]
fn outputs_bytes(alloc: Global, tx: &Tx) -> Result<Vec<u8>, OutOfMemory>
    ensures { IfOk result (λ bytes. bytes.items ≡ spec.outputs_list tx.now) }
{
    let mut out = with_room(alloc)?;
    for output in tx.outputs.as_slice() {
        put_output(&mut out, output)?;
    }
    Ok(out)
}

// The double hashes of three messages.
#[tactic(auto, using(crate::proofs::Doubles::doubling))]
fn hash_lists<H: Hash32 + Drop>(
    trail: &mut Trail<H>,
    places: &[u8],
    counters: &[u8],
    made: &[u8],
) -> Result<ListHashes, TrailError>
    ensures hashes { IfOk result (λ hashes. hashes ≡ (let hash = H.digest_of trail.old.hasher in
        record {
          prevouts = spec.double hash places.now;
          sequences = spec.double hash counters.now;
          outputs = spec.double hash made.now;
        })) }
    ensures trail { Hashes H.digest_of trail.old trail.new
        (strings_of (H.digest_of trail.old.hasher) places.now counters.now made.now) result }
{
    let prevouts = trail.double(places)?;
    let sequences = trail.double(counters)?;
    let outputs = trail.double(made)?;
    Ok(ListHashes {
        prevouts,
        sequences,
        outputs,
    })
}

/// The double hashes of the three lists of a transaction. It hashes each list, followed at once by its hash.
#[tactic(auto, using(bm_hash::proofs::HashesLemmas::stopping))]
pub fn shared<H: Hash32 + Drop>(
    alloc: Global,
    trail: &mut Trail<H>,
    tx: &Tx,
) -> Result<ListHashes, TrailError>
    ensures hashes { IfOk result (λ hashes. hashes ≡ hashes_of (H.digest_of trail.old.hasher) tx.now) }
    ensures trail { Hashes H.digest_of trail.old trail.new (spec.shared_strings (H.digest_of trail.old.hasher) tx.now) result }
{
    if trail.has_collided() {
        return Err(TrailError::Collided);
    }
    let places = places_bytes(alloc, tx)?;
    let counters = sequences_bytes(alloc, tx)?;
    let made = outputs_bytes(alloc, tx)?;
    let hashes = hash_lists(trail, &places, &counters, &made)?;
    Ok(hashes)
}
