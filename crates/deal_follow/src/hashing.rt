//! The strings of a confirmed transaction, which are hashed.

ghost use Rattle.std.specs.Prelude.{◌≡◌, ◌++◌, filter, map, IfOk, OnOk};
ghost use Rattle.std.specs.List.{flat_map};
ghost use Rattle.bm_hash.specs.Trails.{Hashes};
ghost use Rattle.spec_bitcoin.specs.Digests.{txid as txid_of};
ghost use Rattle.spec_deal.specs.SecretFile.{has_length};
ghost use Rattle.spec_chain.specs.Chain.{transaction_strings};
ghost use Rattle.deal_follow.specs.Seen.{item_in, hashed_items, witness_in, likely_items};

use bm_hash::{Hash32, Trail, TrailError, hash_all};
use bm_tx::txid;
use spec_bitcoin::{Tx, TxIn};
use spec_data::{Bytes, LEAST_SECRET_BYTES, MOST_ITEM_BYTES, OutOfMemory};
use std::alloc::Global;

/// An item of a witness, and its digest.
#[derive(Clone, Copy)]
pub(crate) struct Item<'a> {
    pub(crate) bytes: &'a Bytes,
    pub(crate) digest: [u8; 32],
}

/// What is known of a transaction once its strings are hashed: its txid, and the items of its witnesses that have as many bytes as a secret
/// may have.
#[derive(Drop)]
pub(crate) struct Strings<'a> {
    pub(crate) txid: [u8; 32],
    pub(crate) items: Vec<Item<'a>>,
}

/// Whether a string has as many bytes as a secret may have.
pub(crate) fn has_length(bytes: &[u8]) -> bool
    ensures { result ≡ has_length bytes.now }
{
    LEAST_SECRET_BYTES <= bytes.len() && bytes.len() <= MOST_ITEM_BYTES
}

// Hashes the items of the witnesses of these inputs, input by input.
#[tactic(auto, using(bm_hash::proofs::HashesLemmas::stopping, bm_hash::proofs::HashesLemmas::hashed_none_seen))]
fn hash_items<H: Hash32 + Drop>(trail: &mut Trail<H>, inputs: &[TxIn]) -> Result<(), TrailError>
    ensures { Hashes H.digest_of trail.old trail.new (flat_map witness_in inputs.now) result }
{
    if trail.has_collided() {
        return Err(TrailError::Collided);
    }
    for input in inputs {
        hash_all(trail, input.witness.as_slice())?;
    }
    Ok(())
}

/// Hashes the strings of a transaction: its bytes without witnesses and their hash, and each item of its witnesses.
pub(crate) fn hash_strings<H: Hash32 + Drop>(
    alloc: Global,
    trail: &mut Trail<H>,
    tx: &Tx,
) -> Result<[u8; 32], TrailError>
    ensures txid { IfOk result (λ d. d ≡ txid_of (H.digest_of trail.old.hasher) tx.now) }
    ensures trail { Hashes H.digest_of trail.old trail.new (transaction_strings (H.digest_of trail.old.hasher) tx.now) result }
{
    let txid = txid(alloc, trail, tx)?;
    hash_items(trail, tx.inputs.as_slice())?;
    Ok(txid)
}

// Adds those of these items that have as many bytes as a secret may have, each with its digest. No other item can be the string of one.
fn put_digests<'a, H: Hash32>(
    all: &mut Vec<Item<'a>>,
    hasher: &H,
    items: &'a [Bytes],
) -> Result<(), OutOfMemory>
    ensures { OnOk result (map item_in all.new.items
        ≡ map item_in all.old.items ++ hashed_items (H.digest_of hasher.now) (filter has_length items.now)) }
{
    for bytes in items {
        if has_length(bytes.as_slice()) {
            let digest = hasher.hash32(bytes.as_slice());
            all.push(Item { bytes, digest })?;
        }
    }
    Ok(())
}

/// The items of a transaction's witnesses that have as many bytes as a secret may have, input by input, each with its digest.
pub(crate) fn with_digests<'a, H: Hash32>(
    alloc: Global,
    hasher: &H,
    tx: &'a Tx,
) -> Result<Vec<Item<'a>>, OutOfMemory>
    ensures { IfOk result (λ v. map item_in v.items ≡ hashed_items (H.digest_of hasher.now) (likely_items tx.now)) }
{
    let mut all = Vec::new(alloc);
    for input in tx.inputs.as_slice() {
        put_digests(&mut all, hasher, input.witness.as_slice())?;
    }
    Ok(all)
}
