//! Deposits that are spent: their owners, and their witnesses.

ghost use Rattle.std.specs.Prelude.{◌≡◌, ◌++◌, map, option_map, slice_get, IfOk, OnOk};
ghost use Rattle.bm_world_fire.specs.Filled as spec;
ghost use Rattle.bm_world_fire.specs.Filled.{deposit_items, deposits_items, owners_in};

use bm_hash::Hash32;
use bm_keys::{deposit_key, deposit_script, signature};
use spec_data::{Bytes, Name, OutOfMemory, Seq};
use spec_terms::Pre;
use std::alloc::Global;

// The witness of a deposit of this owner, whose input has this digest.
fn deposit_witness<H: Hash32>(
    alloc: Global,
    hasher: &H,
    owner: &[u8],
    digest: &[u8; 32],
) -> Result<Seq<Bytes>, OutOfMemory>
    ensures { IfOk result (λ items. items ≡ deposit_items (H.digest_of hasher.now) owner.now digest.now) }
{
    let key = deposit_key(alloc, hasher, owner)?;
    let mut items = Seq::with_capacity(alloc, 2)?;
    items.push(Bytes::from_slice(alloc, &signature(&key, digest))?)?;
    items.push(Bytes::from_slice(alloc, &deposit_script(&key))?)?;
    Ok(items)
}

// The digest at this place.
fn digest_at(digests: &[[u8; 32]], k: usize) -> Option<&[u8; 32]>
    ensures { option_map (λ d. d.now) result ≡ slice_get digests.now k }
{
    digests.get(k)
}

/// The witnesses of deposits of these owners, by the digests of their inputs, put to the others.
pub(crate) fn put_witnesses<H: Hash32>(
    alloc: Global,
    hasher: &H,
    all: &mut Seq<Seq<Bytes>>,
    owners: &[Bytes],
    digests: &[[u8; 32]],
) -> Result<(), OutOfMemory>
    ensures { OnOk result (all.new ≡ all.old ++ deposits_items (H.digest_of hasher.now) owners.now digests.now) }
{
    for (k, owner) in owners.iter().enumerate() {
        let Some(digest) = digest_at(digests, k) else {
            return Ok(());
        };
        all.push(deposit_witness(alloc, hasher, owner.as_slice(), digest)?)?;
    }
    Ok(())
}

/// The owners of the persistent deposits.
pub(crate) fn persistent_owners(alloc: Global, pre: &[Pre]) -> Result<Seq<Bytes>, OutOfMemory>
    ensures { IfOk result (λ owners. owners ≡ owners_in pre.now) }
{
    let mut owners = Seq::new(alloc);
    for entry in pre {
        if let Pre::Persistent { party, .. } = entry {
            owners.push(Bytes::from_slice(alloc, party.bytes())?)?;
        }
    }
    Ok(owners)
}

// The owner of the volatile deposit of this name, nothing without one.
fn owner_of<'a>(pre: &'a [Pre], name: &Name) -> &'a [u8]
    ensures { result.now ≡ spec.owner_in pre.now name.now }
{
    for entry in pre {
        if let Pre::Volatile {
            party,
            name: known,
            ..
        } = entry
        {
            if *known == *name {
                return party.bytes();
            }
        }
    }
    &[]
}

/// The owners of the volatile deposits of these names.
pub(crate) fn volatile_owners(
    alloc: Global,
    pre: &[Pre],
    names: &[Name],
) -> Result<Seq<Bytes>, OutOfMemory>
    ensures { IfOk result (λ owners. owners ≡ map (spec.owner_in pre.now) names.now) }
{
    let mut owners = Seq::new(alloc);
    for name in names {
        owners.push(Bytes::from_slice(alloc, owner_of(pre, name))?)?;
    }
    Ok(owners)
}
