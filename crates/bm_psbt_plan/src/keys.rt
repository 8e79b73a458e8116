//! The keys of a branch's participants.

ghost use Rattle.std.specs.Prelude.{◌≡◌, ◌++◌, ◌∷◌, map, IfOk};
ghost use Rattle.bm_psbt_plan.specs.Parts as spec;

use bm_hash::Hash32;
use bm_keys::branch_key;
use spec_data::{Name, OutOfMemory};
use spec_terms::Path;
use std::alloc::Global;

/// The participants' keys of the branch at a path.
pub(crate) fn branch_keys<H: Hash32>(
    alloc: Global,
    hasher: &H,
    contract: u32,
    path: &Path,
    people: &[Name],
) -> Result<Vec<[u8; 33]>, OutOfMemory>
    ensures { IfOk result (λ keys. keys.items ≡ spec.branch_keys (H.digest_of hasher.now) contract path.now people.now) }
{
    let mut keys = Vec::new(alloc);
    for party in people {
        keys.push(branch_key(alloc, hasher, contract, path, party)?)?;
    }
    Ok(keys)
}
