//! Two lists of signatures, both in ascending order of their keys, compared and joined side by side.

ghost use Rattle.std.specs.Prelude.{◌≡◌, ◌++◌, ◌∷◌, [], true, Some, IfOk, OnOk};
ghost use Rattle.std.specs.Str.{bytes_eq};
ghost use Rattle.spec_terms.specs.Precondition.{names_of};
ghost use Rattle.spec_tool.specs.Psbt.{are_ascending};
ghost use Rattle.spec_tool.specs.PsbtBytes.{are_at_odds, signatures_joined};
ghost use Rattle.spec_tool.specs.PsbtBytes as spec;
ghost use Rattle.bm_psbt.specs.Merged.{not_before, without_first, before_key, at_first};

use crate::order::{Signature, comes_before};
use crate::same::same_bytes;
use spec_data::{Bytes, OutOfMemory, Seq};
use std::alloc::Global;

// The signatures from the first on whose key doesn't come before this one.
fn from_key<'a>(key: &[u8], signatures: &'a [Signature]) -> &'a [Signature]
    ensures { result.now ≡ not_before key.now signatures.now }
{
    let mut rest = signatures;
    for _ in 0..signatures.len() {
        let Some((first, after)) = rest.split_first() else {
            return rest;
        };
        if !comes_before(first.0.as_slice(), key) {
            return rest;
        }
        rest = after;
    }
    rest
}

// Without the first, if it has this key.
fn behind_key<'a>(key: &[u8], signatures: &'a [Signature]) -> &'a [Signature]
    ensures { result.now ≡ without_first key.now signatures.now }
{
    let Some((first, after)) = signatures.split_first() else {
        return signatures;
    };
    if first.0.as_slice() == key {
        after
    } else {
        signatures
    }
}

// Whether the first has this key and another signature.
fn is_other(key: &[u8], signature: &Bytes, signatures: &[Signature]) -> bool
    ensures { result ≡ are_at_odds bytes_eq (Some signature.now) (at_first key.now signatures.now) }
{
    let Some((first, _)) = signatures.split_first() else {
        return false;
    };
    if first.0.as_slice() == key {
        !same_bytes(signature, &first.1)
    } else {
        false
    }
}

/// Whether a key has different signatures in both.
pub(crate) fn signatures_differ(here: &[Signature], there: &[Signature]) -> bool
    requires here { are_ascending (names_of here.now) ≡ true }
    requires there { are_ascending (names_of there.now) ≡ true }
    ensures { result ≡ spec.signatures_differ here.now there.now }
{
    let mut others = there;
    for (key, signature) in here {
        others = from_key(key, others);
        if is_other(key, signature, others) {
            return true;
        }
    }
    false
}

fn copy_signature(
    alloc: Global,
    out: &mut Seq<Signature>,
    key: &[u8; 33],
    signature: &Bytes,
) -> Result<(), OutOfMemory>
    ensures { OnOk result (out.new ≡ out.old ++ (key.now, signature.now) ∷ []) }
{
    out.push((*key, signature.copy(alloc)?))?;
    Ok(())
}

// Copies the signatures before the first whose key doesn't come before this one.
fn copy_before(
    alloc: Global,
    out: &mut Seq<Signature>,
    key: &[u8],
    signatures: &[Signature],
) -> Result<(), OutOfMemory>
    ensures { OnOk result (out.new ≡ out.old ++ before_key key.now signatures.now) }
{
    for (other, signature) in signatures {
        if !comes_before(other, key) {
            return Ok(());
        }
        copy_signature(alloc, out, other, signature)?;
    }
    Ok(())
}

fn copy_all(
    alloc: Global,
    out: &mut Seq<Signature>,
    signatures: &[Signature],
) -> Result<(), OutOfMemory>
    ensures { OnOk result (out.new ≡ out.old ++ signatures.now) }
{
    for (key, signature) in signatures {
        copy_signature(alloc, out, key, signature)?;
    }
    Ok(())
}

/// The signatures of both; where both have a key, the first's.
pub(crate) fn joined(
    alloc: Global,
    here: &[Signature],
    there: &[Signature],
) -> Result<Seq<Signature>, OutOfMemory>
    requires here { are_ascending (names_of here.now) ≡ true }
    requires there { are_ascending (names_of there.now) ≡ true }
    ensures { IfOk result (λ all. all ≡ signatures_joined here.now there.now) }
{
    let mut all = Seq::new(alloc);
    let mut others = there;
    for (key, signature) in here {
        copy_before(alloc, &mut all, key, others)?;
        copy_signature(alloc, &mut all, key, signature)?;
        others = behind_key(key, from_key(key, others));
    }
    copy_all(alloc, &mut all, others)?;
    Ok(all)
}
