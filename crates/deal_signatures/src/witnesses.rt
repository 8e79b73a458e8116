//! Whether items can be the final witness of an input that spends a wallet's output.

ghost use Rattle.std.specs.Prelude.{◌≡◌, IfOk};
ghost use Rattle.spec_deal.specs.DealFile as files;
ghost use Rattle.spec_deal.specs.SignatureFile as spec;
ghost use Rattle.spec_deal.specs.Verifier.{secp256k1};
ghost use Rattle.spec_deal.specs.Wallets as wallets;

use crate::shape::is_strict;
use curve_verify::{is_key as is_point, verify};
use deal_payees::{has_taproot_form, pays_to_key_hash};
use spec_data::{Bytes, OutOfMemory};
use std::alloc::Global;

// ---- items

/// The first item of a witness, or no bytes.
pub fn first_item(items: &[Bytes]) -> &[u8]
    ensures { result.now ≡ wallets.first_item items.now }
{
    match items {
        [first, ..] => first.as_slice(),
        [] => b"",
    }
}

/// The second item of a witness, or no bytes.
pub fn second_item(items: &[Bytes]) -> &[u8]
    ensures { result.now ≡ wallets.second_item items.now }
{
    match items {
        [_, second, ..] => second.as_slice(),
        _ => b"",
    }
}

// ---- form

// Whether bytes have the form of a compressed public key.
fn is_compressed(bytes: &[u8]) -> bool
    ensures { result ≡ files.is_compressed bytes.now }
{
    match bytes {
        [first, ..] => (*first == 2 || *first == 3) && bytes.len() == 33,
        [] => false,
    }
}

// Whether they have that form and spell a point.
fn is_key(bytes: &[u8]) -> bool
    ensures { result ≡ files.is_key secp256k1 bytes.now }
{
    is_compressed(bytes) && is_point(bytes)
}

// Whether the items are a signature, and a key.
fn shows_a_key(items: &[Bytes]) -> bool
    ensures { result ≡ spec.shows_a_key secp256k1 items.now }
{
    match items {
        [_, key] => is_key(key.as_slice()),
        _ => false,
    }
}

// Whether an item is a signature by a Taproot key, of a hash type that signs all.
fn is_taproot_signature(item: &[u8]) -> bool
    ensures { result ≡ spec.is_taproot_signature item.now }
{
    item.len() == 64 || item.len() == 65 && item[64] == 1
}

// An item alone is such a signature; more spend by a script, or have an annex.
fn may_be_taproot(items: &[Bytes]) -> bool
    ensures { result ≡ spec.may_be_taproot items.now }
{
    match items {
        [item] => is_taproot_signature(item.as_slice()),
        _ => true,
    }
}

/// Whether items can be the witness of an input that spends an output of this script.
pub(crate) fn has_witness_form(script: &[u8], items: &[Bytes]) -> bool
    ensures { result ≡ spec.has_witness_form secp256k1 script.now items.now }
{
    if items.is_empty() {
        return false;
    }
    if pays_to_key_hash(script) {
        return shows_a_key(items);
    }
    if has_taproot_form(script) {
        return may_be_taproot(items);
    }
    true
}

// ---- signature

/// Whether the signature of a witness by a key's hash has the right shape.
pub(crate) fn has_strict_signature(
    alloc: Global,
    script: &[u8],
    items: &[Bytes],
) -> Result<bool, OutOfMemory>
    ensures { IfOk result (λ strict. strict ≡ spec.has_strict_signature script.now items.now) }
{
    if !pays_to_key_hash(script) {
        return Ok(true);
    }
    is_strict(alloc, first_item(items))
}

/// Whether it verifies under the key beside it, which needn't be that of the hash.
pub(crate) fn verifies_beside(digest: &[u8; 32], script: &[u8], items: &[Bytes]) -> bool
    ensures { result ≡ spec.verifies_beside secp256k1 digest.now script.now items.now }
{
    if !pays_to_key_hash(script) {
        return true;
    }
    verify(second_item(items), digest, first_item(items))
}

// ---- compared

/// Whether two witnesses have the same items.
pub(crate) fn same_items(one: &[Bytes], other: &[Bytes]) -> bool
    ensures { result ≡ spec.same_items one.now other.now }
{
    let mut rest = other;
    for item in one {
        let Some((first, after)) = rest.split_first() else {
            return false;
        };
        if item.as_slice() != first.as_slice() {
            return false;
        }
        rest = after;
    }
    rest.is_empty()
}
