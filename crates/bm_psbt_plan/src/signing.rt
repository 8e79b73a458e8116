//! The signatures that a book has.

ghost use Rattle.std.specs.Prelude.{◌≡◌, ◌≤◌, length, OnOk, IfOk};
ghost use Rattle.spec_bitcoin.specs.Keys.{signature_of};
ghost use Rattle.spec_tool.specs.Psbt.{is_before, insert_signature};
ghost use Rattle.bm_psbt_plan.specs.Parts as spec;

use bm_book::Book;
use bm_keys::signature;
use spec_data::{Bytes, OutOfMemory};
use std::alloc::Global;
use std::cmp::Ordering;

/// A key and a signature.
pub(crate) type Signature = ([u8; 33], Bytes);

// Whether a key comes before another.
fn comes_before(key: &[u8], other: &[u8]) -> bool
    ensures { result ≡ is_before key.now other.now }
{
    match key.cmp(other) {
        Ordering::Less => true,
        Ordering::Equal => false,
        Ordering::Greater => false,
    }
}

// How many signatures stand before a key's place.
fn place_of(key: &[u8], signatures: &[Signature]) -> usize
    ensures place { result ≡ spec.place_of key.now signatures.now }
    ensures within { result ≤ length signatures.now }
{
    let mut place = 0;
    for (other, _) in signatures {
        if comes_before(key, other) {
            return place;
        }
        place += 1;
    }
    place
}

// Puts a key's signature of a digest in its place.
fn put_signature(
    alloc: Global,
    signatures: &mut Vec<Signature>,
    key: &[u8; 33],
    digest: &[u8; 32],
) -> Result<(), OutOfMemory>
    ensures { OnOk result (signatures.new.items ≡ insert_signature (key.now, signature_of key.now digest.now) signatures.old.items) }
{
    let signed = Bytes::from_slice(alloc, &signature(key, digest))?;
    let place = place_of(key, signatures);
    signatures.insert(place, (*key, signed))?;
    Ok(())
}

/// The signatures of a digest by those of these keys whose pairs the book has, in ascending order of the keys.
pub(crate) fn signatures(
    alloc: Global,
    book: &Book,
    keys: &[[u8; 33]],
    digest: &[u8; 32],
) -> Result<Vec<Signature>, OutOfMemory>
    ensures { IfOk result (λ signatures. signatures.items ≡ spec.signed_by book.now keys.now digest.now) }
{
    let mut signatures = Vec::new(alloc);
    let mut left = keys.len();
    while left > 0 {
        left -= 1;
        let key = keys[left];
        if book.has(&key, digest) {
            put_signature(alloc, &mut signatures, &key, digest)?;
        }
    }
    Ok(signatures)
}
