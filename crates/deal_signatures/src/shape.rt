//! Whether a signature has the shape.

ghost use Rattle.std.specs.Prelude.{◌≡◌, ◌≤◌, length, take, drop, slice_index, IfOk};
ghost use Rattle.spec_deal.specs.Shape as spec;

use crate::numbers::{is_low_number, is_number};
use bm_text::put;
use spec_data::OutOfMemory;
use std::alloc::Global;

// The byte at a place, and 0 behind the last.
fn byte_at(bytes: &[u8], place: usize) -> u8
    ensures { result ≡ slice_index bytes.now place }
{
    match bytes.get(place) {
        Some(byte) => *byte,
        None => 0,
    }
}

// The first bytes, this many or all.
fn prefix(bytes: &[u8], count: usize) -> &[u8]
    ensures { result.now ≡ take count bytes.now }
{
    &bytes[..count.min(bytes.len())]
}

// The bytes behind the first, this many.
fn behind(bytes: &[u8], count: usize) -> &[u8]
    ensures { result.now ≡ drop count bytes.now }
{
    &bytes[count.min(bytes.len())..]
}

// The R that a signature's counts delimit.
fn r_of(signature: &[u8]) -> &[u8]
    ensures { result.now ≡ spec.r_of signature.now }
{
    prefix(behind(signature, 4), byte_at(signature, 3) as usize)
}

// The S that a signature's counts delimit.
fn s_of(signature: &[u8]) -> &[u8]
    ensures { result.now ≡ spec.s_of signature.now }
{
    let count = r_of(signature).len();
    let rest = behind(signature, count + 5);
    prefix(behind(signature, count + 6), byte_at(rest, 0) as usize)
}

// The signature of R and S, with the byte of the hash type ALL.
#[tactic(auto, using(std::proofs::Common::append_assoc))]
fn shaped(alloc: Global, r: &[u8], s: &[u8]) -> Result<Vec<u8>, OutOfMemory>
    requires r { length r.now ≤ 33 }
    requires s { length s.now ≤ 33 }
    ensures { IfOk result (λ bytes. bytes.items ≡ spec.shaped r.now s.now) }
{
    let mut bytes = Vec::new(alloc);
    bytes.push(0x30)?;
    bytes.push((r.len() + s.len() + 4) as u8)?;
    bytes.push(2)?;
    bytes.push(r.len() as u8)?;
    put(&mut bytes, r)?;
    bytes.push(2)?;
    bytes.push(s.len() as u8)?;
    put(&mut bytes, s)?;
    bytes.push(1)?;
    Ok(bytes)
}

/// Whether a signature is strict DER of numbers of at most 33 bytes, with a low S and the byte 01 of the hash type ALL.
pub(crate) fn is_strict(alloc: Global, signature: &[u8]) -> Result<bool, OutOfMemory>
    ensures { IfOk result (λ strict. strict ≡ spec.is_strict signature.now) }
{
    let r = r_of(signature);
    let s = s_of(signature);
    if !is_number(r) {
        return Ok(false);
    }
    if !is_low_number(s) {
        return Ok(false);
    }
    let expected = shaped(alloc, r, s)?;
    Ok(signature == expected.as_slice())
}
