//! Which bytes of a signature are R and S, and whether nothing else stands around them.

ghost use Rattle.std.specs.Prelude.{◌≡◌, ◌≤◌, ◌++◌, List, ℕ, false, length, take, drop, slice_index, MatchOption};
ghost use Rattle.std.specs.Str.{bytes_eq};
ghost use Rattle.spec_curve.specs.Signature as spec;

// The byte at a place, and 0 behind the last.
fn byte_at(bytes: &[u8], place: usize) -> u8
    ensures { result ≡ slice_index bytes.now place }
{
    match bytes.get(place) {
        Some(byte) => *byte,
        None => 0,
    }
}

// The first bytes, this many or all.
fn prefix(bytes: &[u8], count: usize) -> &[u8]
    ensures { result.now ≡ take count bytes.now }
{
    &bytes[..count.min(bytes.len())]
}

// The bytes behind the first, this many.
fn behind(bytes: &[u8], count: usize) -> &[u8]
    ensures { result.now ≡ drop count bytes.now }
{
    &bytes[count.min(bytes.len())..]
}

/// The R that a signature's counts delimit.
pub(crate) fn r_bytes(signature: &[u8]) -> &[u8]
    ensures { result.now ≡ spec.r_bytes signature.now }
{
    prefix(behind(signature, 4), byte_at(signature, 3) as usize)
}

/// The S that a signature's counts delimit.
pub(crate) fn s_bytes(signature: &[u8]) -> &[u8]
    ensures { result.now ≡ spec.s_bytes signature.now }
{
    let count = r_bytes(signature).len();
    let rest = behind(signature, count + 5);
    prefix(behind(signature, count + 6), byte_at(rest, 0) as usize)
}

// What stands behind a piece, where bytes begin with it.
#[tactic(auto, using(crate::proofs::Pieces::bytes_eq_piece))]
fn strip<'a>(bytes: &'a [u8], piece: &[u8]) -> Option<&'a [u8]>
    ensures { MatchOption result
        ((tail : List ℕ) → bytes_eq bytes.now (piece.now ++ tail) ≡ false)
        (λ rest. (tail : List ℕ) → bytes_eq bytes.now (piece.now ++ tail) ≡ bytes_eq rest.now tail) }
{
    bytes.strip_prefix(piece)
}

/// Whether a signature is that of the bytes of R and S, with the byte of the hash type ALL.
pub(crate) fn is_laid_out(signature: &[u8], r: &[u8], s: &[u8]) -> bool
    requires r { length r.now ≤ 33 }
    requires s { length s.now ≤ 33 }
    ensures { result ≡ bytes_eq signature.now (spec.signature_of r.now s.now) }
{
    let Some(with_r) = strip(
        signature,
        &[0x30, (r.len() + s.len() + 4) as u8, 2, r.len() as u8],
    ) else {
        return false;
    };
    let Some(behind_r) = strip(with_r, r) else {
        return false;
    };
    let Some(with_s) = strip(behind_r, &[2, s.len() as u8]) else {
        return false;
    };
    let Some(behind_s) = strip(with_s, s) else {
        return false;
    };
    behind_s == [1].as_slice()
}
