//! The numbers of a signature.

ghost use Rattle.std.specs.Prelude.{◌≡◌, ◌≤◌, ◌^◌, length, nat_le, MatchOption};
ghost use Rattle.spec_curve.specs.Key.{number_of};
ghost use Rattle.spec_curve.specs.Signature as spec;
ghost use Rattle.curve_field.specs.Value.{value};

use curve_field::{Words, from_bytes};

/// As many bytes as four words have.
const WORDS_BYTES: usize = 32;

/// The most bytes behind the first two of a number.
const MOST_BEHIND: usize = 31;

/// Whether it is a natural number in its shortest spelling, of at most 33 bytes.
pub(crate) fn is_number(bytes: &[u8]) -> bool
    ensures same { result ≡ spec.is_number bytes.now }
{
    match bytes {
        [] => false,
        [first] => *first < 128,
        [first, second, rest @ ..] => *first < 128
            && (*first != 0 || *second >= 128)
            && rest.len() <= MOST_BEHIND,
    }
}

/// The number that bytes spell, the highest first, where it has at most 256 bits.
pub(crate) fn number(bytes: &[u8]) -> Option<Words>
    requires { length bytes.now ≤ 33 }
    ensures { MatchOption result (2 ^ 256 ≤ number_of bytes.now) (λ words. value words ≡ number_of bytes.now) }
{
    if bytes.len() <= WORDS_BYTES {
        return Some(from_bytes(bytes));
    }
    if bytes[0] != 0 {
        return None;
    }
    Some(from_bytes(&bytes[1..]))
}

/// Whether the number that bytes spell is at most half the order of the group.
pub(crate) fn is_low(bytes: &[u8]) -> bool
    requires { length bytes.now ≤ 33 }
    ensures { result ≡ nat_le (number_of bytes.now) spec.half_order }
{
    match number(bytes) {
        Some(words) => curve_order::is_low(words),
        None => false,
    }
}
