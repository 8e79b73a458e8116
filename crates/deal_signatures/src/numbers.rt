//! The numbers of a signature.

ghost use Rattle.std.specs.Prelude.{◌≡◌, ◌≤◌, ◌<◌, ◌^◌, ◌&&◌, length};
ghost use Rattle.spec_deal.specs.Shape as spec;
ghost use Rattle.deal_signatures.specs.Halves.{is_low_of};

/// Half the order of the curve secp256k1: its upper 16 bytes, and its lower.
const HALF_HIGH: u128 = 0x7fffffffffffffffffffffffffffffff;

const HALF_LOW: u128 = 0x5d576e7357a4501ddfe92f46681b20a0;

/// The most bytes of a number.
const MOST_BYTES: usize = 33;

// Whether the sign bit is 0, and no byte can be left out in front.
fn is_natural(bytes: &[u8]) -> bool
    ensures { result ≡ spec.is_natural bytes.now }
{
    match bytes {
        [] => false,
        [first] => *first < 128,
        [first, second, ..] => *first < 128 && (*first != 0 || *second >= 128),
    }
}

/// Whether it is a natural number in its shortest spelling, of at most 33 bytes.
pub(crate) fn is_number(bytes: &[u8]) -> bool
    ensures { result ≡ spec.is_number bytes.now }
{
    is_natural(bytes) && bytes.len() <= MOST_BYTES
}

// The number that these bytes spell, the highest first.
fn number_of(bytes: &[u8]) -> u128
    requires { length bytes.now ≤ 16 }
    ensures number { result ≡ spec.number_from 0 bytes.now }
    ensures below { result < 2 ^ 128 }
{
    let mut number = 0u128;
    for byte in bytes {
        number = number * 256 + *byte as u128;
    }
    number
}

// Whether a number of these two halves is at most half the order of the curve.
fn is_low_of(high: u128, low: u128) -> bool
    ensures { result ≡ is_low_of high low }
{
    high < HALF_HIGH || high == HALF_HIGH && low <= HALF_LOW
}

// Whether a number of at most 32 bytes is at most half the order of the curve.
fn is_low(bytes: &[u8]) -> bool
    requires { length bytes.now ≤ 32 }
    ensures { result ≡ spec.is_low bytes.now }
{
    let (high, low) = bytes.split_at(bytes.len().saturating_sub(16));
    is_low_of(number_of(high), number_of(low))
}

/// Whether it is such a number, and at most half the order of the curve.
pub(crate) fn is_low_number(bytes: &[u8]) -> bool
    ensures { result ≡ (spec.is_number bytes.now && spec.is_low bytes.now) }
{
    if !is_number(bytes) {
        return false;
    }
    if bytes.len() == MOST_BYTES {
        return false;
    }
    is_low(bytes)
}
