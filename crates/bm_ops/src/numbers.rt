//! Items as numbers.

ghost use Rattle.std.specs.Prelude.{◌≡◌, ◌<◌, ◌≤◌, ◌^◌, IfOk, IfSome, length, Some, None, pos, negsuc, ◌≤ℤ◌};
ghost use Rattle.spec_bitcoin.specs.Numbers.{magnitude, is_negative, signed, number_of_item, item_of_number, signed_bytes};

use spec_data::{Bytes, OutOfMemory};
use std::alloc::Global;

// A number by its sign and magnitude.
fn with_sign(is_minus: bool, size: u32) -> i64
    ensures value { result ≡ signed is_minus size }
    ensures low { negsuc 4294967295 ≤ℤ result }
    ensures high { result ≤ℤ pos 4294967295 }
{
    if is_minus {
        -i64::from(size)
    } else {
        i64::from(size)
    }
}

/// The number of an item of at most 4 bytes.
#[tactic(auto, unfolding(spec_bitcoin::specs::Numbers::number_of_item))]
pub fn number_of(item: &[u8]) -> Option<i64>
    ensures value { result ≡ number_of_item item.now }
    ensures low { IfSome result (λ n. negsuc 4294967295 ≤ℤ n) }
    ensures high { IfSome result (λ n. n ≤ℤ pos 4294967295) }
{
    let (size, last) = match item {
        [] => return Some(0),
        [a] => (u32::from(*a % 128), *a),
        [a, b] => (u32::from(*a) + 256 * u32::from(*b % 128), *b),
        [a, b, c] => (
            u32::from(*a) + 256 * (u32::from(*b) + 256 * u32::from(*c % 128)),
            *c,
        ),
        [a, b, c, d] => (
            u32::from(*a)
                + 256 * (u32::from(*b) + 256 * (u32::from(*c) + 256 * u32::from(*d % 128))),
            *d,
        ),
        _ => return None,
    };
    Some(with_sign(last >= 128, size))
}

// The bytes of a number by its sign and magnitude.
#[tactic(auto, using(crate::proofs::NumberLemmas::last_byte, crate::proofs::NumberLemmas::more_bytes, crate::proofs::NumberLemmas::no_bytes))]
fn bytes_of(alloc: Global, size: u64, is_minus: bool) -> Result<Vec<u8>, OutOfMemory>
    ensures { IfOk result (λ bytes. bytes.items ≡ signed_bytes 9 size is_minus) }
{
    let mut bytes = Vec::new(alloc);
    let mut rest = size;
    for _ in 0..9u32 {
        if rest < 128 {
            bytes.push(rest as u8 + if is_minus { 128 } else { 0 })?;
            return Ok(bytes);
        }
        bytes.push((rest % 256) as u8)?;
        rest /= 256;
    }
    Ok(bytes)
}

/// The shortest item of a number.
#[tactic(auto, unfolding(spec_bitcoin::specs::Numbers::item_of_number))]
pub fn item_of(alloc: Global, number: i64) -> Result<Bytes, OutOfMemory>
    ensures { IfOk result (λ item. item ≡ item_of_number number) }
{
    if number == 0 {
        return Ok(Bytes::of(Vec::new(alloc)));
    }
    Ok(Bytes::of(bytes_of(alloc, number.unsigned_abs(), number < 0)?))
}
