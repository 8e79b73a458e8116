//! Remainders modulo the prime: what stands at 2^256 counts as often as 2^256 is more than the prime.

ghost use Rattle.std.specs.Prelude.{◌≡◌, ◌+◌, ◌*◌, ◌%◌, ◌^◌, ◌<◌};
ghost use Rattle.spec_curve.specs.Field.{field_prime};
ghost use Rattle.curve_field.specs.Value.{value, wide_value};

use crate::words::{Wide, Words, lower, row_of, small};

/// What 2^256 is more than the prime: 2^32 + 977.
const MORE: u64 = 4294968273;

/// The remainder of a number below twice the prime, of which `top` stands at 2^256.
pub(crate) fn finish(low: Words, top: u64) -> Words
    requires { value low + 2 ^ 256 * top < 2 * field_prime }
    ensures below { value result < field_prime }
    ensures same { value result ≡ (value low + 2 ^ 256 * top) % field_prime }
{
    let more = row_of(small(1), MORE, low);
    let less = lower(more);
    if top > 0 || more.high.w3 > 0 {
        less
    } else {
        low
    }
}

/// The remainder of a number of which `top` stands at 2^256, which is what a row more or a small
/// multiple gives.
pub(crate) fn fold(top: u64, low: Words) -> Words
    requires { top < 4294968274 }
    ensures below { value result < field_prime }
    ensures same { value result ≡ (value low + 2 ^ 256 * top) % field_prime }
{
    let more = row_of(small(top), MORE, low);
    let less = lower(more);
    finish(less, more.high.w3)
}

/// The remainder of a product.
pub(crate) fn reduce(x: Wide) -> Words
    ensures below { value result < field_prime }
    ensures same { value result ≡ wide_value x % field_prime }
{
    let more = row_of(x.high, MORE, x.low);
    let less = lower(more);
    fold(more.high.w3, less)
}
