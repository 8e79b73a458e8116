//! Sums, differences and products modulo the prime.

ghost use Rattle.std.specs.Prelude.{◌≡◌, ◌<◌};
ghost use Rattle.spec_curve.specs.Field.{field_prime, plus, minus, times};
ghost use Rattle.curve_field.specs.Value.{value};

use crate::remainder::{finish, fold, reduce};
use crate::words::{Words, difference, lower, product, row_of, small};

/// The prime of the field (SEC 2, section 2.4.1).
#[tactic(auto, using(crate::proofs::Values::prime_is))]
pub fn prime() -> Words
    ensures { value result ≡ field_prime }
{
    Words {
        w0: 0xFFFF_FFFE_FFFF_FC2F,
        w1: 0xFFFF_FFFF_FFFF_FFFF,
        w2: 0xFFFF_FFFF_FFFF_FFFF,
        w3: 0xFFFF_FFFF_FFFF_FFFF,
    }
}

/// A product modulo the prime, of any two numbers.
pub fn multiply(x: Words, y: Words) -> Words
    ensures below { value result < field_prime }
    ensures same { value result ≡ times field_prime (value x) (value y) }
{
    reduce(product(x, y))
}

/// A sum modulo the prime.
pub fn add(x: Words, y: Words) -> Words
    requires first { value x < field_prime }
    requires second { value y < field_prime }
    ensures below { value result < field_prime }
    ensures same { value result ≡ plus field_prime (value x) (value y) }
{
    let sum = row_of(x, 1, y);
    let low = lower(sum);
    finish(low, sum.high.w3)
}

/// A difference modulo the prime.
pub fn subtract(x: Words, y: Words) -> Words
    requires first { value x < field_prime }
    requires second { value y < field_prime }
    ensures below { value result < field_prime }
    ensures same { value result ≡ minus field_prime (value x) (value y) }
{
    let (rest, _borrow) = difference(prime(), y);
    let sum = row_of(x, 1, rest);
    let low = lower(sum);
    finish(low, sum.high.w3)
}

/// A small multiple modulo the prime, of any number.
pub fn scale(by: u64, x: Words) -> Words
    requires { by < 256 }
    ensures below { value result < field_prime }
    ensures same { value result ≡ times field_prime by (value x) }
{
    let more = row_of(x, by, small(0));
    let low = lower(more);
    fold(more.high.w3, low)
}
