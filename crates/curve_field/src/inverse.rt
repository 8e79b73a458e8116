//! Inverses and square roots modulo the prime.

ghost use Rattle.std.specs.Prelude.{◌≡◌, ◌<◌};
ghost use Rattle.spec_curve.specs.Field.{field_prime};
ghost use Rattle.spec_curve.specs.Field as spec;
ghost use Rattle.curve_field.specs.Value.{value};

use crate::powers::{Modulus, power};
use crate::ring::multiply;
use crate::words::Words;

// The prime of the field.
struct Prime;

impl Modulus for Prime {
    ghost use Rattle.std.proofs.Common.{rules};

    ghost modulus = { field_prime };

    fn multiply(x: Words, y: Words) -> Words {
        multiply(x, y)
    }

    ghost proper = { Prim.search rules };
}

/// The inverse of a number, and 0 of 0: its power p - 2.
pub fn invert(x: Words) -> Words
    ensures below { value result < field_prime }
    ensures same { value result ≡ spec.inverse field_prime (value x) }
{
    power::<Prime>(
        x,
        Words {
            w0: 0xFFFF_FFFE_FFFF_FC2D,
            w1: 0xFFFF_FFFF_FFFF_FFFF,
            w2: 0xFFFF_FFFF_FFFF_FFFF,
            w3: 0xFFFF_FFFF_FFFF_FFFF,
        },
    )
}

/// A square root of a number that has one: its power (p + 1) / 4.
pub fn root(x: Words) -> Words
    ensures below { value result < field_prime }
    ensures same { value result ≡ spec.root field_prime (value x) }
{
    power::<Prime>(
        x,
        Words {
            w0: 0xFFFF_FFFF_BFFF_FF0C,
            w1: 0xFFFF_FFFF_FFFF_FFFF,
            w2: 0xFFFF_FFFF_FFFF_FFFF,
            w3: 0x3FFF_FFFF_FFFF_FFFF,
        },
    )
}
