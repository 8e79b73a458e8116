//! Inverses modulo the order.

ghost use Rattle.std.specs.Prelude.{◌≡◌, ◌<◌};
ghost use Rattle.spec_curve.specs.Field.{group_order};
ghost use Rattle.spec_curve.specs.Field as spec;
ghost use Rattle.curve_field.specs.Value.{value};

use crate::modular::multiply;
use curve_field::{Modulus, Words, power};

// The order of the group.
struct Order;

impl Modulus for Order {
    ghost use Rattle.std.proofs.Common.{rules};

    ghost modulus = { group_order };

    fn multiply(x: Words, y: Words) -> Words {
        multiply(x, y)
    }

    ghost proper = { Prim.search rules };
}

/// The inverse of a number, and 0 of 0: its power n - 2.
pub fn invert(x: Words) -> Words
    ensures below { value result < group_order }
    ensures same { value result ≡ spec.inverse group_order (value x) }
{
    power::<Order>(
        x,
        Words {
            w0: 0xBFD2_5E8C_D036_413F,
            w1: 0xBAAE_DCE6_AF48_A03B,
            w2: 0xFFFF_FFFF_FFFF_FFFE,
            w3: 0xFFFF_FFFF_FFFF_FFFF,
        },
    )
}
