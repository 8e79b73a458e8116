//! What two numbers are to one another, and whether one is 0 or odd.

ghost use Rattle.std.specs.Prelude.{◌≡◌, ◌%◌, ◌<◌, ◌↔◌, IsTrue};
ghost use Rattle.curve_field.specs.Value.{value};

use crate::words::{Words, difference};

/// Whether it is 0.
#[tactic(auto, using(crate::proofs::Values::value_is))]
pub fn is_zero(x: Words) -> bool
    ensures { IsTrue result ↔ value x ≡ 0 }
{
    x.w0 == 0 && x.w1 == 0 && x.w2 == 0 && x.w3 == 0
}

/// Whether it is odd.
#[tactic(auto, using(crate::proofs::Values::value_is))]
pub fn is_odd(x: Words) -> bool
    ensures { IsTrue result ↔ value x % 2 ≡ 1 }
{
    x.w0 % 2 == 1
}

/// Whether the first is below the second.
pub fn is_below(x: Words, y: Words) -> bool
    ensures { IsTrue result ↔ value x < value y }
{
    let (_rest, borrow) = difference(x, y);
    borrow == 1
}

/// Whether both are one number.
pub fn is_equal(x: Words, y: Words) -> bool
    ensures { IsTrue result ↔ value x ≡ value y }
{
    let (rest, _borrow) = difference(x, y);
    is_zero(rest)
}
