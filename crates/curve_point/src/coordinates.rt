//! What points are in code.

ghost use Rattle.std.specs.Prelude.{◌≡◌};
ghost use Rattle.curve_field.specs.Value.{value};
ghost use Rattle.curve_point.specs.Coordinates.{IsBelow, IsAffine};

use curve_field::{Words, small};

/// A point that isn't infinity: both coordinates modulo the prime.
#[derive(Clone, Copy)]
pub struct Affine {
    pub x: Words,
    pub y: Words,
}

/// The point (X / Z^2, Y / Z^3), and infinity where Z is 0.
#[derive(Clone, Copy)]
pub struct Jacobian {
    pub x: Words,
    pub y: Words,
    pub z: Words,
}

/// Infinity.
pub(crate) fn nowhere() -> Jacobian
    ensures below { IsBelow result }
    ensures zero { value result.z ≡ 0 }
{
    let zero = small(0);
    Jacobian {
        x: zero,
        y: zero,
        z: zero,
    }
}

/// A point with a Z of 1.
pub(crate) fn lifted(a: Affine) -> Jacobian
    requires { IsAffine a }
    ensures below { IsBelow result }
    ensures one { value result.z ≡ 1 }
    ensures x { result.x ≡ a.x }
    ensures y { result.y ≡ a.y }
{
    Jacobian {
        x: a.x,
        y: a.y,
        z: small(1),
    }
}
