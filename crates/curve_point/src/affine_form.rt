//! The affine coordinates of a point.

ghost use Rattle.std.specs.Prelude.{◌≡◌, IfSome};
ghost use Rattle.spec_curve.specs.Field.{field_prime, times};
ghost use Rattle.theory_curve.specs.Jacobian.{Stands};
ghost use Rattle.spec_curve.specs.Point.{Point};
ghost use Rattle.curve_field.specs.Value.{value};
ghost use Rattle.curve_point.specs.Coordinates.{IsAffine, triple_of, point_of};

use crate::coordinates::{Affine, Jacobian};
use curve_field::{Words, invert, is_zero, multiply};

// The point, where Z isn't 0: `inverse` is that of Z.
fn divided(t: Jacobian, inverse: Words) -> Affine
    ensures below { IsAffine result }
    ensures x { value result.x ≡ times field_prime (value t.x) (times field_prime (value inverse) (value inverse)) }
    ensures y { value result.y
        ≡ times field_prime (value t.y) (times field_prime (value inverse) (times field_prime (value inverse) (value inverse))) }
{
    let square = multiply(inverse, inverse);
    let cube = multiply(inverse, square);
    Affine {
        x: multiply(t.x, square),
        y: multiply(t.y, cube),
    }
}

/// The point in affine coordinates, and none for infinity.
pub(crate) fn to_affine(t: Jacobian) -> Option<Affine>
    ensures below { IfSome result IsAffine }
    ensures same { (q : Point) → Stands (triple_of t) q → point_of result ≡ q }
{
    if is_zero(t.z) {
        return None;
    }
    Some(divided(t, invert(t.z)))
}
