//! Twice a point.

ghost use Rattle.std.specs.Prelude.{◌≡◌};
ghost use Rattle.theory_curve.specs.Jacobian.{Stands, doubled};
ghost use Rattle.spec_curve.specs.Point.{Point, double};
ghost use Rattle.curve_point.specs.Coordinates.{IsBelow, triple_of};

use crate::coordinates::Jacobian;
use curve_field::{multiply, scale, subtract};

// The doubled triple.
fn double_triple(t: Jacobian) -> Jacobian
    requires { IsBelow t }
    ensures below { IsBelow result }
    ensures same { triple_of result ≡ doubled (triple_of t) }
{
    let yy = multiply(t.y, t.y);
    let near = multiply(t.x, yy);
    let s = scale(4, near);
    let xx = multiply(t.x, t.x);
    let m = scale(3, xx);
    let mm = multiply(m, m);
    let part = subtract(mm, s);
    let x = subtract(part, s);
    let gap = subtract(s, x);
    let slope = multiply(m, gap);
    let fourth = multiply(yy, yy);
    let eight = scale(8, fourth);
    let y = subtract(slope, eight);
    let depth = multiply(t.y, t.z);
    let z = scale(2, depth);
    Jacobian { x, y, z }
}

/// Twice a point, infinity and those of second coordinate 0 too.
pub(crate) fn twice(t: Jacobian) -> Jacobian
    requires { IsBelow t }
    ensures below { IsBelow result }
    ensures stands { (a : Point) → Stands (triple_of t) a → Stands (triple_of result) (double a) }
{
    double_triple(t)
}
