//! The sum of a point and another in affine coordinates.

ghost use Rattle.std.specs.Prelude.{◌≡◌, ◌<◌};
ghost use Rattle.spec_curve.specs.Field.{field_prime};
ghost use Rattle.theory_curve.specs.Jacobian.{Stands, run, rise, added};
ghost use Rattle.spec_curve.specs.Point.{Point, add};
ghost use Rattle.curve_field.specs.Value.{value};
ghost use Rattle.curve_point.specs.Coordinates.{IsBelow, IsAffine, triple_of, place_of};

use crate::coordinates::{Affine, Jacobian, lifted, nowhere};
use crate::doubling::twice;
use curve_field::{Words, is_zero, multiply, subtract};

// The sum where the first isn't infinity and their first coordinates differ: `h` is H and `r` is R.
fn add_triple(t: Jacobian, a: Affine, h: Words, r: Words) -> Jacobian
    requires here { IsBelow t }
    requires run { value h ≡ run (triple_of t) (value a.x) }
    requires rise { value r ≡ rise (triple_of t) (value a.y) }
    requires run_below { value h < field_prime }
    requires rise_below { value r < field_prime }
    ensures below { IsBelow result }
    ensures same { triple_of result ≡ added (triple_of t) (value a.x) (value a.y) }
{
    let _point = a;
    let hh = multiply(h, h);
    let g = multiply(h, hh);
    let b = multiply(t.x, hh);
    let rr = multiply(r, r);
    let one = subtract(rr, g);
    let two = subtract(one, b);
    let sum_x = subtract(two, b);
    let gap = subtract(b, sum_x);
    let slope = multiply(r, gap);
    let last = multiply(t.y, g);
    let sum_y = subtract(slope, last);
    let sum_z = multiply(t.z, h);
    Jacobian {
        x: sum_x,
        y: sum_y,
        z: sum_z,
    }
}

/// The sum, also where the first is infinity, or both are one point or opposite ones.
pub(crate) fn join(t: Jacobian, a: Affine) -> Jacobian
    requires here { IsBelow t }
    requires there { IsAffine a }
    ensures below { IsBelow result }
    ensures stands { (q : Point) → Stands (triple_of t) q → Stands (triple_of result) (add q (place_of a)) }
{
    if is_zero(t.z) {
        return lifted(a);
    }
    let zz = multiply(t.z, t.z);
    let near = multiply(a.x, zz);
    let h = subtract(near, t.x);
    let zzz = multiply(t.z, zz);
    let far = multiply(a.y, zzz);
    let r = subtract(far, t.y);
    if !is_zero(h) {
        return add_triple(t, a, h, r);
    }
    if is_zero(r) {
        return twice(t);
    }
    nowhere()
}
