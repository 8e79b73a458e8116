//! Sums of points.

ghost use Rattle.std.specs.Prelude.{◌≡◌, IfSome};
ghost use Rattle.spec_curve.specs.Point.{add};
ghost use Rattle.curve_point.specs.Coordinates.{IsAffine, place_of, point_of};

use crate::affine_form::to_affine;
use crate::coordinates::{Affine, lifted};
use crate::joining::join;

// The sum of two points that aren't infinity.
fn sum_of(a: Affine, b: Affine) -> Option<Affine>
    requires first { IsAffine a }
    requires second { IsAffine b }
    ensures below { IfSome result IsAffine }
    ensures same { point_of result ≡ add (place_of a) (place_of b) }
{
    to_affine(join(lifted(a), b))
}

/// The sum of two points, in all cases.
#[tactic(auto, unfolding(spec_curve::specs::Point::add))]
pub fn sum(a: Option<Affine>, b: Option<Affine>) -> Option<Affine>
    requires first { IfSome a IsAffine }
    requires second { IfSome b IsAffine }
    ensures below { IfSome result IsAffine }
    ensures same { point_of result ≡ add (point_of a) (point_of b) }
{
    match a {
        None => b,
        Some(first) => match b {
            None => a,
            Some(second) => sum_of(first, second),
        },
    }
}
