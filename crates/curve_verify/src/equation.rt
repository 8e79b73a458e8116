//! Whether two numbers sign a digest under a point (SEC 1, section 4.1.4).

ghost use Rattle.std.specs.Prelude.{◌≡◌, ◌&&◌, nat_lt, IfSome};
ghost use Rattle.spec_curve.specs.Field.{group_order};
ghost use Rattle.spec_curve.specs.Point as points;
ghost use Rattle.spec_curve.specs.Verify as spec;
ghost use Rattle.curve_field.specs.Value.{value};
ghost use Rattle.curve_point.specs.Coordinates.{IsAffine, place_of, point_of};

use curve_field::{Words, is_equal};
use curve_order::{invert, is_scalar, multiply, remainder};
use curve_point::{Affine, multiple, sum};

// The base point (SEC 2, section 2.4.1).
fn base() -> Affine
    ensures below { IsAffine result }
    ensures same { place_of result ≡ points.base }
{
    Affine {
        x: Words {
            w0: 0x59F2_815B_16F8_1798,
            w1: 0x029B_FCDB_2DCE_28D9,
            w2: 0x55A0_6295_CE87_0B07,
            w3: 0x79BE_667E_F9DC_BBAC,
        },
        y: Words {
            w0: 0x9C47_D08F_FB10_D4B8,
            w1: 0xFD17_B448_A685_5419,
            w2: 0x5DA4_FBFC_0E11_08A8,
            w3: 0x483A_DA77_26A3_C465,
        },
    }
}

// u times the base point and v times the key.
fn sum_of(u: Words, v: Words, key: Affine) -> Option<Affine>
    requires { IsAffine key }
    ensures below { IfSome result IsAffine }
    ensures same { point_of result ≡ spec.sum_of (value u) (value v) (place_of key) }
{
    sum(multiple(u, base()), multiple(v, key))
}

// Whether it is a point, and its first coordinate modulo the order is r.
#[tactic(auto, unfolding(spec_curve::specs::Verify::has_first))]
fn has_first(r: Words, point: Option<Affine>) -> bool
    ensures { result ≡ spec.has_first (value r) (point_of point) }
{
    match point {
        Some(place) => is_equal(remainder(place.x), r),
        None => false,
    }
}

// Whether it is from 1 to the order less 1.
fn is_in_range(x: Words) -> bool
    ensures { result ≡ (nat_lt 0 (value x) && nat_lt (value x) group_order) }
{
    is_scalar(x)
}

/// Whether r and s sign z, a digest of 256 bits, under the key.
#[tactic(auto, unfolding(spec_curve::specs::Verify::verifies))]
pub(crate) fn verifies(z: Words, r: Words, s: Words, key: Affine) -> bool
    requires { IsAffine key }
    ensures { result ≡ spec.verifies (value z) (value r) (value s) (place_of key) }
{
    if !is_in_range(r) {
        return false;
    }
    if !is_in_range(s) {
        return false;
    }
    let w = invert(s);
    has_first(r, sum_of(multiply(z, w), multiply(r, w), key))
}
