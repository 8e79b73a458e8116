//! The point that a key spells.

ghost use Rattle.std.specs.Prelude.{◌≡◌, ◌<◌, ◌∷◌, option_map, IfSome};
ghost use Rattle.spec_curve.specs.Field.{field_prime};
ghost use Rattle.spec_curve.specs.Key as spec;
ghost use Rattle.curve_field.specs.Value.{value};
ghost use Rattle.curve_point.specs.Coordinates.{place_of, IsAffine};

use curve_field::{
    Words, add, from_bytes, is_below, is_equal, is_odd, multiply, prime, root, small, subtract,
};
use curve_point::Affine;

/// The bytes behind the first.
const COORDINATE_BYTES: usize = 32;

// The square of the second coordinate: x^3 + 7.
fn square_at(x: Words) -> Words
    ensures below { value result < field_prime }
    ensures same { value result ≡ spec.square_at (value x) }
{
    let square = multiply(x, x);
    let cube = multiply(x, square);
    add(cube, small(7))
}

// The number or its opposite, whichever is as odd as the sign.
fn of_sign(sign: u8, y: Words) -> Words
    requires { value y < field_prime }
    ensures below { value result < field_prime }
    ensures same { value result ≡ spec.of_sign sign (value y) }
{
    if is_odd(y) == (sign % 2 == 1) {
        y
    } else {
        subtract(small(0), y)
    }
}

// The point of this sign and first coordinate: the root is tried, since not every number is a square.
fn point_at(sign: u8, x: Words) -> Option<Affine>
    requires { value x < field_prime }
    ensures same { option_map place_of result ≡ spec.point_at sign (value x) }
    ensures below { IfSome result IsAffine }
{
    let square = square_at(x);
    let y = root(square);
    let tried = multiply(y, y);
    if is_equal(tried, square) {
        Some(Affine {
            x,
            y: of_sign(sign, y),
        })
    } else {
        None
    }
}

// Whether it is 02 or 03.
fn is_sign(byte: u8) -> bool
    ensures { result ≡ spec.is_sign byte }
{
    byte == 2 || byte == 3
}

// Whether it is 32 bytes that spell a number of the field.
fn is_coordinate(bytes: &[u8]) -> bool
    ensures { result ≡ spec.is_coordinate bytes.now }
{
    if bytes.len() != COORDINATE_BYTES {
        return false;
    }
    is_below(from_bytes(bytes), prime())
}

// The point of the first byte of a key and of those behind it.
fn point_of_parts(sign: u8, bytes: &[u8]) -> Option<Affine>
    ensures same { option_map place_of result ≡ spec.point (sign ∷ bytes.now) }
    ensures below { IfSome result IsAffine }
{
    if !is_sign(sign) {
        return None;
    }
    if !is_coordinate(bytes) {
        return None;
    }
    point_at(sign, from_bytes(bytes))
}

/// The point that a key of 33 bytes spells: 02 or 03 for an even or odd second coordinate, and the first
/// coordinate, which is below the prime and belongs to a point.
pub fn point_of_key(key: &[u8]) -> Option<Affine>
    ensures same { option_map place_of result ≡ spec.point key.now }
    ensures below { IfSome result IsAffine }
{
    match key {
        [] => None,
        [sign, bytes @ ..] => point_of_parts(*sign, bytes),
    }
}
