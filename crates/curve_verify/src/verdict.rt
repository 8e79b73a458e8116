//! The verdict on a signature.

ghost use Rattle.std.specs.Prelude.{◌≡◌, ◌≤◌, length};
ghost use Rattle.spec_curve.specs.Key as keys;
ghost use Rattle.spec_curve.specs.Key.{number_of};
ghost use Rattle.spec_curve.specs.Signature as spec;
ghost use Rattle.spec_curve.specs.Verify as equation;
ghost use Rattle.curve_field.specs.Value.{value};
ghost use Rattle.curve_point.specs.Coordinates.{IsAffine, place_of};

use crate::equation::verifies;
use crate::layout::{r_bytes, s_bytes};
use crate::numbers::number;
use crate::spelling::is_spelled;
use curve_field::{Words, from_bytes};
use curve_key::point_of_key;
use curve_point::Affine;

/// Whether bytes are a key: 33 bytes, the first 02 or 03, that spell a point (SEC 1, section 2.3.4).
pub fn is_key(bytes: &[u8]) -> bool
    ensures { result ≡ keys.is_key bytes.now }
{
    point_of_key(bytes).is_some()
}

// Whether the numbers of these bytes sign z under the key: one of more than 256 bits is no R and no S.
fn signs(z: Words, r: &[u8], s: &[u8], key: Affine) -> bool
    requires r { length r.now ≤ 33 }
    requires s { length s.now ≤ 33 }
    requires key { IsAffine key }
    ensures { result ≡ equation.verifies (value z) (number_of r.now) (number_of s.now) (place_of key) }
{
    match number(r) {
        Some(first) => match number(s) {
            Some(second) => verifies(z, first, second, key),
            None => false,
        },
        None => false,
    }
}

/// Whether the bytes of a signature, the last of which is 01 for the hash type ALL, sign a digest under
/// the bytes of a key.
pub fn verify(key: &[u8], digest: &[u8; 32], signature: &[u8]) -> bool
    ensures { result ≡ spec.is_signature key.now digest.now signature.now }
{
    if !is_spelled(signature) {
        return false;
    }
    let z = from_bytes(digest);
    let r = r_bytes(signature);
    let s = s_bytes(signature);
    match point_of_key(key) {
        Some(point) => signs(z, r, s, point),
        None => false,
    }
}
