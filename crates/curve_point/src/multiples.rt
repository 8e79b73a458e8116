//! Multiples of a point, by doubling and adding from the scalar's highest bit.

ghost use Rattle.std.specs.Prelude.{◌≡◌, ℕ, ◌+◌, ◌*◌, ◌^◌, ◌<◌, IfSome};
ghost use Rattle.theory_curve.specs.Jacobian.{Stands};
ghost use Rattle.spec_curve.specs.Point as spec;
ghost use Rattle.curve_field.specs.Value.{value};
ghost use Rattle.curve_point.specs.Coordinates.{IsBelow, IsAffine, triple_of, place_of, point_of};

use crate::affine_form::to_affine;
use crate::coordinates::{Affine, Jacobian, nowhere};
use crate::doubling::twice;
use crate::joining::join;
use curve_field::Words;

// One bit more of a scalar.
fn take_bit(t: Jacobian, bit: u64, a: Affine) -> Jacobian
    requires here { IsBelow t }
    requires there { IsAffine a }
    requires bit { bit < 2 }
    ensures below { IsBelow result }
    ensures stands { (i n : ℕ) → Stands (triple_of t) (spec.multiple i n (place_of a))
        → Stands (triple_of result) (spec.multiple (i + 1) (2 * n + bit) (place_of a)) }
{
    let twofold = twice(t);
    if bit == 1 { join(twofold, a) } else { twofold }
}

// 64 bits more of a scalar.
fn take_word(t: Jacobian, word: u64, a: Affine) -> Jacobian
    requires here { IsBelow t }
    requires there { IsAffine a }
    ensures below { IsBelow result }
    ensures stands { (i n : ℕ) → Stands (triple_of t) (spec.multiple i n (place_of a))
        → Stands (triple_of result) (spec.multiple (i + 64) (n * 2 ^ 64 + word) (place_of a)) }
{
    let mut sum = t;
    for b in 0..64u32 {
        let place = 63 - b;
        let bit = (word >> place) % 2;
        sum = take_bit(sum, bit, a);
    }
    sum
}

// The multiple of a scalar of 256 bits.
fn climb(k: Words, a: Affine) -> Jacobian
    requires { IsAffine a }
    ensures below { IsBelow result }
    ensures stands { Stands (triple_of result) (spec.multiple 256 (value k) (place_of a)) }
{
    let first = take_word(nowhere(), k.w3, a);
    let second = take_word(first, k.w2, a);
    let third = take_word(second, k.w1, a);
    take_word(third, k.w0, a)
}

/// The multiple of a point by a scalar of 256 bits.
pub fn multiple(k: Words, a: Affine) -> Option<Affine>
    requires { IsAffine a }
    ensures below { IfSome result IsAffine }
    ensures same { point_of result ≡ spec.multiple 256 (value k) (place_of a) }
{
    to_affine(climb(k, a))
}
