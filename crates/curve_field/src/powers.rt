//! Powers modulo a number, by squares from the highest bit of the exponent.

ghost use Rattle.std.specs.Prelude.{◌≡◌, ℕ, ◌+◌, ◌*◌, ◌^◌, ◌<◌};
ghost use Rattle.spec_curve.specs.Field as spec;
ghost use Rattle.curve_field.specs.Value.{value};

use crate::words::{Words, small};

/// A number of which remainders are taken: the prime of the field or the order of the group.
pub trait Modulus {
    ghost modulus: { ℕ };

    /// A product modulo it, of any two numbers.
    fn multiply(x: Words, y: Words) -> Words
        ensures below { value result < modulus }
        ensures same { value result ≡ spec.times modulus (value x) (value y) };

    ghost proper: { 1 < modulus };
}

// One bit more of the exponent.
fn take_bit<M: Modulus>(so_far: Words, bit: u64, x: Words) -> Words
    requires { bit < 2 }
    ensures below { value result < M.modulus }
    ensures same { (i n : ℕ) → value so_far ≡ spec.power i M.modulus (value x) n
        → value result ≡ spec.power (i + 1) M.modulus (value x) (2 * n + bit) }
{
    let square = M::multiply(so_far, so_far);
    if bit == 1 {
        M::multiply(square, x)
    } else {
        square
    }
}

// 64 bits more of the exponent.
fn take_word<M: Modulus>(so_far: Words, word: u64, x: Words) -> Words
    requires { value so_far < M.modulus }
    ensures below { value result < M.modulus }
    ensures same { (i n : ℕ) → value so_far ≡ spec.power i M.modulus (value x) n
        → value result ≡ spec.power (i + 64) M.modulus (value x) (n * 2 ^ 64 + word) }
{
    let mut all = so_far;
    for b in 0..64u32 {
        let place = 63 - b;
        let bit = (word >> place) % 2;
        all = take_bit::<M>(all, bit, x);
    }
    all
}

/// The power of a number, of any exponent of 256 bits.
pub fn power<M: Modulus>(x: Words, k: Words) -> Words
    ensures below { value result < M.modulus }
    ensures same { value result ≡ spec.power 256 M.modulus (value x) (value k) }
{
    let first = take_word::<M>(small(1), k.w3, x);
    let second = take_word::<M>(first, k.w2, x);
    let third = take_word::<M>(second, k.w1, x);
    take_word::<M>(third, k.w0, x)
}
