//! Remainders modulo the order: what stands at 2^256 counts as often as 2^256 is more than the order.

ghost use Rattle.std.specs.Prelude.{◌≡◌, ◌+◌, ◌-◌, ◌*◌, ◌%◌, ◌^◌, ◌<◌, ◌↔◌, IsTrue, nat_le};
ghost use Rattle.spec_curve.specs.Field.{group_order, times};
ghost use Rattle.spec_curve.specs.Signature.{half_order};
ghost use Rattle.curve_field.specs.Value.{value, wide_value};

use curve_field::{Wide, Words, difference, is_below, is_zero, lower, product, row_of, small};

// The order.
fn order() -> Words
    ensures { value result ≡ group_order }
{
    Words {
        w0: 0xBFD2_5E8C_D036_4141,
        w1: 0xBAAE_DCE6_AF48_A03B,
        w2: 0xFFFF_FFFF_FFFF_FFFE,
        w3: 0xFFFF_FFFF_FFFF_FFFF,
    }
}

// What 2^256 is more than the order.
fn more() -> Words
    ensures { value result ≡ 2 ^ 256 - group_order }
{
    Words {
        w0: 0x402D_A173_2FC9_BEBF,
        w1: 0x4551_2319_50B7_5FC4,
        w2: 1,
        w3: 0,
    }
}

// A smaller number of the same remainder.
fn fold(x: Wide) -> Wide
    ensures { wide_value result ≡ value x.low + value x.high * (2 ^ 256 - group_order) }
{
    let folded = product(x.high, more());
    let sum = row_of(x.low, 1, folded.low);
    let top = row_of(folded.high, 1, small(sum.high.w3));
    Wide {
        low: lower(sum),
        high: lower(top),
    }
}

// The remainder of a number below twice the order.
fn finish(x: Wide) -> Words
    requires { wide_value x < 2 * group_order }
    ensures below { value result < group_order }
    ensures same { value result ≡ wide_value x % group_order }
{
    let (rest, borrow) = difference(x.low, order());
    if is_zero(x.high) && borrow == 1 {
        x.low
    } else {
        rest
    }
}

// The remainder of a product: three folds leave less than twice the order.
fn reduce(x: Wide) -> Words
    ensures below { value result < group_order }
    ensures same { value result ≡ wide_value x % group_order }
{
    let first = fold(x);
    let second = fold(first);
    let third = fold(second);
    finish(third)
}

/// The product of two numbers, modulo the order.
pub fn multiply(x: Words, y: Words) -> Words
    ensures below { value result < group_order }
    ensures same { value result ≡ times group_order (value x) (value y) }
{
    reduce(product(x, y))
}

/// The remainder of a number.
pub fn remainder(x: Words) -> Words
    ensures below { value result < group_order }
    ensures same { value result ≡ value x % group_order }
{
    finish(Wide {
        low: x,
        high: small(0),
    })
}

/// Whether it is from 1 to the order less 1.
pub fn is_scalar(x: Words) -> bool
    ensures { IsTrue result ↔ (0 < value x × value x < group_order) }
{
    !is_zero(x) && is_below(x, order())
}

// Half the order.
fn half() -> Words
    ensures { value result ≡ half_order }
{
    Words {
        w0: 0xDFE9_2F46_681B_20A0,
        w1: 0x5D57_6E73_57A4_501D,
        w2: 0xFFFF_FFFF_FFFF_FFFF,
        w3: 0x7FFF_FFFF_FFFF_FFFF,
    }
}

/// Whether it is at most half the order, as the S of a signature that nodes relay (BIP 146).
pub fn is_low(x: Words) -> bool
    ensures { result ≡ nat_le (value x) half_order }
{
    !is_below(half(), x)
}
