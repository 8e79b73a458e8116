//! Words of 64 bits, and their products and differences as whole numbers.

ghost use Rattle.std.specs.Prelude.{◌≡◌, ◌+◌, ◌*◌, ◌^◌, ◌≤◌};
ghost use Rattle.curve_field.specs.Value.{value, row_value, wide_value};

/// A number of 256 bits, the lowest word first.
#[derive(Clone, Copy)]
pub struct Words {
    pub w0: u64,
    pub w1: u64,
    pub w2: u64,
    pub w3: u64,
}

/// A number of five words, the lowest first.
#[derive(Clone, Copy)]
pub struct Row {
    pub low: u64,
    pub high: Words,
}

/// A number of eight words, the lowest first.
#[derive(Clone, Copy)]
pub struct Wide {
    pub low: Words,
    pub high: Words,
}

/// A number of one word.
#[tactic(auto, using(crate::proofs::Values::single_is))]
pub fn small(number: u64) -> Words
    ensures { value result ≡ number }
{
    Words {
        w0: number,
        w1: 0,
        w2: 0,
        w3: 0,
    }
}

/// The number without its fifth word.
pub fn lower(row: Row) -> Words
    ensures { value result + 2 ^ 256 * row.high.w3 ≡ row_value row }
{
    Words {
        w0: row.low,
        w1: row.high.w0,
        w2: row.high.w1,
        w3: row.high.w2,
    }
}

// A product and two sums, as two words.
fn step(x: u64, y: u64, add: u64, carry: u64) -> (u64, u64)
    ensures { result.0 + 2 ^ 64 * result.1 ≡ x * y + add + carry }
{
    let wide = x as u128 * y as u128 + add as u128 + carry as u128;
    ((wide & 0xffff_ffff_ffff_ffff) as u64, (wide >> 64) as u64)
}

/// The product of a number and a word, and a number added to it.
pub fn row_of(x: Words, y: u64, add: Words) -> Row
    ensures { row_value result ≡ value x * y + value add }
{
    let (r0, c0) = step(x.w0, y, add.w0, 0);
    let (r1, c1) = step(x.w1, y, add.w1, c0);
    let (r2, c2) = step(x.w2, y, add.w2, c1);
    let (r3, c3) = step(x.w3, y, add.w3, c2);
    Row {
        low: r0,
        high: Words {
            w0: r1,
            w1: r2,
            w2: r3,
            w3: c3,
        },
    }
}

/// The product of two numbers.
pub fn product(x: Words, y: Words) -> Wide
    ensures { wide_value result ≡ value x * value y }
{
    let a = row_of(x, y.w0, small(0));
    let b = row_of(x, y.w1, a.high);
    let c = row_of(x, y.w2, b.high);
    let d = row_of(x, y.w3, c.high);
    Wide {
        low: Words {
            w0: a.low,
            w1: b.low,
            w2: c.low,
            w3: d.low,
        },
        high: d.high,
    }
}

// A difference, and what is borrowed for it.
fn take_step(x: u64, y: u64, borrow: u64) -> (u64, u64)
    requires { borrow ≤ 1 }
    ensures value { result.0 + y + borrow ≡ x + 2 ^ 64 * result.1 }
    ensures borrow { result.1 ≤ 1 }
{
    let wide = 0x1_0000_0000_0000_0000 + x as u128 - y as u128 - borrow as u128;
    (
        (wide & 0xffff_ffff_ffff_ffff) as u64,
        1 - (wide >> 64) as u64,
    )
}

/// The difference of two numbers, and 1 where 2^256 is borrowed for it, else 0.
pub fn difference(x: Words, y: Words) -> (Words, u64)
    ensures value { value result.0 + value y ≡ value x + 2 ^ 256 * result.1 }
    ensures borrow { result.1 ≤ 1 }
{
    let (d0, b0) = take_step(x.w0, y.w0, 0);
    let (d1, b1) = take_step(x.w1, y.w1, b0);
    let (d2, b2) = take_step(x.w2, y.w2, b1);
    let (d3, b3) = take_step(x.w3, y.w3, b2);
    (
        Words {
            w0: d0,
            w1: d1,
            w2: d2,
            w3: d3,
        },
        b3,
    )
}
