//! Sums as they are shown.

ghost use Rattle.std.specs.Prelude.{◌≡◌, ◌++◌, ◌+◌, IfOk, OnOk};
ghost use Rattle.spec_page.specs.Figures as spec;

use bm_text::{put, put_decimal};
use spec_data::OutOfMemory;
use std::alloc::{AllocError, Global};

// What stands behind a digit that so many follow.
fn behind_digit(left: usize) -> &'static [u8]
    ensures { result.now ≡ spec.behind_digit left }
{
    if left != 0 && left % 3 == 0 {
        b","
    } else {
        b""
    }
}

fn put_separated(out: &mut Vec<u8>, digits: &[u8]) -> Result<(), OutOfMemory>
    ensures { OnOk result (out.new.items ≡ out.old.items ++ spec.separated digits.now) }
{
    let mut rest = digits;
    while let Some((digit, others)) = rest.split_first() {
        put(out, &[*digit])?;
        put(out, behind_digit(others.len()))?;
        rest = others;
    }
    Ok(())
}

/// A sum, with a comma before each three digits from the right.
pub(crate) fn put_sum(alloc: Global, out: &mut Vec<u8>, sum: u64) -> Result<(), OutOfMemory>
    ensures { OnOk result (out.new.items ≡ out.old.items ++ spec.sum_text sum) }
{
    let mut digits = Vec::new(alloc);
    put_decimal(alloc, &mut digits, sum)?;
    put_separated(out, &digits)
}

/// A sum so much greater. One of more than 64 bits, which no run has, counts as out of memory.
pub(crate) fn added(sum: u64, more: u64) -> Result<u64, OutOfMemory>
    ensures { IfOk result (λ n. n ≡ sum + more) }
{
    sum.checked_add(more).ok_or(AllocError)
}

/// A number so much greater. One of more than 32 bits, which no contract has, counts as out of memory.
pub(crate) fn plus(number: u32, more: u32) -> Result<u32, OutOfMemory>
    ensures { IfOk result (λ n. n ≡ number + more) }
{
    number.checked_add(more).ok_or(AllocError)
}
