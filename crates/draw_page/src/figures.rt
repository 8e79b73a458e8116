//! Sums as they are shown.

ghost use Rattle.std.specs.Prelude.{◌≡◌, ◌++◌, OnOk};
ghost use Rattle.std.specs.Fmt.{decimal};
ghost use Rattle.spec_page.specs.Figures as spec;
ghost use Rattle.spec_page.specs.Html.{escaped};

use bm_text::{put, put_decimal};
use spec_data::OutOfMemory;
use std::alloc::Global;

// What stands behind a digit that so many follow.
fn behind_digit(left: usize) -> &'static [u8]
    ensures { result.now ≡ spec.behind_digit left }
{
    if left != 0 && left % 3 == 0 {
        b","
    } else {
        b""
    }
}

fn put_separated(out: &mut Vec<u8>, digits: &[u8]) -> Result<(), OutOfMemory>
    ensures { OnOk result (out.new.items ≡ out.old.items ++ spec.separated digits.now) }
{
    let mut rest = digits;
    while let Some((digit, others)) = rest.split_first() {
        put(out, &[*digit])?;
        put(out, behind_digit(others.len()))?;
        rest = others;
    }
    Ok(())
}

/// A number, which stands in a text or a value as it is.
#[tactic(auto, using(crate::proofs::EscapedLemmas::escaped_decimal))]
pub(crate) fn put_number(alloc: Global, out: &mut Vec<u8>, number: u64) -> Result<(), OutOfMemory>
    ensures { OnOk result (out.new.items ≡ out.old.items ++ escaped (decimal number)) }
{
    put_decimal(alloc, out, number)
}

/// A sum, with a comma before each three digits from the right.
pub(crate) fn put_plain_sum(alloc: Global, out: &mut Vec<u8>, sum: u64) -> Result<(), OutOfMemory>
    ensures { OnOk result (out.new.items ≡ out.old.items ++ spec.sum_text sum) }
{
    let mut digits = Vec::new(alloc);
    put_decimal(alloc, &mut digits, sum)?;
    put_separated(out, &digits)
}

/// A sum, which stands in a text or a value as it is.
#[tactic(auto, using(crate::proofs::EscapedLemmas::escaped_sum_text))]
pub(crate) fn put_sum(alloc: Global, out: &mut Vec<u8>, sum: u64) -> Result<(), OutOfMemory>
    ensures { OnOk result (out.new.items ≡ out.old.items ++ escaped (spec.sum_text sum)) }
{
    put_plain_sum(alloc, out, sum)
}
