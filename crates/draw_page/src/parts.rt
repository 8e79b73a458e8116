//! Numbers of parts that have a look. One that is too great for its type counts as out of memory.

ghost use Rattle.std.specs.Prelude.{◌≡◌, ◌+◌, IfOk};
ghost use Rattle.spec_page.specs.ContractPart as spec;

use spec_data::OutOfMemory;
use spec_page::WayRow;
use std::alloc::AllocError;

/// The number of the part so many parts further on.
pub fn further(part: usize, count: usize) -> Result<usize, OutOfMemory>
    ensures { IfOk result (λ n. n ≡ part + count) }
{
    part.checked_add(count).ok_or(AllocError)
}

/// How many parts of a row have a look.
pub fn row_size(row: &WayRow) -> Result<usize, OutOfMemory>
    ensures { IfOk result (λ n. n ≡ spec.row_size row.now) }
{
    match row {
        WayRow::Choice { .. } => Ok(0),
        WayRow::Way {
            conditions,
            payments,
            ..
        } => {
            let own = further(1, conditions.len())?;
            further(own, payments.len())
        }
    }
}

/// A count as a number of 32 bits.
pub(crate) fn narrow(count: usize) -> Result<u32, OutOfMemory>
    ensures { IfOk result (λ n. n ≡ count) }
{
    if count > u32::MAX as usize {
        return Err(AllocError);
    }
    Ok(count as u32)
}
