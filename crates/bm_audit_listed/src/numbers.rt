//! Numbers of 32 bits.

ghost use Rattle.std.specs.Prelude.{◌≡◌, IfOk};

use spec_data::OutOfMemory;
use std::alloc::AllocError;

/// A number of 32 bits; a greater one counts as out of memory.
pub(crate) fn narrow(number: usize) -> Result<u32, OutOfMemory>
    ensures { IfOk result (λ n. n ≡ number) }
{
    if number > u32::MAX as usize {
        return Err(AllocError);
    }
    Ok(number as u32)
}
