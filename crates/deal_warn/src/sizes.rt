//! How many bytes witnesses have, by counts and lengths alone.

ghost use Rattle.std.specs.Prelude.{◌≡◌, ◌≤◌, ◌+◌, IfOk};
ghost use Rattle.theory_weights.specs.Sizes as weights;
ghost use Rattle.deal_warn.specs.Sized as spec;

use bm_plan::{count_size, selector_bytes, selector_count};
use spec_data::OutOfMemory;
use std::alloc::AllocError;

/// Two numbers together; a sum of more than 64 bits counts as out of memory.
pub(crate) fn add(one: u64, other: u64) -> Result<u64, OutOfMemory>
    ensures { IfOk result (λ sum. sum ≡ one + other) }
{
    one.checked_add(other).ok_or(AllocError)
}

// The bytes of an item with its length before it.
fn item_size(size: u32) -> u64
    ensures value { result ≡ weights.item_size size }
    ensures few { result ≤ 4294967304 }
{
    count_size(size as u64) + size as u64
}

/// The bytes of the witness of a deposit of a key, whose script has so many bytes.
pub(crate) fn key_bytes(script: u32) -> u64
    ensures { result ≡ spec.key_bytes script }
{
    74 + item_size(script)
}

/// What the witness of a branch has.
#[derive(Clone, Copy)]
pub(crate) struct Taken {
    pub people: u32,
    pub secrets: u32,
    pub branch: u32,
    pub branches: u32,
    pub script: u32,
}

/// The bytes of the witness of a branch.
pub(crate) fn branch_bytes(taken: Taken) -> u64
    ensures { result ≡ spec.branch_bytes taken.people taken.secrets taken.branch taken.branches taken.script }
{
    let selectors = selector_count(taken.branch, taken.branches);
    let items = taken.people as u64 + taken.secrets as u64 + selectors + 1;
    let signatures = taken.people as u64 * 73;
    let secrets = taken.secrets as u64 * 81;
    let selected = selector_bytes(taken.branch, taken.branches);
    count_size(items) + signatures + secrets + selected + item_size(taken.script)
}

/// The virtual size of a transaction of so many bytes without witnesses, whose witnesses have so many.
pub(crate) fn virtual_size(bare: u32, is_marked: bool, witnesses: u64) -> Result<u64, OutOfMemory>
    ensures { IfOk result (λ size. size ≡ spec.virtual_size bare is_marked witnesses) }
{
    if !is_marked {
        return Ok((4 * bare as u64 + 3) / 4);
    }
    let weight = add(4 * bare as u64 + 5, witnesses)?;
    Ok(weight / 4)
}
