//! Weights by sizes.

ghost use Rattle.std.specs.Prelude.{◌≡◌, ◌≤◌, ◌+◌, ◌*◌, IfOk};
ghost use Rattle.spec_tool.specs.Weights.{exactly};
ghost use Rattle.theory_weights.specs.Sizes as spec;
ghost use Rattle.bm_plan.specs.Listed as listed;

use spec_data::OutOfMemory;
use spec_tool::Weight;
use std::alloc::AllocError;

// What a transaction of a path has.
#[derive(Clone, Copy)]
pub(crate) struct Sizes {
    pub people: u32,
    pub secrets: u32,
    pub branch: u32,
    pub branches: u32,
    pub script: u32,
    pub bare: u32,
    pub puts: u32,
}

/// A number of 32 bits; a greater one counts as out of memory.
pub fn narrow(number: usize) -> Result<u32, OutOfMemory>
    ensures { IfOk result (λ n. n ≡ number) }
{
    if number > u32::MAX as usize {
        return Err(AllocError);
    }
    Ok(number as u32)
}

/// The bytes of a count in the shortest of its four forms.
#[tactic(auto, using(theory_weights::proofs::Weighing::count_is))]
pub fn count_size(number: u64) -> u64
    ensures value { result ≡ spec.count_size number }
    ensures few { result ≤ 9 }
{
    if number < 253 {
        1
    } else if number < 0x1_0000 {
        3
    } else if number < 0x1_0000_0000 {
        5
    } else {
        9
    }
}

/// How many selectors branch i of n has.
pub fn selector_count(branch: u32, branches: u32) -> u64
    ensures value { result ≡ spec.selector_count branch branches }
    ensures few { result ≤ branch + 1 }
{
    if branch as u64 + 1 < branches as u64 {
        branch as u64 + 1
    } else {
        branch as u64
    }
}

/// And how many bytes they have, with their lengths.
pub fn selector_bytes(branch: u32, branches: u32) -> u64
    ensures value { result ≡ spec.selector_bytes branch branches }
    ensures few { result ≤ branch + 2 }
{
    if branch as u64 + 1 < branches as u64 {
        branch as u64 + 2
    } else {
        branch as u64
    }
}

// The weight of a path's transaction with secrets of these many bytes, each with its length before it.
fn with_secrets(sizes: &Sizes, secrets: u64) -> u64
    requires { secrets ≤ 4294967296 * 523 }
    ensures { result ≡ listed.with_secrets sizes.now secrets }
{
    let items = sizes.people as u64
        + sizes.secrets as u64
        + selector_count(sizes.branch, sizes.branches)
        + 1;
    let signatures = sizes.people as u64 * 67;
    let selectors = selector_bytes(sizes.branch, sizes.branches);
    let script = count_size(sizes.script as u64) + sizes.script as u64;
    let first = count_size(items) + signatures + secrets + selectors + script;
    4 * sizes.bare as u64 + 2 + first + sizes.puts as u64 * 104
}

// The least and the greatest weight of a path's transaction.
pub(crate) fn path_weight(sizes: &Sizes) -> Weight
    ensures { result ≡ listed.sized_weight sizes.now }
{
    Weight {
        least: with_secrets(sizes, sizes.secrets as u64 * 17),
        most: with_secrets(sizes, sizes.secrets as u64 * 523),
    }
}

// The weight of an initial transaction of this size that spends so many deposits.
pub(crate) fn initial_weight(bare: u32, deposits: u32) -> Weight
    ensures { result ≡ exactly (spec.initial_sized bare deposits) }
{
    let witnesses = if deposits > 0 {
        2 + deposits as u64 * 104
    } else {
        0
    };
    let weight = 4 * bare as u64 + witnesses;
    Weight {
        least: weight,
        most: weight,
    }
}
