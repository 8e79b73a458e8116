//! Whether a script is true.

ghost use Rattle.std.specs.Prelude.{◌≡◌, IfOk, nat_le, count_by, reverse};
ghost use Rattle.std.specs.List.{list_all};
ghost use Rattle.spec_bitcoin.specs.Meaning.{is_short_push, is_counted, within_limits, script_meaning};

use crate::effects::SigCheck;
use crate::running::run_ops;
use crate::top_first::Stack;
use bm_hash::Hash32;
use bm_ops::{Op, ScriptError, decode_script};
use spec_data::{Bytes, MOST_ITEM_BYTES, OutOfMemory};
use std::alloc::{AllocError, Global};

// The operations of a script that count, by Bitcoin's consensus.
const MOST_OPERATIONS: usize = 201;

fn is_short(op: &Op) -> bool
    ensures { result ≡ is_short_push op.now }
{
    match op {
        Op::Push(item) => item.as_slice().len() <= MOST_ITEM_BYTES,
        Op::Code(_) => true,
    }
}

fn counts(op: &Op) -> bool
    ensures { result ≡ is_counted op.now }
{
    match op {
        Op::Push(_) => false,
        Op::Code(code) => *code > 0x60,
    }
}

fn all_short(ops: &[Op]) -> bool
    ensures { result ≡ list_all is_short_push ops.now }
{
    ops.iter().all(is_short)
}

fn count(ops: &[Op]) -> usize
    ensures { result ≡ count_by is_counted ops.now }
{
    ops.iter().filter(|op| counts(op)).count()
}

fn is_within_limits(ops: &[Op]) -> bool
    ensures { result ≡ within_limits ops.now }
{
    if !all_short(ops) {
        return false;
    }
    count(ops) <= MOST_OPERATIONS
}

// A stack from its bottom.
fn stack_of(alloc: Global, items: &[Bytes]) -> Result<Stack<Bytes>, OutOfMemory>
    ensures { IfOk result (λ s. s ≡ reverse items.now) }
{
    let mut stack = Stack::new(alloc);
    for item in items {
        stack.push(item.copy(alloc)?)?;
    }
    Ok(stack)
}

/// Whether a script is true on a stack, given from its bottom.
#[tactic(auto, unfolding(spec_bitcoin::specs::Meaning::script_meaning))]
pub fn eval<H: Hash32, C: SigCheck>(
    alloc: Global,
    hash: &H,
    script: &[u8],
    stack: &[Bytes],
    check: &C,
) -> Result<bool, OutOfMemory>
    ensures { IfOk result (λ valid. valid ≡ script_meaning (H.digest_of hash.now) (C.valid check.now) script.now stack.now) }
{
    if script.len() > 10_000 {
        return Ok(false);
    }
    let ops = match decode_script(alloc, script) {
        Ok(ops) => ops,
        Err(ScriptError::BadScript) => return Ok(false),
        Err(ScriptError::Memory) => return Err(AllocError),
    };
    if !is_within_limits(&ops) {
        return Ok(false);
    }
    let stack = stack_of(alloc, stack)?;
    run_ops(alloc, hash, check, &ops, stack)
}
