//! The run of the operations, one after another, with a condition for each open block.

ghost use Rattle.std.specs.Prelude.{◌≡◌, List, ℕ, Bool, IfOk, Some, None, if◌then◌else◌, [], length};
ghost use Rattle.spec_bitcoin.specs.Trees.{kind_of, put_op, put_if, put_else, put_endif, read};
ghost use Rattle.spec_bitcoin.specs.Effects.{Stacks, truth};
ghost use Rattle.spec_bitcoin.specs.Meaning.{act, within_limit, succeeds, meaning};
ghost use Rattle.bm_interp.specs.Resuming.{Does, resume};

use crate::effects::{SigCheck, apply, is_true};
use crate::top_first::Stack;
use bm_hash::Hash32;
use bm_ops::{Op, Opcode, opcode_named};
use spec_bitcoin::Kind;
use spec_data::{Bytes, OutOfMemory};
use std::alloc::Global;

// The items of both stacks together, by Bitcoin's consensus.
const MOST_ITEMS: usize = 1_000;

// Both stacks hold no more items together than they may.
fn is_within_limit(main: &Stack<Bytes>, alt: &Stack<Bytes>) -> bool
    ensures { within_limit (record { main = main.now; alt = alt.now })
        ≡ (if result then Some (record { main = main.now; alt = alt.now }) else None) }
{
    let main_len = main.len();
    main_len <= MOST_ITEMS && alt.len() <= MOST_ITEMS - main_len
}

// An operation that runs.
fn run_op<H: Hash32, C: SigCheck>(
    alloc: Global,
    hash: &H,
    check: &C,
    op: &Op,
    main: &mut Stack<Bytes>,
    alt: &mut Stack<Bytes>,
) -> Result<bool, OutOfMemory>
    ensures { IfOk result (λ done. act (H.digest_of hash.now) (C.valid check.now) op.now (record { main = main.old; alt = alt.old })
        ≡ (if done then Some (record { main = main.new; alt = alt.new }) else None)) }
{
    let done = match op {
        Op::Push(item) => {
            main.push(item.copy(alloc)?)?;
            true
        }
        Op::Code(code) => match opcode_named(*code) {
            Some(opcode) => apply(alloc, hash, check, opcode, main, alt)?,
            None => false,
        },
    };
    Ok(done && is_within_limit(main, alt))
}

// An IF or NOTIF.
fn begin_block(
    negated: bool,
    main: &mut Stack<Bytes>,
    alt: &Stack<Bytes>,
    conditions: &mut Stack<bool>,
) -> Result<bool, OutOfMemory>
    ensures { IfOk result (λ goes_on. (hash : List ℕ → List ℕ) (valid : List ℕ → List ℕ → Bool) → Does hash valid
        (put_if negated) conditions.old (record { main = main.old; alt = alt.now }) goes_on conditions.new
        (record { main = main.new; alt = alt.now })) }
{
    if !conditions.all_hold() {
        conditions.push(false)?;
        return Ok(true);
    }
    let Some(item) = main.pop() else {
        return Ok(false);
    };
    conditions.push(is_true(item.as_slice()) != negated)?;
    Ok(is_within_limit(main, alt))
}

// An ELSE.
fn toggle(conditions: &mut Stack<bool>) -> Result<bool, OutOfMemory>
    ensures { IfOk result (λ goes_on. (hash : List ℕ → List ℕ) (valid : List ℕ → List ℕ → Bool) (s : Stacks)
        → Does hash valid put_else conditions.old s goes_on conditions.new s) }
{
    let Some(condition) = conditions.pop() else {
        return Ok(false);
    };
    conditions.push(!condition)?;
    Ok(true)
}

// An ENDIF.
fn end_block(conditions: &mut Stack<bool>) -> bool
    ensures { (hash : List ℕ → List ℕ) (valid : List ℕ → List ℕ → Bool) (s : Stacks)
        → Does hash valid put_endif conditions.old s result conditions.new s }
{
    conditions.pop().is_some()
}

// What an operation is to the blocks.
fn kind_at(op: &Op) -> Kind
    ensures { result ≡ kind_of op.now }
{
    let Op::Code(code) = op else {
        return Kind::Runs;
    };
    match opcode_named(*code) {
        Some(Opcode::If) => Kind::Begins(false),
        Some(Opcode::NotIf) => Kind::Begins(true),
        Some(Opcode::Else) => Kind::Cuts,
        Some(Opcode::EndIf) => Kind::Ends,
        _ => Kind::Runs,
    }
}

// One operation, which runs or doesn't.
fn step<H: Hash32, C: SigCheck>(
    alloc: Global,
    hash: &H,
    check: &C,
    op: &Op,
    main: &mut Stack<Bytes>,
    alt: &mut Stack<Bytes>,
    conditions: &mut Stack<bool>,
) -> Result<bool, OutOfMemory>
    ensures { IfOk result (λ goes_on. Does (H.digest_of hash.now) (C.valid check.now) (put_op op.now) conditions.old
        (record { main = main.old; alt = alt.old }) goes_on conditions.new (record { main = main.new; alt = alt.new })) }
{
    match kind_at(op) {
        Kind::Begins(negated) => begin_block(negated, main, alt, conditions),
        Kind::Cuts => toggle(conditions),
        Kind::Ends => Ok(end_block(conditions)),
        Kind::Runs => {
            if !conditions.all_hold() {
                return Ok(true);
            }
            run_op(alloc, hash, check, op, main, alt)
        }
    }
}

// One item is left, and it counts as true.
fn has_succeeded(main: &Stack<Bytes>) -> bool
    ensures { (alt : List (List ℕ)) → result ≡ succeeds (Some (record { main = main.now; alt = alt })) }
{
    match main.get(0) {
        Some(top) => main.len() == 1 && is_true(top.as_slice()),
        None => false,
    }
}

// No block is open, and one item is left, which counts as true.
fn is_true_end(main: &Stack<Bytes>, conditions: &Stack<bool>) -> bool
    ensures { (hash : List ℕ → List ℕ) (valid : List ℕ → List ℕ → Bool) (alt : List (List ℕ)) → result
        ≡ succeeds (resume hash valid (read []) conditions.now (record { main = main.now; alt = alt })) }
{
    conditions.len() == 0 && has_succeeded(main)
}

/// Whether operations that meet the limits are true on a stack.
pub(crate) fn run_ops<H: Hash32, C: SigCheck>(
    alloc: Global,
    hash: &H,
    check: &C,
    ops: &[Op],
    stack: Stack<Bytes>,
) -> Result<bool, OutOfMemory>
    ensures { IfOk result (λ valid. valid ≡ meaning (H.digest_of hash.now) (C.valid check.now) ops.now stack) }
{
    let mut main = stack;
    let mut alt = Stack::new(alloc);
    let mut conditions = Stack::new(alloc);
    for op in ops {
        if !step(alloc, hash, check, op, &mut main, &mut alt, &mut conditions)? {
            return Ok(false);
        }
    }
    Ok(is_true_end(&main, &conditions))
}
