//! The conditions on a transaction as a whole.

ghost use Rattle.std.specs.Prelude.{◌≡◌, ◌<◌, ◌^◌, length, nat_lt, is_none, IfSome};
ghost use Rattle.spec_data.specs.Lists.{first_reason};
ghost use Rattle.spec_data.specs.Ranges.{max_money};
ghost use Rattle.spec_bitcoin.specs.Verdict as spec;

use crate::outputs::{Live, spent_numbers, value_of};
use bm_repeats::spend_twice;
use spec_bitcoin::{Refusal, Tx, TxIn, TxOut};
use spec_data::{LAST_HEIGHT, MAX_MONEY};
use std::alloc::Global;

fn missing_at(live: &Live, inputs: &[TxIn]) -> Option<usize>
    ensures value { result ≡ spec.first_missing live.now inputs.now }
    ensures within { IfSome result (λ k. k < length inputs.now) }
{
    inputs.iter().position(|input| !live.contains(&input.prev))
}

// The first input whose output isn't live.
fn missing(live: &Live, inputs: &[TxIn]) -> Option<u32>
    requires { length inputs.now < 2 ^ 32 }
    ensures { result ≡ spec.first_missing live.now inputs.now }
{
    match missing_at(live, inputs) {
        Some(k) => Some(k as u32),
        None => None,
    }
}

// From so many inputs on those that are live are told apart by their birth numbers.
const MANY: usize = 17;

// Whether two inputs spend one output, where this is the first that isn't live.
fn repeats(alloc: Global, live: &Live, inputs: &[TxIn], missing: &Option<u32>) -> bool
    requires { missing.now ≡ spec.first_missing live.now inputs.now }
    ensures { result ≡ spec.has_repeat inputs.now }
{
    if missing.is_none() && inputs.len() >= MANY {
        if let Ok(numbers) = spent_numbers(alloc, live, inputs) {
            return live.is_spent_twice(alloc, inputs, numbers.as_slice());
        }
    }
    spend_twice(alloc, inputs)
}

// The sum of the outputs, unless it is more than there can be. One output of more makes it so.
fn sum_of(outputs: &[TxOut]) -> Option<u64>
    ensures none { is_none result ≡ nat_lt max_money (spec.total_of outputs.now) }
    ensures some { IfSome result (λ total. total ≡ spec.total_of outputs.now) }
{
    let mut total = 0;
    for output in outputs {
        if output.value > MAX_MONEY - total {
            return None;
        }
        total += output.value;
    }
    Some(total)
}

// The inputs sum to less than this. What is needed is lowered input by input, so that no sum can overflow.
fn is_short(live: &Live, inputs: &[TxIn], total: u64) -> bool
    ensures { result ≡ nat_lt (spec.spent_total live.now inputs.now) total }
{
    let mut need = total;
    for input in inputs {
        need = need.saturating_sub(value_of(live, &input.prev));
    }
    need > 0
}

// One of the sequences lets the lock bind.
fn heeds_lock(inputs: &[TxIn]) -> bool
    ensures { result ≡ spec.heeds_lock inputs.now }
{
    inputs.iter().any(|input| input.sequence != u32::MAX)
}

// The lock binds, and it isn't reached or isn't a height.
fn is_early(tip: u32, tx: &Tx) -> bool
    ensures { result ≡ spec.is_not_final tip tx.now }
{
    if !heeds_lock(tx.inputs.as_slice()) {
        return false;
    }
    if tx.lock == 0 {
        return false;
    }
    if tip < tx.lock {
        return true;
    }
    LAST_HEIGHT < tx.lock
}

/// What is wrong with a transaction as a whole, if anything is.
pub(crate) fn whole_refusal(alloc: Global, tip: u32, live: &Live, tx: &Tx) -> Option<Refusal>
    requires { length tx.now.inputs < 2 ^ 32 }
    ensures { result ≡ first_reason (spec.whole_row tip live.now tx.now) }
{
    if tx.inputs.is_empty() {
        return Some(Refusal::NoInput);
    }
    if tx.outputs.is_empty() {
        return Some(Refusal::NoOutput);
    }
    let missing = missing(live, tx.inputs.as_slice());
    if repeats(alloc, live, tx.inputs.as_slice(), &missing) {
        return Some(Refusal::InputRepeated);
    }
    if let Some(k) = missing {
        return Some(Refusal::MissingInput(k));
    }
    let Some(total) = sum_of(tx.outputs.as_slice()) else {
        return Some(Refusal::ValueLimit);
    };
    if is_short(live, tx.inputs.as_slice(), total) {
        return Some(Refusal::InsufficientIn);
    }
    if is_early(tip, tx) {
        return Some(Refusal::NotFinal);
    }
    None
}
