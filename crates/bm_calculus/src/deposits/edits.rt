//! What is found and changed in a list of deposits by ascending numbers. Only where many go are all of them walked, once.

ghost use Rattle.std.specs.Prelude.{◌≡◌, ◌≤◌, ◌<◌, ◌+◌, ◌^◌, ◌++◌, ◌∷◌, [], map, filter, not, true, length, slice_get, IfOk, IfErr, IfSome, OnOk, OnErr, None, Some, ℕ};
ghost use Rattle.std.specs.Option.{option_map};
ghost use Rattle.std.specs.VecDeque.{deque_len, deque_capacity};
ghost use Rattle.std.specs.BTreeSet.{contains};
ghost use Rattle.std.specs.Ordering.{nat_cmp};
ghost use Rattle.std.specs.List as lists;
ghost use Rattle.spec_data.specs.Lists.{has_number};
ghost use Rattle.spec_calculus.specs.Moves as spec;
ghost use Rattle.spec_calculus.specs.InOrder.{are_ascending};

use spec_calculus::{Deposit, Owner};
use spec_data::OutOfMemory;
use std::alloc::Global;
use std::collections::{BTreeSet, VecDeque};

// Up to so many deposits are taken out one by one, each of which moves those on its nearer side: next to nothing for the oldest, which
// mostly go first. For more of them a walk over all deposits is worth its cost.
const FEW: usize = 64;

// Where the deposit of this number stands, if none is gone of those that came between the first one and it: so it mostly is with the
// oldest, for which memory that is far apart isn't searched.
fn place_from_first(deposits: &VecDeque<Deposit>, number: u32) -> Option<usize>
    ensures { IfSome result (λ i. option_map (λ d. d.number) (slice_get deposits.now.items i) ≡ Some number) }
{
    let first = deposits.get(0)?;
    let place = number.checked_sub(first.number)? as usize;
    let deposit = deposits.get(place)?;
    if deposit.number == number {
        Some(place)
    } else {
        None
    }
}

/// The place of the deposit of this number.
pub fn place(deposits: &VecDeque<Deposit>, number: u32) -> Result<usize, usize>
    requires ascending { are_ascending (map (λ d. d.number) deposits.now.items) ≡ true }
    ensures found { IfOk result (λ i. slice_get deposits.now.items i ≡ spec.deposit_at deposits.now.items number) }
    ensures absent { IfErr result (λ _. spec.deposit_at deposits.now.items number ≡ None) }
    ensures within { IfOk result (λ i. i < length deposits.now.items) }
    ensures taken { IfOk result (λ i. lists.remove deposits.now.items i ≡ spec.kept deposits.now.items (number ∷ [])) }
    ensures kept { IfErr result (λ _. deposits.now.items ≡ spec.kept deposits.now.items (number ∷ [])) }
{
    if let Some(place) = place_from_first(deposits, number) {
        return Ok(place);
    }
    deposits.binary_search_by_key(&number, |d| d.number)
}

fn remove_one(deposits: &mut VecDeque<Deposit>, number: u32)
    requires ascending { are_ascending (map (λ d. d.number) deposits.old.items) ≡ true }
    ensures items { deposits.new.items ≡ spec.kept deposits.old.items (number ∷ []) }
    ensures len { deque_len deposits.new ≤ deque_len deposits.old }
    ensures capacity { deque_capacity deposits.new ≡ deque_capacity deposits.old }
{
    if let Ok(place) = place(deposits, number) {
        deposits.remove(place);
    }
}

// Removes the deposits of these numbers, which takes no memory.
#[tactic(auto, using(crate::proofs::Gone::kept_all, crate::proofs::Gone::kept_next, theory_calculus::proofs::Numbered::filtered_ascends))]
fn remove_singly(deposits: &mut VecDeque<Deposit>, numbers: &[u32])
    requires ascending { are_ascending (map (λ d. d.number) deposits.old.items) ≡ true }
    ensures items { deposits.new.items ≡ spec.kept deposits.old.items numbers.now }
    ensures len { deque_len deposits.new ≤ deque_len deposits.old }
    ensures capacity { deque_capacity deposits.new ≡ deque_capacity deposits.old }
{
    for number in numbers {
        remove_one(deposits, *number);
    }
}

// These numbers, in which each is found by its order.
fn ordered(alloc: Global, numbers: &[u32]) -> Result<BTreeSet<u32>, OutOfMemory>
    ensures { IfOk result (λ set. (n : ℕ) → contains nat_cmp set n ≡ has_number n numbers.now) }
{
    numbers.iter().copied().collect(alloc)
}

// Removes the deposits of the numbers in a set, in one walk.
fn remove_walking(deposits: &mut VecDeque<Deposit>, gone: &BTreeSet<u32>)
    ensures items { deposits.new.items ≡ filter (λ d. not (contains nat_cmp gone.now d.number)) deposits.old.items }
    ensures len { deque_len deposits.new ≤ deque_len deposits.old }
    ensures capacity { deque_capacity deposits.new ≡ deque_capacity deposits.old }
{
    deposits.retain(|d| !gone.contains(&d.number));
}

/// Removes the deposits of these numbers. Many go in one walk over all deposits; where there is no memory for an ordered set of the numbers,
/// they go one by one.
pub fn remove(alloc: Global, deposits: &mut VecDeque<Deposit>, numbers: &[u32])
    requires ascending { are_ascending (map (λ d. d.number) deposits.old.items) ≡ true }
    ensures items { deposits.new.items ≡ spec.kept deposits.old.items numbers.now }
    ensures len { deque_len deposits.new ≤ deque_len deposits.old }
    ensures capacity { deque_capacity deposits.new ≡ deque_capacity deposits.old }
{
    if numbers.len() <= FEW {
        remove_singly(deposits, numbers);
        return;
    }
    match ordered(alloc, numbers) {
        Ok(gone) => remove_walking(deposits, &gone),
        Err(_) => remove_singly(deposits, numbers),
    }
}

// Adds a deposit for each output, named in order, where there is room for them.
fn push_made(deposits: &mut VecDeque<Deposit>, next: u32, outputs: &[(Owner, u64)])
    requires few { next + length outputs.now < 2 ^ 32 }
    requires room { deque_len deposits.old + length outputs.now ≤ deque_capacity deposits.old }
    ensures { deposits.new.items ≡ deposits.old.items ++ spec.made next outputs.now }
{
    let mut number = next;
    for (owner, value) in outputs {
        match deposits.push_back(Deposit {
            number,
            owner: *owner,
            value: *value,
        }) {
            Ok(()) => number += 1,
            Err(_) => unreachable!(),
        }
    }
}

/// Puts a deposit for each output, named in order, in the place of the deposits of these numbers. The memory is taken before anything
/// goes.
pub fn replace(
    alloc: Global,
    deposits: &mut VecDeque<Deposit>,
    numbers: &[u32],
    next: u32,
    outputs: &[(Owner, u64)],
) -> Result<(), OutOfMemory>
    requires ascending { are_ascending (map (λ d. d.number) deposits.old.items) ≡ true }
    requires few { next + length outputs.now < 2 ^ 32 }
    ensures ok { OnOk result (deposits.new.items ≡ spec.kept deposits.old.items numbers.now ++ spec.made next outputs.now) }
    ensures err { OnErr result (deposits.new.items ≡ deposits.old.items) }
{
    deposits.reserve(outputs.len())?;
    remove(alloc, deposits, numbers);
    push_made(deposits, next, outputs);
    Ok(())
}
