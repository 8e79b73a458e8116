//! The size of the script of a position.

ghost use Rattle.std.specs.Prelude.{◌≡◌, ◌≤◌, ◌<◌, ◌+◌, ◌^◌, length, min};
ghost use Rattle.spec_terms.specs.Core.{core as core_of, reveals_of, test_of};
ghost use Rattle.spec_terms.specs.Cost as spec;
ghost use Rattle.bm_syntax.specs.View.{formula, test, guarded, contract};
ghost use Rattle.bm_pred.specs.Held.{IsHeld};

use crate::bounds::MOST;
use bm_syntax::{Contract, Expr, Guarded, Name, Pred, core};
use spec_terms::ScriptSize;

// From this number on a push has the same length, so no more items on the stack need be counted.
const DEEPEST: u64 = 8_388_608;

// Two pieces of a script, one after the other.
fn and(a: ScriptSize, b: ScriptSize) -> ScriptSize
    ensures bytes { result.bytes ≡ min (a.bytes + b.bytes) (2 ^ 63) }
    ensures operations { result.operations ≡ min (a.operations + b.operations) (2 ^ 63) }
{
    ScriptSize {
        bytes: a.bytes.saturating_add(b.bytes).min(MOST),
        operations: a.operations.saturating_add(b.operations).min(MOST),
    }
}

fn size(bytes: u64, operations: u64) -> ScriptSize
    ensures { result ≡ record { bytes = bytes; operations = operations } }
{
    ScriptSize { bytes, operations }
}

// Two operands and an operation on them.
fn operation(a: ScriptSize, b: ScriptSize) -> ScriptSize
    ensures bytes { result.bytes ≡ min (a.bytes + b.bytes + 1) (2 ^ 63) }
    ensures operations { result.operations ≡ min (a.operations + b.operations + 1) (2 ^ 63) }
{
    and(and(a, b), size(1, 1))
}

// One more item on the stack.
fn deeper(depth: u64) -> u64
    requires { depth ≤ DEEPEST }
    ensures { result ≡ min (depth + 1) DEEPEST }
{
    (depth + 1).min(DEEPEST)
}

/// The bytes and the counted operations of the script of the position where the contract stands, among so many participants;
/// each is held at 2^63 where it would be greater.
#[tactic(auto, using(crate::proofs::HeldLemmas::held_whole))]
pub fn cost(choice: &Contract, parties: u32) -> ScriptSize
    ensures { result ≡ spec.held_size (spec.cost parties (contract choice.now)) }
{
    choice_size(choice, parties)
}

fn choice_size(choice: &Contract, parties: u32) -> ScriptSize
    ensures { IsHeld result (spec.cost parties (contract choice.now)) }
{
    match choice.branches.split_first() {
        None => size(0, 0),
        Some((first, others)) => {
            let mut total = branch_size(first, parties);
            for branch in others {
                total = and(and(total, size(3, 3)), branch_size(branch, parties));
            }
            total
        }
    }
}

fn branch_size(branch: &Guarded, parties: u32) -> ScriptSize
    ensures { IsHeld result (spec.branch_size parties (guarded branch.now)) }
{
    and(
        size(35 * u64::from(parties), u64::from(parties)),
        core_size(core(branch)),
    )
}

fn core_size(branch: &Guarded) -> ScriptSize
    ensures { IsHeld result (spec.reveals_size (reveals_of (guarded branch.now)) (test_of (guarded branch.now))) }
{
    match branch {
        Guarded::PutReveal { reveals, test, .. } => reveals_size(reveals, test),
        _ => size(0, 0),
    }
}

fn reveals_size(reveals: &[Name], pred: &Pred) -> ScriptSize
    ensures { IsHeld result (spec.reveals_size reveals.now (test pred.now)) }
{
    if reveals.is_empty() {
        return size(0, 0);
    }
    let count = reveals.len() as u64;
    let revealed = size(
        count.saturating_mul(46).min(MOST),
        count.saturating_mul(9).min(MOST),
    );
    and(and(revealed, test_size(reveals, 0, pred)), size(1, 1))
}

fn test_size(reveals: &[Name], depth: u64, pred: &Pred) -> ScriptSize
    requires { depth ≤ DEEPEST }
    ensures { IsHeld result (spec.test_size reveals.now depth (test pred.now)) }
{
    match pred {
        Pred::True => size(1, 0),
        Pred::And(p, q) => operation(
            test_size(reveals, depth, p),
            test_size(reveals, deeper(depth), q),
        ),
        Pred::Not(p) => and(test_size(reveals, depth, p), size(1, 1)),
        Pred::Equal(e, f) => two_formulas(reveals, depth, e, f),
        Pred::Less(e, f) => two_formulas(reveals, depth, e, f),
    }
}

#[tactic(auto, using(crate::proofs::Deep::formula_size_capped))]
fn two_formulas(reveals: &[Name], depth: u64, e: &Expr, f: &Expr) -> ScriptSize
    requires { depth ≤ DEEPEST }
    ensures { IsHeld result (spec.two_formulas reveals.now depth (formula e.now) (formula f.now)) }
{
    operation(
        formula_size(reveals, depth, e),
        formula_size(reveals, deeper(depth), f),
    )
}

fn formula_size(reveals: &[Name], depth: u64, expr: &Expr) -> ScriptSize
    requires { depth ≤ DEEPEST }
    ensures { IsHeld result (spec.formula_size reveals.now depth (formula expr.now)) }
{
    match expr {
        Expr::Const(n) => size(push_len(u64::from(*n)), 0),
        Expr::Length(name) => size(3 + push_len(depth + place_in(reveals, name)), 2),
        Expr::Plus(e, f) => operation(
            formula_size(reveals, depth, e),
            formula_size(reveals, deeper(depth), f),
        ),
        Expr::Minus(e, f) => operation(
            formula_size(reveals, depth, e),
            formula_size(reveals, deeper(depth), f),
        ),
    }
}

// How many names stand before this one.
fn place_in(reveals: &[Name], name: &Name) -> u64
    ensures exact { result ≡ spec.place_in reveals.now name.now }
    ensures small { result ≤ length reveals.now }
    ensures fits { result < 2 ^ 63 }
{
    let mut before = 0;
    for known in reveals {
        if *known == *name {
            break;
        }
        before += 1;
    }
    before
}

// The bytes of the shortest push of a number.
fn push_len(number: u64) -> u64
    ensures exact { result ≡ spec.push_len number }
    ensures short { result ≤ 5 }
{
    match number {
        0..=16 => 1,
        17..=127 => 2,
        128..=32_767 => 3,
        32_768..=8_388_607 => 4,
        _ => 5,
    }
}
