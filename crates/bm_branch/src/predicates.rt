//! The operations of predicates.

ghost use Rattle.std.specs.Prelude.{◌≡◌, ◌≤◌, ◌<◌, ◌+◌, ◌^◌, [], ◌∷◌, ◌++◌, OnOk, length, pos};
ghost use Rattle.bm_syntax.specs.View.{formula, test};
ghost use Rattle.spec_terms.specs.Cost.{place_in as place, formula_size, test_size};
ghost use Rattle.spec_bitcoin.specs.Scripts.{push_number as number_op};
ghost use Rattle.spec_compiler.specs.Scripts.{formula_ops, test_ops};

use crate::codes;
use bm_ops::push_number;
use bm_syntax::{Expr, Name, Pred};
use spec_bitcoin::Op;
use spec_data::OutOfMemory;
use std::alloc::Global;

// One operation.
pub(crate) fn put(ops: &mut Vec<Op>, op: Op) -> Result<(), OutOfMemory>
    ensures { OnOk result (ops.new.items ≡ ops.old.items ++ op ∷ []) }
{
    ops.push(op)?;
    Ok(())
}

// The shortest push of a number.
fn put_number(alloc: Global, ops: &mut Vec<Op>, number: u64) -> Result<(), OutOfMemory>
    requires { number < 2 ^ 63 }
    ensures { OnOk result (ops.new.items ≡ ops.old.items ++ number_op (pos number) ∷ []) }
{
    put(ops, push_number(alloc, number as i64)?)
}

// How many names stand before this one.
fn place_in(names: &[Name], name: &Name) -> u64
    ensures exact { result ≡ place names.now name.now }
    ensures small { result ≤ length names.now }
{
    let mut before = 0;
    for known in names {
        if *known == *name {
            break;
        }
        before += 1;
    }
    before
}

// The operations of a predicate, with `depth` items above the lengths.
pub(crate) fn put_test(
    alloc: Global,
    ops: &mut Vec<Op>,
    names: &[Name],
    depth: u64,
    pred: &Pred,
) -> Result<(), OutOfMemory>
    requires { depth + (test_size names.now depth (test pred.now)).operations + length names.now < 2 ^ 63 }
    ensures { OnOk result (ops.new.items ≡ ops.old.items ++ test_ops names.now depth (test pred.now)) }
{
    match pred {
        Pred::True => put(ops, Op::Code(codes::ONE)),
        Pred::And(p, q) => {
            put_test(alloc, ops, names, depth, p)?;
            put_test(alloc, ops, names, depth + 1, q)?;
            put(ops, Op::Code(codes::BOOLAND))
        }
        Pred::Not(p) => {
            put_test(alloc, ops, names, depth, p)?;
            put(ops, Op::Code(codes::NOT))
        }
        Pred::Equal(e, f) => {
            put_formula(alloc, ops, names, depth, e)?;
            put_formula(alloc, ops, names, depth + 1, f)?;
            put(ops, Op::Code(codes::NUMEQUAL))
        }
        Pred::Less(e, f) => {
            put_formula(alloc, ops, names, depth, e)?;
            put_formula(alloc, ops, names, depth + 1, f)?;
            put(ops, Op::Code(codes::LESSTHAN))
        }
    }
}

// The operations of an expression, with `depth` items above the lengths.
fn put_formula(
    alloc: Global,
    ops: &mut Vec<Op>,
    names: &[Name],
    depth: u64,
    expr: &Expr,
) -> Result<(), OutOfMemory>
    requires { depth + (formula_size names.now depth (formula expr.now)).operations + length names.now < 2 ^ 63 }
    ensures { OnOk result (ops.new.items ≡ ops.old.items ++ formula_ops names.now depth (formula expr.now)) }
{
    match expr {
        Expr::Const(n) => put_number(alloc, ops, u64::from(*n)),
        Expr::Length(name) => {
            put_number(alloc, ops, depth + place_in(names, name))?;
            put(ops, Op::Code(codes::PICK))?;
            put(ops, Op::Code(codes::SIXTEEN))?;
            put(ops, Op::Code(codes::SUB))
        }
        Expr::Plus(e, f) => {
            put_formula(alloc, ops, names, depth, e)?;
            put_formula(alloc, ops, names, depth + 1, f)?;
            put(ops, Op::Code(codes::ADD))
        }
        Expr::Minus(e, f) => {
            put_formula(alloc, ops, names, depth, e)?;
            put_formula(alloc, ops, names, depth + 1, f)?;
            put(ops, Op::Code(codes::SUB))
        }
    }
}
