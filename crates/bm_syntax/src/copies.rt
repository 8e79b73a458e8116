//! Copies of terms.

ghost use Rattle.std.specs.Prelude.{◌≡◌, map, IfOk};
ghost use Rattle.bm_syntax.specs.View.{formula, test, guarded, contract, part_view};

use crate::term::{Contract, Expr, Guarded, Part, Pred};
use spec_data::OutOfMemory;
use std::alloc::Global;

/// An equal contract.
#[cycle(copy)]
pub fn copy(alloc: Global, old: &Contract) -> Result<Contract, OutOfMemory>
    ensures { IfOk result (λ new. contract new ≡ contract old.now) }
{
    Ok(Contract {
        branches: copy_branches(alloc, &old.branches)?,
    })
}

#[cycle(copy)]
fn copy_branches(alloc: Global, old: &[Guarded]) -> Result<Vec<Guarded>, OutOfMemory>
    ensures { IfOk result (λ new. map guarded new.items ≡ map guarded old.now) }
{
    let mut branches = Vec::new(alloc);
    for branch in old {
        branches.push(copy_branch(alloc, branch)?)?;
    }
    Ok(branches)
}

/// An equal branch.
#[cycle(copy)]
pub fn copy_branch(alloc: Global, old: &Guarded) -> Result<Guarded, OutOfMemory>
    ensures { IfOk result (λ new. guarded new ≡ guarded old.now) }
{
    match old {
        Guarded::Auth { party, body } => Ok(Guarded::Auth {
            party: *party,
            body: Box::new(alloc, copy_branch(alloc, body)?)?,
        }),
        Guarded::After { height, body } => Ok(Guarded::After {
            height: *height,
            body: Box::new(alloc, copy_branch(alloc, body)?)?,
        }),
        Guarded::PutReveal {
            puts,
            reveals,
            test,
            next,
        } => Ok(Guarded::PutReveal {
            puts: Vec::from_slice(alloc, puts)?,
            reveals: Vec::from_slice(alloc, reveals)?,
            test: copy_test(alloc, test)?,
            next: Box::new(alloc, copy(alloc, next)?)?,
        }),
        Guarded::Withdraw { party } => Ok(Guarded::Withdraw { party: *party }),
        Guarded::Split { parts } => Ok(Guarded::Split {
            parts: copy_parts(alloc, parts)?,
        }),
    }
}

#[cycle(copy)]
fn copy_parts(alloc: Global, old: &[Part]) -> Result<Vec<Part>, OutOfMemory>
    ensures { IfOk result (λ new. map part_view new.items ≡ map part_view old.now) }
{
    let mut parts = Vec::new(alloc);
    for part in old {
        parts.push(Part {
            value: part.value,
            next: copy(alloc, &part.next)?,
        })?;
    }
    Ok(parts)
}

/// An equal predicate.
pub fn copy_test(alloc: Global, old: &Pred) -> Result<Pred, OutOfMemory>
    ensures { IfOk result (λ new. test new ≡ test old.now) }
{
    match old {
        Pred::True => Ok(Pred::True),
        Pred::And(a, b) => Ok(Pred::And(
            Box::new(alloc, copy_test(alloc, a)?)?,
            Box::new(alloc, copy_test(alloc, b)?)?,
        )),
        Pred::Not(a) => Ok(Pred::Not(Box::new(alloc, copy_test(alloc, a)?)?)),
        Pred::Equal(a, b) => Ok(Pred::Equal(copy_expr(alloc, a)?, copy_expr(alloc, b)?)),
        Pred::Less(a, b) => Ok(Pred::Less(copy_expr(alloc, a)?, copy_expr(alloc, b)?)),
    }
}

/// An equal expression.
pub fn copy_expr(alloc: Global, old: &Expr) -> Result<Expr, OutOfMemory>
    ensures { IfOk result (λ new. formula new ≡ formula old.now) }
{
    match old {
        Expr::Const(n) => Ok(Expr::Const(*n)),
        Expr::Length(name) => Ok(Expr::Length(*name)),
        Expr::Plus(a, b) => Ok(Expr::Plus(
            Box::new(alloc, copy_expr(alloc, a)?)?,
            Box::new(alloc, copy_expr(alloc, b)?)?,
        )),
        Expr::Minus(a, b) => Ok(Expr::Minus(
            Box::new(alloc, copy_expr(alloc, a)?)?,
            Box::new(alloc, copy_expr(alloc, b)?)?,
        )),
    }
}
