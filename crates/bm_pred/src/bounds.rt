//! How far from zero an expression can get.

ghost use Rattle.std.specs.Prelude.{◌≡◌, ◌^◌, ◌<◌};
ghost use Rattle.spec_terms.specs.Bound as spec;
ghost use Rattle.bm_pred.specs.Within.{BoundsEveryValue};
ghost use Rattle.bm_syntax.specs.View.{formula, test};

use bm_syntax::{Expr, Pred};
use spec_data::MOST_ITEM_BYTES;

/// The greatest number that `bound` and `cost` answer.
pub const MOST: u64 = 1 << 63;

/// The greatest bound that an expression may have: its values then fit in the four bytes of an operand of Bitcoin script.
pub const GREATEST_BOUND: u64 = 2_147_483_647;

/// The most that the value of the expression can be away from 0, where no length exceeds that of an item; held at `MOST` where it would be greater.
#[tactic(auto, using(crate::proofs::Far::bounds_values))]
pub fn bound(expr: &Expr) -> u64
    ensures exact { result ≡ spec.held (spec.bound (formula expr.now)) }
    ensures enough { result < 2 ^ 63 → BoundsEveryValue result (formula expr.now) }
{
    held_bound(expr)
}

fn held_bound(expr: &Expr) -> u64
    ensures { result ≡ spec.held (spec.bound (formula expr.now)) }
{
    match expr {
        Expr::Const(n) => u64::from(*n),
        Expr::Length(_) => MOST_ITEM_BYTES as u64,
        Expr::Plus(a, b) => held_bound(a).saturating_add(held_bound(b)).min(MOST),
        Expr::Minus(a, b) => held_bound(a).saturating_add(held_bound(b)).min(MOST),
    }
}

/// Whether no expression of the predicate has a greater bound than it may have.
pub fn is_bounded(pred: &Pred) -> bool
    ensures { result ≡ spec.is_bounded (test pred.now) }
{
    match pred {
        Pred::True => true,
        Pred::And(a, b) => is_bounded(a) && is_bounded(b),
        Pred::Not(a) => is_bounded(a),
        Pred::Equal(a, b) => are_bounded(a, b),
        Pred::Less(a, b) => are_bounded(a, b),
    }
}

fn are_bounded(a: &Expr, b: &Expr) -> bool
    ensures { result ≡ spec.are_bounded (formula a.now) (formula b.now) }
{
    held_bound(a) <= GREATEST_BOUND && held_bound(b) <= GREATEST_BOUND
}
