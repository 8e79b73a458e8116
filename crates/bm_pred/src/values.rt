//! Whether a predicate is true of given lengths.

ghost use Rattle.std.specs.Prelude.{◌≡◌, ◌≤◌, pos, ◌≤ℤ◌, neg_ℤ, All, true};
ghost use Rattle.spec_data.specs.Ranges.{most_item_bytes};
ghost use Rattle.spec_terms.specs.Value as spec;
ghost use Rattle.spec_terms.specs.Bound.{bound, is_bounded, greatest_bound};
ghost use Rattle.bm_pred.specs.Within.{IsWithin};
ghost use Rattle.bm_syntax.specs.View.{formula, test};

use bm_syntax::{Expr, Name, Pred};

/// Whether the predicate is true where the list gives each name its length. The value of an expression is taken over whole numbers.
/// A name without an entry has the length 0, and of two entries the first counts.
#[tactic(auto, using(crate::proofs::WithinLemmas::is_within))]
pub fn value(pred: &Pred, lengths: &[(Name, u32)]) -> bool
    requires short { All (λ entry. entry.1 ≤ most_item_bytes) lengths.now }
    requires bounded { is_bounded (test pred.now) ≡ true }
    ensures { result ≡ spec.holds lengths.now (test pred.now) }
{
    holds(pred, lengths)
}

fn holds(pred: &Pred, lengths: &[(Name, u32)]) -> bool
    requires short { All (λ entry. entry.1 ≤ most_item_bytes) lengths.now }
    requires bounded { IsWithin (test pred.now) }
    ensures { result ≡ spec.holds lengths.now (test pred.now) }
{
    match pred {
        Pred::True => true,
        Pred::And(a, b) => holds(a, lengths) && holds(b, lengths),
        Pred::Not(a) => !holds(a, lengths),
        Pred::Equal(a, b) => number(a, lengths) == number(b, lengths),
        Pred::Less(a, b) => number(a, lengths) < number(b, lengths),
    }
}

// The value of an expression.
fn number(expr: &Expr, lengths: &[(Name, u32)]) -> i64
    requires short { All (λ entry. entry.1 ≤ most_item_bytes) lengths.now }
    requires bounded { bound (formula expr.now) ≤ greatest_bound }
    ensures exact { result ≡ spec.value lengths.now (formula expr.now) }
    ensures low { neg_ℤ (pos (bound (formula expr.now))) ≤ℤ result }
    ensures high { result ≤ℤ pos (bound (formula expr.now)) }
{
    match expr {
        Expr::Const(n) => i64::from(*n),
        Expr::Length(name) => i64::from(length_in(lengths, name)),
        Expr::Plus(a, b) => number(a, lengths) + number(b, lengths),
        Expr::Minus(a, b) => number(a, lengths) - number(b, lengths),
    }
}

// The length that the list gives the name, 0 without one.
fn length_in(lengths: &[(Name, u32)], name: &Name) -> u32
    requires short { All (λ entry. entry.1 ≤ most_item_bytes) lengths.now }
    ensures exact { result ≡ spec.length_in lengths.now name.now }
    ensures short { result ≤ most_item_bytes }
{
    for (known, length) in lengths {
        if *known == *name {
            return *length;
        }
    }
    0
}
