//! Names among others.

ghost use Rattle.std.specs.Prelude.{◌≡◌, ◌++◌};
ghost use Rattle.spec_data.specs.Lists as lists;
ghost use Rattle.spec_terms.specs.Bound.{lengths_of_test, lengths_of_formula};
ghost use Rattle.spec_terms.specs.Faults as spec;
ghost use Rattle.bm_syntax.specs.View.{formula, test};

use bm_syntax::{Expr, Name, Pred};

/// Whether no name stands twice.
pub fn are_different(names: &[Name]) -> bool
    ensures { result ≡ lists.are_different names.now }
{
    let mut left = names;
    while let Some((first, rest)) = left.split_first() {
        if rest.contains(first) {
            return false;
        }
        left = rest;
    }
    true
}

/// Whether the predicate takes only lengths of these names.
#[tactic(auto, using(crate::proofs::Among::are_among_append))]
pub fn lengths_are_among(pred: &Pred, names: &[Name]) -> bool
    ensures { result ≡ spec.are_among (lengths_of_test (test pred.now)) names.now }
{
    match pred {
        Pred::True => true,
        Pred::And(a, b) => lengths_are_among(a, names) && lengths_are_among(b, names),
        Pred::Not(a) => lengths_are_among(a, names),
        Pred::Equal(a, b) => two_are_among(a, b, names),
        Pred::Less(a, b) => two_are_among(a, b, names),
    }
}

#[tactic(auto, using(crate::proofs::Among::are_among_append))]
fn two_are_among(a: &Expr, b: &Expr, names: &[Name]) -> bool
    ensures { result ≡ spec.are_among (lengths_of_formula (formula a.now) ++ lengths_of_formula (formula b.now)) names.now }
{
    formula_is_among(a, names) && formula_is_among(b, names)
}

#[tactic(auto, using(crate::proofs::Among::are_among_append))]
fn formula_is_among(expr: &Expr, names: &[Name]) -> bool
    ensures { result ≡ spec.are_among (lengths_of_formula (formula expr.now)) names.now }
{
    match expr {
        Expr::Const(_) => true,
        Expr::Length(name) => names.contains(name),
        Expr::Plus(a, b) => formula_is_among(a, names) && formula_is_among(b, names),
        Expr::Minus(a, b) => formula_is_among(a, names) && formula_is_among(b, names),
    }
}
