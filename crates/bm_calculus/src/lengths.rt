//! Predicates of the lengths of the secrets that a branch reveals.

ghost use Rattle.std.specs.Prelude.{◌≡◌, ◌≤◌, ◌*◌, pos, ◌≤ℤ◌, neg_ℤ, true};
ghost use Rattle.spec_terms.specs.Bound.{bound, is_bounded, greatest_bound};
ghost use Rattle.spec_terms.specs.Core.{reveals_of, test_of};
ghost use Rattle.spec_terms.specs.Value as spec;
ghost use Rattle.spec_calculus.specs.Branches.{secret_lengths};
ghost use Rattle.bm_syntax.specs.View.{formula, test as test_view, guarded};

use crate::secrets::secret_length;
use bm_syntax::{Expr, Guarded, Pred};
use spec_calculus::Committed;
use spec_data::Name;
use spec_terms::Pre;
use std::marker::Model;

// The secrets that a branch of a contract reveals, which clauses see as the list of their lengths.
#[derive(Drop)]
struct Lengths<'a> {
    committed: &'a [Committed],
    contract: u32,
    pre: &'a [Pre],
    reveals: &'a [Name],
}

impl<'a> Model for Lengths<'a> {
    ghost use Rattle.std.specs.Prelude.{List, ℕ};
    ghost use Rattle.spec_calculus.specs.Branches.{secret_lengths};

    ghost Value = { List (List ℕ × ℕ) };

    ghost view = { λ a. secret_lengths a.committed.now a.contract a.pre.now a.reveals.now };
}

impl<'a> Lengths<'a> {
    fn length(&self, name: &Name) -> u32
        ensures { result ≡ spec.length_in self.now name.now }
    {
        revealed_length(self.committed, self.contract, self.pre, self.reveals, name)
    }
}

// The length of the secret of this name, 0 where it isn't revealed.
fn revealed_length(
    committed: &[Committed],
    contract: u32,
    pre: &[Pre],
    reveals: &[Name],
    name: &Name,
) -> u32
    ensures { result ≡ spec.length_in (secret_lengths committed.now contract pre.now reveals.now) name.now }
{
    for revealed in reveals {
        if *revealed == *name {
            return secret_length(committed, contract, pre, revealed);
        }
    }
    0
}

// The value of an expression. Lengths are below 2^32, so it is within 2^32 times the bound.
fn number(expr: &Expr, lengths: &Lengths<'_>) -> i64
    requires bounded { bound (formula expr.now) ≤ greatest_bound }
    ensures exact { result ≡ spec.value lengths.now (formula expr.now) }
    ensures low { neg_ℤ (pos (bound (formula expr.now) * 4294967296)) ≤ℤ result }
    ensures high { result ≤ℤ pos (bound (formula expr.now) * 4294967296) }
{
    match expr {
        Expr::Const(n) => i64::from(*n),
        Expr::Length(name) => i64::from(lengths.length(name)),
        Expr::Plus(a, b) => number(a, lengths) + number(b, lengths),
        Expr::Minus(a, b) => number(a, lengths) - number(b, lengths),
    }
}

// Whether the predicate is true of the lengths, over whole numbers.
#[tactic(auto, using(crate::proofs::Bools::second_true))]
fn holds(pred: &Pred, lengths: &Lengths<'_>) -> bool
    requires bounded { is_bounded (test_view pred.now) ≡ true }
    ensures { result ≡ spec.holds lengths.now (test_view pred.now) }
{
    match pred {
        Pred::True => true,
        Pred::And(a, b) => {
            let first = holds(a, lengths);
            let second = holds(b, lengths);
            first && second
        }
        Pred::Not(a) => !holds(a, lengths),
        Pred::Equal(a, b) => number(a, lengths) == number(b, lengths),
        Pred::Less(a, b) => number(a, lengths) < number(b, lengths),
    }
}

/// Whether the predicate of a core is true of the lengths of the secrets that it reveals.
pub fn is_true(committed: &[Committed], contract: u32, pre: &[Pre], core: &Guarded) -> bool
    requires bounded { is_bounded (test_of (guarded core.now)) ≡ true }
    ensures { result ≡
        spec.holds (secret_lengths committed.now contract pre.now (reveals_of (guarded core.now)))
        (test_of (guarded core.now)) }
{
    match core {
        Guarded::PutReveal { reveals, test, .. } => {
            let lengths = Lengths {
                committed,
                contract,
                pre,
                reveals,
            };
            holds(test, &lengths)
        }
        _ => true,
    }
}
