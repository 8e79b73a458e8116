//! Readers of expressions and predicates.

ghost use Rattle.std.specs.Prelude.{◌≡◌, ◌≤◌, Bool, IfOk};
ghost use Rattle.bm_syntax.specs.View.{formula, test};
ghost use Rattle.spec_terms.specs.Term.{both, negation};
ghost use Rattle.spec_text.specs.Reading.{token_by, too_many};
ghost use Rattle.spec_text.specs.ReadTest.{begins_formula, begins_test, a_sign, a_relation, signed, related, constant_at};
ghost use Rattle.spec_text.specs.ReadTest.{length_at, formula_at, comparison_at, test_at};
ghost use Rattle.bm_reader.specs.Brackets.{sum_at, negation_at, conjunction_at};
ghost use Rattle.bm_reader.specs.Gives.{Gives};

use crate::error::ReadError;
use crate::pieces::{keyword_of, name_of, small_of, symbol_of, wrong};
use bm_syntax::{Expr, Pred};
use spec_data::OutOfMemory;
use spec_terms::Limit;
use spec_text::{Keyword, Lexeme, Stop, Symbol};
use std::alloc::{AllocError, Global};

const GREATEST_CONSTANT: u32 = 2_147_483_647;

// ---- expressions

/// Plus is true, minus false.
fn sign_of(lexemes: &[Lexeme]) -> Result<(bool, &[Lexeme]), ReadError>
    ensures { Gives (λ x. (x.0, x.1.now)) result (token_by a_sign lexemes.now) }
{
    match lexemes {
        [Lexeme::Symbol(Symbol::Plus), rest @ ..] => Ok((true, rest)),
        [Lexeme::Symbol(Symbol::Minus), rest @ ..] => Ok((false, rest)),
        _ => Err(wrong(lexemes)),
    }
}

/// Why reading stops, where an expression here is nested too deep.
fn too_deep_formula(lexemes: &[Lexeme]) -> Stop
    ensures { result ≡ too_many Limit.Depth begins_formula lexemes.now }
{
    match lexemes {
        [Lexeme::Number(number), ..] if *number <= u64::from(GREATEST_CONSTANT) => {
            Stop::Limit(Limit::Depth, lexemes.len())
        }
        [Lexeme::Number(_) | Lexeme::HugeNumber, ..] => Stop::Limit(Limit::Number, lexemes.len()),
        [Lexeme::Symbol(Symbol::Bar | Symbol::LeftParen), ..] => {
            Stop::Limit(Limit::Depth, lexemes.len())
        }
        _ => Stop::Syntax(lexemes.len()),
    }
}

#[tactic(auto, unfolding(spec_text::specs::ReadTest::constant_at))]
fn constant_of(lexemes: &[Lexeme]) -> Result<(Expr, &[Lexeme]), ReadError>
    ensures { Gives (λ x. (formula x.0, x.1.now)) result (constant_at lexemes.now) }
{
    let (number, rest) = small_of(GREATEST_CONSTANT, lexemes)?;
    Ok((Expr::Const(number), rest))
}

/// The length of a secret, behind its first bar.
#[tactic(auto, unfolding(spec_text::specs::ReadTest::length_at))]
fn length_of(lexemes: &[Lexeme]) -> Result<(Expr, &[Lexeme]), ReadError>
    ensures { Gives (λ x. (formula x.0, x.1.now)) result (length_at lexemes.now) }
{
    let (name, rest) = name_of(lexemes)?;
    let rest = symbol_of(Symbol::Bar, rest)?;
    Ok((Expr::Length(*name), rest))
}

fn boxed_expr(alloc: Global, expr: Expr) -> Result<Box<Expr>, OutOfMemory>
    ensures { IfOk result (λ b. b.value ≡ expr) }
{
    Box::new(alloc, expr).map_err(AllocError::from)
}

fn sum_or_difference(
    alloc: Global,
    plus: bool,
    left: Box<Expr>,
    right: Expr,
) -> Result<Expr, OutOfMemory>
    ensures { IfOk result (λ e. formula e ≡ signed plus (formula left.value) (formula right)) }
{
    let right = Box::new(alloc, right).map_err(AllocError::from)?;
    Ok(if plus {
        Expr::Plus(left, right)
    } else {
        Expr::Minus(left, right)
    })
}

/// Two expressions with their sign, behind the bracket that opens.
#[cycle(summing)]
#[tactic(auto, unfolding(crate::specs::Brackets::sum_at))]
fn sum_of(alloc: Global, depth: u32, lexemes: &[Lexeme]) -> Result<(Expr, &[Lexeme]), ReadError>
    ensures { Gives (λ x. (formula x.0, x.1.now)) result (sum_at (formula_at depth) lexemes.now) }
{
    let (left, rest) = formula_of(alloc, depth, lexemes)?;
    let left = boxed_expr(alloc, left)?;
    let (plus, rest) = sign_of(rest)?;
    let (right, rest) = formula_of(alloc, depth, rest)?;
    let sum = sum_or_difference(alloc, plus, left, right)?;
    let rest = symbol_of(Symbol::RightParen, rest)?;
    Ok((sum, rest))
}

/// An expression of at most so many nodes on one way.
#[cycle(summing)]
#[tactic(auto, unfolding(spec_text::specs::ReadTest::formula_at, crate::specs::Brackets::sum_at))]
fn formula_of(alloc: Global, depth: u32, lexemes: &[Lexeme]) -> Result<(Expr, &[Lexeme]), ReadError>
    ensures { Gives (λ x. (formula x.0, x.1.now)) result (formula_at depth lexemes.now) }
{
    match lexemes {
        [] => Err(wrong(lexemes)),
        [..] if depth == 0 => Err(ReadError::Stop(too_deep_formula(lexemes))),
        [Lexeme::Number(_) | Lexeme::HugeNumber, ..] => constant_of(lexemes),
        [Lexeme::Symbol(Symbol::Bar), rest @ ..] => length_of(rest),
        [Lexeme::Symbol(Symbol::LeftParen), rest @ ..] => sum_of(alloc, depth - 1, rest),
        _ => Err(wrong(lexemes)),
    }
}

// ---- predicates

/// `=` is true, `<` false.
fn relation_of(lexemes: &[Lexeme]) -> Result<(bool, &[Lexeme]), ReadError>
    ensures { Gives (λ x. (x.0, x.1.now)) result (token_by a_relation lexemes.now) }
{
    match lexemes {
        [Lexeme::Symbol(Symbol::Equal), rest @ ..] => Ok((true, rest)),
        [Lexeme::Symbol(Symbol::Less), rest @ ..] => Ok((false, rest)),
        _ => Err(wrong(lexemes)),
    }
}

/// Why reading stops, where a predicate here is nested too deep.
fn too_deep_test(lexemes: &[Lexeme]) -> Stop
    ensures { result ≡ too_many Limit.Depth begins_test lexemes.now }
{
    match lexemes {
        [Lexeme::Keyword(Keyword::True | Keyword::Not), ..] => {
            Stop::Limit(Limit::Depth, lexemes.len())
        }
        [Lexeme::Symbol(Symbol::LeftBracket), ..] => Stop::Limit(Limit::Depth, lexemes.len()),
        _ => too_deep_formula(lexemes),
    }
}

fn compared(equals: bool, left: Expr, right: Expr) -> Pred
    ensures { test result ≡ related equals (formula left) (formula right) }
{
    if equals {
        Pred::Equal(left, right)
    } else {
        Pred::Less(left, right)
    }
}

/// A comparison, with so many nodes under it.
#[tactic(auto, unfolding(spec_text::specs::ReadTest::comparison_at))]
fn comparison_of(
    alloc: Global,
    depth: u32,
    lexemes: &[Lexeme],
) -> Result<(Pred, &[Lexeme]), ReadError>
    ensures { Gives (λ x. (test x.0, x.1.now)) result (comparison_at depth lexemes.now) }
{
    let (left, rest) = formula_of(alloc, depth, lexemes)?;
    let (equals, rest) = relation_of(rest)?;
    let (right, rest) = formula_of(alloc, depth, rest)?;
    Ok((compared(equals, left, right), rest))
}

fn negated(alloc: Global, inner: Pred) -> Result<Pred, OutOfMemory>
    ensures { IfOk result (λ p. test p ≡ negation (test inner)) }
{
    let inner = Box::new(alloc, inner).map_err(AllocError::from)?;
    Ok(Pred::Not(inner))
}

fn boxed_pred(alloc: Global, pred: Pred) -> Result<Box<Pred>, OutOfMemory>
    ensures { IfOk result (λ b. b.value ≡ pred) }
{
    Box::new(alloc, pred).map_err(AllocError::from)
}

fn conjunction(alloc: Global, left: Box<Pred>, right: Pred) -> Result<Pred, OutOfMemory>
    ensures { IfOk result (λ p. test p ≡ both (test left.value) (test right)) }
{
    let right = Box::new(alloc, right).map_err(AllocError::from)?;
    Ok(Pred::And(left, right))
}

/// A predicate behind `not`.
#[cycle(testing)]
#[tactic(auto, unfolding(crate::specs::Brackets::negation_at))]
fn negation_of(
    alloc: Global,
    depth: u32,
    lexemes: &[Lexeme],
) -> Result<(Pred, &[Lexeme]), ReadError>
    ensures { Gives (λ x. (test x.0, x.1.now)) result (negation_at (test_at depth) lexemes.now) }
{
    let (inner, rest) = test_of(alloc, depth, lexemes)?;
    Ok((negated(alloc, inner)?, rest))
}

/// Two predicates with `and`, behind the bracket that opens.
#[cycle(testing)]
#[tactic(auto, unfolding(crate::specs::Brackets::conjunction_at))]
fn conjunction_of(
    alloc: Global,
    depth: u32,
    lexemes: &[Lexeme],
) -> Result<(Pred, &[Lexeme]), ReadError>
    ensures { Gives (λ x. (test x.0, x.1.now)) result (conjunction_at (test_at depth) lexemes.now) }
{
    let (left, rest) = test_of(alloc, depth, lexemes)?;
    let left = boxed_pred(alloc, left)?;
    let rest = keyword_of(Keyword::And, rest)?;
    let (right, rest) = test_of(alloc, depth, rest)?;
    let both = conjunction(alloc, left, right)?;
    let rest = symbol_of(Symbol::RightBracket, rest)?;
    Ok((both, rest))
}

/// A predicate of at most so many nodes on one way, expressions counted.
#[cycle(testing)]
#[tactic(auto, unfolding(spec_text::specs::ReadTest::test_at, crate::specs::Brackets::negation_at, crate::specs::Brackets::conjunction_at))]
pub fn test_of(
    alloc: Global,
    depth: u32,
    lexemes: &[Lexeme],
) -> Result<(Pred, &[Lexeme]), ReadError>
    ensures { Gives (λ x. (test x.0, x.1.now)) result (test_at depth lexemes.now) }
{
    match lexemes {
        [] => Err(wrong(lexemes)),
        [..] if depth == 0 => Err(ReadError::Stop(too_deep_test(lexemes))),
        [Lexeme::Keyword(Keyword::True), rest @ ..] => Ok((Pred::True, rest)),
        [Lexeme::Keyword(Keyword::Not), rest @ ..] => negation_of(alloc, depth - 1, rest),
        [Lexeme::Symbol(Symbol::LeftBracket), rest @ ..] => conjunction_of(alloc, depth - 1, rest),
        _ => comparison_of(alloc, depth - 1, lexemes),
    }
}
