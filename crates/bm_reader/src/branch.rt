//! Readers of contracts and branches.
//!
//! Each reader is told how many guarded terms may lie one under another here, its `depth`, and how many branches
//! the contract may still have, its `budget`; it answers how many may still come behind what it read.

ghost use Rattle.std.specs.Prelude.{◌≡◌};
ghost use Rattle.bm_syntax.specs.View.{guarded, contract, choice_view, parts_view};
ghost use Rattle.spec_text.specs.ReadContract.{branch_limit as limit_of_branch, allowed_branch, branches_at, one_branch_at};
ghost use Rattle.spec_text.specs.ReadContract.{choice_with, parts_at, auth_at, after_at, headed_at, put_at, reveal_at};
ghost use Rattle.spec_text.specs.ReadContract.{withdraw_at, split_at, branch_at};
ghost use Rattle.bm_reader.specs.Gives.{Gives};
ghost use Rattle.bm_reader.specs.HeadingView.{heading};

use crate::built::{
    boxed_after, boxed_auth, boxed_branch, boxed_put_reveal, branch_before, one_branch, one_part,
    part_before, split_among, unboxed_branch,
};
use crate::error::ReadError;
use crate::heading::{Heading, puts_of, reveals_of};
use crate::limits::{branch_limit, too_many_branches, too_many_parts};
use crate::marks::{goes_on_of, height_of, parts_go_on_of, value_of};
use crate::pieces::{above, name_of, symbol_of, wrong};
use bm_syntax::{Contract, Guarded, Limit, Name, Part};
use spec_text::{Keyword, Lexeme, Symbol};
use std::alloc::Global;

/// The branches of one choice.
const MOST_CHOICES: u32 = 32;

/// The parts of one split.
const MOST_PARTS: u32 = 64;

/// A contract: branches in brackets, or one branch.
#[cycle(reading)]
#[tactic(auto, unfolding(spec_text::specs::ReadContract::choice_with))]
pub fn choice_of(
    alloc: Global,
    depth: u32,
    budget: u32,
    lexemes: &[Lexeme],
) -> Result<(Contract, u32, &[Lexeme]), ReadError>
    ensures { Gives (λ x. ((contract x.0, x.1), x.2.now)) result (choice_with (branch_at depth) depth budget lexemes.now) }
{
    match lexemes {
        [] => Err(wrong(lexemes)),
        [Lexeme::Symbol(Symbol::LeftParen), rest @ ..] => {
            let (branches, left, rest) = branches_of(alloc, depth, MOST_CHOICES, budget, rest)?;
            Ok((Contract { branches }, left, rest))
        }
        _ => {
            let (branches, left, rest) = one_branch_of(alloc, depth, budget, lexemes)?;
            Ok((Contract { branches }, left, rest))
        }
    }
}

/// One branch.
#[cycle(reading)]
#[tactic(auto, unfolding(spec_text::specs::ReadContract::one_branch_at))]
fn one_branch_of(
    alloc: Global,
    depth: u32,
    budget: u32,
    lexemes: &[Lexeme],
) -> Result<(Vec<Guarded>, u32, &[Lexeme]), ReadError>
    ensures { Gives (λ x. ((choice_view x.0.items, x.1), x.2.now)) result (one_branch_at (branch_at depth) depth budget lexemes.now) }
{
    let (only, left, rest) = allowed_of(alloc, depth, budget, MOST_CHOICES, lexemes)?;
    Ok((one_branch(alloc, only)?, left, rest))
}

/// Branches up to the bracket that closes, of which at most so many may come.
#[cycle(reading)]
#[tactic(auto, unfolding(spec_text::specs::ReadContract::branches_at))]
fn branches_of(
    alloc: Global,
    depth: u32,
    more: u32,
    budget: u32,
    lexemes: &[Lexeme],
) -> Result<(Vec<Guarded>, u32, &[Lexeme]), ReadError>
    ensures { Gives (λ x. ((choice_view x.0.items, x.1), x.2.now)) result (branches_at (branch_at depth) depth more budget lexemes.now) }
{
    let (first, left, rest) = allowed_of(alloc, depth, budget, more, lexemes)?;
    let first = boxed_branch(alloc, first)?;
    if more == 0 {
        return Ok((unboxed_branch(alloc, first)?, left, rest));
    }
    let (goes_on, rest) = goes_on_of(rest)?;
    if !goes_on {
        return Ok((unboxed_branch(alloc, first)?, left, rest));
    }
    let (others, left, rest) = branches_of(alloc, depth, more - 1, left, rest)?;
    Ok((branch_before(first, others)?, left, rest))
}

/// A branch of a choice, where one may come.
#[cycle(reading)]
fn allowed_of(
    alloc: Global,
    depth: u32,
    budget: u32,
    more: u32,
    lexemes: &[Lexeme],
) -> Result<(Guarded, u32, &[Lexeme]), ReadError>
    ensures { Gives (λ x. ((guarded x.0, x.1), x.2.now)) result
        (allowed_branch (branch_at depth) (limit_of_branch depth budget more) budget lexemes.now) }
{
    match branch_limit(depth, budget, more) {
        Some(limit) => Err(ReadError::Stop(too_many_branches(limit, lexemes))),
        None => guarded_of(alloc, depth, budget - 1, lexemes),
    }
}

/// A guarded term.
#[cycle(reading)]
#[tactic(auto, unfolding(spec_text::specs::ReadContract::branch_at))]
fn guarded_of(
    alloc: Global,
    depth: u32,
    budget: u32,
    lexemes: &[Lexeme],
) -> Result<(Guarded, u32, &[Lexeme]), ReadError>
    ensures { Gives (λ x. ((guarded x.0, x.1), x.2.now)) result (branch_at depth budget lexemes.now) }
{
    match lexemes {
        [] => Err(wrong(lexemes)),
        [..] if depth == 0 => Err(ReadError::Stop(too_many_branches(Limit::Depth, lexemes))),
        [Lexeme::Name(party), rest @ ..] => auth_of(alloc, depth - 1, party, budget, rest),
        [Lexeme::LongName, ..] => Err(above(Limit::Name, lexemes)),
        [Lexeme::Keyword(Keyword::After), rest @ ..] => after_of(alloc, depth - 1, budget, rest),
        [Lexeme::Keyword(Keyword::Put), rest @ ..] => put_of(alloc, depth - 1, budget, rest),
        [Lexeme::Keyword(Keyword::Reveal), rest @ ..] => reveal_of(alloc, depth - 1, budget, rest),
        [Lexeme::Keyword(Keyword::Withdraw), rest @ ..] => withdraw_of(budget, rest),
        [Lexeme::Keyword(Keyword::Split), rest @ ..] => split_of(alloc, depth - 1, budget, rest),
        _ => Err(wrong(lexemes)),
    }
}

/// A guarded term behind a name, from the colon on.
#[cycle(reading)]
#[tactic(auto, unfolding(spec_text::specs::ReadContract::auth_at))]
fn auth_of<'a>(
    alloc: Global,
    depth: u32,
    party: &Name,
    budget: u32,
    lexemes: &'a [Lexeme],
) -> Result<(Guarded, u32, &'a [Lexeme]), ReadError>
    ensures { Gives (λ x. ((guarded x.0, x.1), x.2.now)) result (auth_at (branch_at depth) party.now budget lexemes.now) }
{
    let rest = symbol_of(Symbol::Colon, lexemes)?;
    let (body, left, rest) = guarded_of(alloc, depth, budget, rest)?;
    Ok((boxed_auth(alloc, party, body)?, left, rest))
}

/// A height, and the guarded term behind its colon.
#[cycle(reading)]
#[tactic(auto, unfolding(spec_text::specs::ReadContract::after_at))]
fn after_of(
    alloc: Global,
    depth: u32,
    budget: u32,
    lexemes: &[Lexeme],
) -> Result<(Guarded, u32, &[Lexeme]), ReadError>
    ensures { Gives (λ x. ((guarded x.0, x.1), x.2.now)) result (after_at (branch_at depth) budget lexemes.now) }
{
    let (height, rest) = height_of(lexemes)?;
    let rest = symbol_of(Symbol::Colon, rest)?;
    let (body, left, rest) = guarded_of(alloc, depth, budget, rest)?;
    Ok((boxed_after(alloc, height, body)?, left, rest))
}

/// The contract behind the point.
#[cycle(reading)]
#[tactic(auto, unfolding(spec_text::specs::ReadContract::headed_at))]
fn headed_of(
    alloc: Global,
    depth: u32,
    head: Heading,
    budget: u32,
    lexemes: &[Lexeme],
) -> Result<(Guarded, u32, &[Lexeme]), ReadError>
    ensures { Gives (λ x. ((guarded x.0, x.1), x.2.now)) result
        (headed_at (choice_with (branch_at depth) depth) (heading head) budget lexemes.now) }
{
    let (next, left, rest) = choice_of(alloc, depth, budget, lexemes)?;
    Ok((boxed_put_reveal(alloc, head, next)?, left, rest))
}

/// What follows `put`.
#[cycle(reading)]
#[tactic(auto, unfolding(spec_text::specs::ReadContract::put_at))]
fn put_of(
    alloc: Global,
    depth: u32,
    budget: u32,
    lexemes: &[Lexeme],
) -> Result<(Guarded, u32, &[Lexeme]), ReadError>
    ensures { Gives (λ x. ((guarded x.0, x.1), x.2.now)) result (put_at (choice_with (branch_at depth) depth) budget lexemes.now) }
{
    let (head, rest) = puts_of(alloc, lexemes)?;
    headed_of(alloc, depth, head, budget, rest)
}

/// What follows `reveal`.
#[cycle(reading)]
#[tactic(auto, unfolding(spec_text::specs::ReadContract::reveal_at))]
fn reveal_of(
    alloc: Global,
    depth: u32,
    budget: u32,
    lexemes: &[Lexeme],
) -> Result<(Guarded, u32, &[Lexeme]), ReadError>
    ensures { Gives (λ x. ((guarded x.0, x.1), x.2.now)) result (reveal_at (choice_with (branch_at depth) depth) budget lexemes.now) }
{
    let (head, rest) = reveals_of(alloc, Vec::new(alloc), lexemes)?;
    headed_of(alloc, depth, head, budget, rest)
}

/// What follows `withdraw`.
#[tactic(auto, unfolding(spec_text::specs::ReadContract::withdraw_at))]
fn withdraw_of(budget: u32, lexemes: &[Lexeme]) -> Result<(Guarded, u32, &[Lexeme]), ReadError>
    ensures { Gives (λ x. ((guarded x.0, x.1), x.2.now)) result (withdraw_at budget lexemes.now) }
{
    let (party, rest) = name_of(lexemes)?;
    Ok((Guarded::Withdraw { party: *party }, budget, rest))
}

/// What follows `split`.
#[cycle(reading)]
#[tactic(auto, unfolding(spec_text::specs::ReadContract::split_at))]
fn split_of(
    alloc: Global,
    depth: u32,
    budget: u32,
    lexemes: &[Lexeme],
) -> Result<(Guarded, u32, &[Lexeme]), ReadError>
    ensures { Gives (λ x. ((guarded x.0, x.1), x.2.now)) result (split_at (choice_with (branch_at depth) depth) budget lexemes.now) }
{
    let rest = symbol_of(Symbol::LeftBracket, lexemes)?;
    let (parts, left, rest) = parts_of(alloc, depth, MOST_PARTS, budget, rest)?;
    Ok((split_among(parts), left, rest))
}

/// Parts up to the bracket that closes, of which at most so many may come.
#[cycle(reading)]
#[tactic(auto, unfolding(spec_text::specs::ReadContract::parts_at))]
fn parts_of(
    alloc: Global,
    depth: u32,
    more: u32,
    budget: u32,
    lexemes: &[Lexeme],
) -> Result<(Vec<Part>, u32, &[Lexeme]), ReadError>
    ensures { Gives (λ x. ((parts_view x.0.items, x.1), x.2.now)) result
        (parts_at (choice_with (branch_at depth) depth) more budget lexemes.now) }
{
    if more == 0 {
        return Err(ReadError::Stop(too_many_parts(lexemes)));
    }
    let (value, rest) = value_of(lexemes)?;
    let rest = symbol_of(Symbol::Arrow, rest)?;
    let (next, left, rest) = choice_of(alloc, depth, budget, rest)?;
    let (goes_on, rest) = parts_go_on_of(rest)?;
    if !goes_on {
        return Ok((one_part(alloc, value, next)?, left, rest));
    }
    let (others, left, rest) = parts_of(alloc, depth, more - 1, left, rest)?;
    Ok((part_before(value, next, others)?, left, rest))
}
