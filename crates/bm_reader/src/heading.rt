//! What stands before the point of a put or reveal.

ghost use Rattle.std.specs.Prelude.{◌≡◌};
ghost use Rattle.bm_syntax.specs.View.{test};
ghost use Rattle.spec_text.specs.ReadContract.{condition_at, reveals_at, put_reveals_at, puts_at};
ghost use Rattle.bm_reader.specs.Gives.{Gives};
ghost use Rattle.bm_reader.specs.HeadingView.{heading};

use crate::error::ReadError;
use crate::names::names_of;
use crate::pieces::{keyword_of, symbol_of};
use crate::predicate::test_of;
use bm_syntax::{Name, Pred};
use spec_text::{Keyword, Lexeme, Symbol};
use std::alloc::Global;

/// The nodes that may lie one under another in a predicate.
const MOST_NODES: u32 = 64;

/// The deposits that are put, the secrets that are revealed, and the condition.
#[derive(Drop)]
pub struct Heading {
    pub puts: Vec<Name>,
    pub reveals: Vec<Name>,
    pub test: Pred,
}

/// A condition and the point, or nothing behind the point.
#[tactic(auto, unfolding(spec_text::specs::ReadContract::condition_at))]
fn condition_of(
    alloc: Global,
    comes: bool,
    lexemes: &[Lexeme],
) -> Result<(Pred, &[Lexeme]), ReadError>
    ensures { Gives (λ x. (test x.0, x.1.now)) result (condition_at comes lexemes.now) }
{
    if !comes {
        return Ok((Pred::True, lexemes));
    }
    let (pred, rest) = test_of(alloc, MOST_NODES, lexemes)?;
    let rest = symbol_of(Symbol::Dot, rest)?;
    Ok((pred, rest))
}

/// What stands behind `reveal`, up to the point, where these deposits are put.
#[tactic(auto, unfolding(spec_text::specs::ReadContract::reveals_at))]
pub fn reveals_of(
    alloc: Global,
    puts: Vec<Name>,
    lexemes: &[Lexeme],
) -> Result<(Heading, &[Lexeme]), ReadError>
    ensures { Gives (λ x. (heading x.0, x.1.now)) result (reveals_at puts.items lexemes.now) }
{
    let (reveals, comes, rest) = names_of(alloc, false, lexemes)?;
    let (test, rest) = condition_of(alloc, comes, rest)?;
    let heading = Heading {
        puts,
        reveals,
        test,
    };
    Ok((heading, rest))
}

/// A reveal up to its point behind a put, or nothing behind the point.
#[tactic(auto, unfolding(spec_text::specs::ReadContract::put_reveals_at))]
fn put_reveals_of(
    alloc: Global,
    comes: bool,
    puts: Vec<Name>,
    lexemes: &[Lexeme],
) -> Result<(Heading, &[Lexeme]), ReadError>
    ensures { Gives (λ x. (heading x.0, x.1.now)) result (put_reveals_at comes puts.items lexemes.now) }
{
    if !comes {
        let heading = Heading {
            puts,
            reveals: Vec::new(alloc),
            test: Pred::True,
        };
        return Ok((heading, lexemes));
    }
    let rest = keyword_of(Keyword::Reveal, lexemes)?;
    reveals_of(alloc, puts, rest)
}

/// What stands behind `put`, up to the point.
#[tactic(auto, unfolding(spec_text::specs::ReadContract::puts_at))]
pub fn puts_of(alloc: Global, lexemes: &[Lexeme]) -> Result<(Heading, &[Lexeme]), ReadError>
    ensures { Gives (λ x. (heading x.0, x.1.now)) result (puts_at lexemes.now) }
{
    let (puts, comes, rest) = names_of(alloc, true, lexemes)?;
    put_reveals_of(alloc, comes, puts, rest)
}
