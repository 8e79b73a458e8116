//! Names behind commas.

ghost use Rattle.std.specs.Prelude.{◌≡◌, true, Some, None};
ghost use Rattle.spec_text.specs.Reading.{token_by, comma_or, name_at, names_from};
ghost use Rattle.spec_text.specs.ReadContract.{ends_put, ends_reveal};
ghost use Rattle.bm_reader.specs.Gives.{Gives, ends_of};

use crate::error::ReadError;
use crate::pieces::{name_of, wrong};
use spec_data::Name;
use spec_text::{Keyword, Lexeme, Symbol};
use std::alloc::Global;

/// A comma, or `&` or the point behind the names of a put.
fn put_end_of(lexemes: &[Lexeme]) -> Result<(Option<bool>, &[Lexeme]), ReadError>
    ensures { Gives (λ x. (x.0, x.1.now)) result (token_by (comma_or ends_put) lexemes.now) }
{
    match lexemes {
        [Lexeme::Symbol(Symbol::Comma), rest @ ..] => Ok((None, rest)),
        [Lexeme::Symbol(Symbol::Ampersand), rest @ ..] => Ok((Some(true), rest)),
        [Lexeme::Symbol(Symbol::Dot), rest @ ..] => Ok((Some(false), rest)),
        _ => Err(wrong(lexemes)),
    }
}

/// A comma, or `if` or the point behind the names of a reveal.
fn reveal_end_of(lexemes: &[Lexeme]) -> Result<(Option<bool>, &[Lexeme]), ReadError>
    ensures { Gives (λ x. (x.0, x.1.now)) result (token_by (comma_or ends_reveal) lexemes.now) }
{
    match lexemes {
        [Lexeme::Symbol(Symbol::Comma), rest @ ..] => Ok((None, rest)),
        [Lexeme::Keyword(Keyword::If), rest @ ..] => Ok((Some(true), rest)),
        [Lexeme::Symbol(Symbol::Dot), rest @ ..] => Ok((Some(false), rest)),
        _ => Err(wrong(lexemes)),
    }
}

/// A comma, or what ends the names of a put or of a reveal.
fn end_of(put: bool, lexemes: &[Lexeme]) -> Result<(Option<bool>, &[Lexeme]), ReadError>
    ensures { Gives (λ x. (x.0, x.1.now)) result (token_by (comma_or (ends_of put)) lexemes.now) }
{
    if put {
        put_end_of(lexemes)
    } else {
        reveal_end_of(lexemes)
    }
}

/// A name, and what stands behind it.
#[tactic(auto, unfolding(spec_text::specs::Reading::name_at))]
fn name_and_end(
    put: bool,
    lexemes: &[Lexeme],
) -> Result<(&Name, Option<bool>, &[Lexeme]), ReadError>
    ensures { Gives (λ x. ((x.0.now, x.1), x.2.now)) result (name_at (ends_of put) lexemes.now) }
{
    let (name, rest) = name_of(lexemes)?;
    let (end, rest) = end_of(put, rest)?;
    Ok((name, end, rest))
}

/// The names of a put or of a reveal, and what ends them.
pub fn names_of(
    alloc: Global,
    put: bool,
    lexemes: &[Lexeme],
) -> Result<(Vec<Name>, bool, &[Lexeme]), ReadError>
    ensures { Gives (λ x. ((x.0.items, x.1), x.2.now)) result (names_from (ends_of put) true lexemes.now) }
{
    let mut names = Vec::new(alloc);
    let mut rest = lexemes;
    loop {
        let (name, end, after) = name_and_end(put, rest)?;
        names.push(*name)?;
        if let Some(end) = end {
            return Ok((names, end, after));
        }
        rest = after;
    }
}
