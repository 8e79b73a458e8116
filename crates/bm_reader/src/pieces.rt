//! Readers of one token.

ghost use Rattle.std.specs.Prelude.{◌≡◌, ◌≤◌, ℕ, length, IfOk};
ghost use Rattle.spec_text.specs.Reading.{token_by, a_name, a_number, a_symbol, a_keyword};
ghost use Rattle.bm_reader.specs.Gives.{Gives};

use crate::error::ReadError;
use spec_data::Name;
use spec_terms::Limit;
use spec_text::{Keyword, Lexeme, Stop, Symbol};

/// Stops at the first of these tokens, which is wrong there, or at their end.
pub fn wrong(lexemes: &[Lexeme]) -> ReadError
    ensures { result ≡ ReadError.Stop (Stop.Syntax (length lexemes.now)) }
{
    ReadError::Stop(Stop::Syntax(lexemes.len()))
}

/// Stops at the first of these tokens, which exceeds a limit.
pub fn above(limit: Limit, lexemes: &[Lexeme]) -> ReadError
    ensures { result ≡ ReadError.Stop (Stop.Limit limit (length lexemes.now)) }
{
    ReadError::Stop(Stop::Limit(limit, lexemes.len()))
}

/// The name that the tokens begin with, and those behind it.
pub fn name_of(lexemes: &[Lexeme]) -> Result<(&Name, &[Lexeme]), ReadError>
    ensures { Gives (λ x. (x.0.now, x.1.now)) result (token_by a_name lexemes.now) }
{
    match lexemes {
        [Lexeme::Name(name), rest @ ..] => Ok((name, rest)),
        [Lexeme::LongName, ..] => Err(above(Limit::Name, lexemes)),
        _ => Err(wrong(lexemes)),
    }
}

/// A number of at most so much.
pub fn number_of(most: u64, lexemes: &[Lexeme]) -> Result<(u64, &[Lexeme]), ReadError>
    ensures gives { Gives (λ x. (x.0, x.1.now)) result (token_by (a_number most) lexemes.now) }
    ensures most { IfOk result (λ x. x.0 ≤ most) }
{
    match lexemes {
        [Lexeme::Number(number), rest @ ..] if *number <= most => Ok((*number, rest)),
        [Lexeme::Number(_) | Lexeme::HugeNumber, ..] => Err(above(Limit::Number, lexemes)),
        _ => Err(wrong(lexemes)),
    }
}

/// The number, where it fits 32 bits.
pub fn small_of(most: u32, lexemes: &[Lexeme]) -> Result<(u32, &[Lexeme]), ReadError>
    ensures { Gives (λ x. (x.0, x.1.now)) result (token_by (a_number most) lexemes.now) }
{
    let (number, rest) = number_of(u64::from(most), lexemes)?;
    Ok((number as u32, rest))
}

/// The tokens behind this symbol, which they begin with.
pub fn symbol_of(symbol: Symbol, lexemes: &[Lexeme]) -> Result<&[Lexeme], ReadError>
    ensures { Gives (λ x. (tt, x.now)) result (token_by (a_symbol symbol) lexemes.now) }
{
    match lexemes {
        [Lexeme::Symbol(found), rest @ ..] if *found == symbol => Ok(rest),
        _ => Err(wrong(lexemes)),
    }
}

/// The tokens behind this keyword, which they begin with.
pub fn keyword_of(keyword: Keyword, lexemes: &[Lexeme]) -> Result<&[Lexeme], ReadError>
    ensures { Gives (λ x. (tt, x.now)) result (token_by (a_keyword keyword) lexemes.now) }
{
    match lexemes {
        [Lexeme::Keyword(found), rest @ ..] if *found == keyword => Ok(rest),
        _ => Err(wrong(lexemes)),
    }
}
