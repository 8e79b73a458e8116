//! Readers of the single tokens of contracts.

ghost use Rattle.spec_data.specs.Ranges.{last_height};
ghost use Rattle.spec_text.specs.Reading.{token_by, a_number};
ghost use Rattle.spec_text.specs.ReadContract.{goes_on, a_value, parts_go_on};
ghost use Rattle.bm_reader.specs.Gives.{Gives};

use crate::error::ReadError;
use crate::pieces::{number_of, small_of, wrong};
use spec_data::{LAST_HEIGHT, MAX_MONEY};
use spec_text::{Lexeme, Symbol};

/// A plus is true, a bracket that closes is false.
pub fn goes_on_of(lexemes: &[Lexeme]) -> Result<(bool, &[Lexeme]), ReadError>
    ensures { Gives (λ x. (x.0, x.1.now)) result (token_by goes_on lexemes.now) }
{
    match lexemes {
        [Lexeme::Symbol(Symbol::Plus), rest @ ..] => Ok((true, rest)),
        [Lexeme::Symbol(Symbol::RightParen), rest @ ..] => Ok((false, rest)),
        _ => Err(wrong(lexemes)),
    }
}

/// A comma is true, a bracket that closes is false.
pub fn parts_go_on_of(lexemes: &[Lexeme]) -> Result<(bool, &[Lexeme]), ReadError>
    ensures { Gives (λ x. (x.0, x.1.now)) result (token_by parts_go_on lexemes.now) }
{
    match lexemes {
        [Lexeme::Symbol(Symbol::Comma), rest @ ..] => Ok((true, rest)),
        [Lexeme::Symbol(Symbol::RightBracket), rest @ ..] => Ok((false, rest)),
        _ => Err(wrong(lexemes)),
    }
}

/// The value of a part, in satoshi.
pub fn value_of(lexemes: &[Lexeme]) -> Result<(u64, &[Lexeme]), ReadError>
    ensures { Gives (λ x. (x.0, x.1.now)) result (token_by a_value lexemes.now) }
{
    number_of(MAX_MONEY, lexemes)
}

/// A block height.
pub fn height_of(lexemes: &[Lexeme]) -> Result<(u32, &[Lexeme]), ReadError>
    ensures { Gives (λ x. (x.0, x.1.now)) result (token_by (a_number last_height) lexemes.now) }
{
    small_of(LAST_HEIGHT, lexemes)
}
