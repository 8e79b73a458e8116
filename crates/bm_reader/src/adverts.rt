//! The advert that a text spells.

ghost use Rattle.std.specs.Prelude.{◌≡◌, length};
ghost use Rattle.std.specs.List.{AllByRecursion};
ghost use Rattle.bm_lex.specs.Prefixes.{LiesIn};
ghost use Rattle.spec_text.specs.Lexeme.{lexemes};
ghost use Rattle.spec_text.specs.ReadAdvert.{advert_at, advert_of_all, answer_of, read_answer};
ghost use Rattle.bm_reader.specs.Gives.{Gives, Answers};
ghost use Rattle.bm_reader.specs.Refusals.{refusal};

use crate::branch::choice_of;
use crate::error::{ReadError, ReaderError};
use crate::lexemes::{lexemes_of, place_of};
use crate::pieces::{symbol_of, wrong};
use crate::precondition::{entries_of, fee_of};
use bm_lex::tokens;
use bm_syntax::Advert;
use spec_text::{Lexeme, Stop, Symbol, Token};
use std::alloc::Global;

/// The guarded terms one under another.
const MOST_DEPTH: u32 = 64;

/// The branches of the whole contract.
const MOST_BRANCHES: u32 = 512;

/// The advert at the front.
#[tactic(auto, unfolding(spec_text::specs::ReadAdvert::advert_at))]
fn advert_of(alloc: Global, lexemes: &[Lexeme]) -> Result<(Advert, &[Lexeme]), ReadError>
    ensures { Gives (λ x. (x.0, x.1.now)) result (advert_at lexemes.now) }
{
    let rest = symbol_of(Symbol::LeftBrace, lexemes)?;
    let (pre, rest) = entries_of(alloc, rest)?;
    let (fee, rest) = fee_of(rest)?;
    let (root, _, rest) = choice_of(alloc, MOST_DEPTH, MOST_BRANCHES, rest)?;
    Ok((Advert { pre, fee, root }, rest))
}

/// The advert that the tokens are.
#[tactic(auto, unfolding(spec_text::specs::ReadAdvert::advert_of_all))]
fn whole_advert_of(alloc: Global, lexemes: &[Lexeme]) -> Result<Advert, ReadError>
    ensures { Gives (λ a. a) result (advert_of_all lexemes.now) }
{
    let (advert, rest) = advert_of(alloc, lexemes)?;
    if !rest.is_empty() {
        return Err(wrong(rest));
    }
    Ok(advert)
}

/// Why the text is refused, by where the reading of its tokens stopped.
fn refusal_of(text: &[u8], tokens: &[Token], error: ReadError) -> ReaderError
    ensures { result ≡ refusal text.now tokens.now error }
{
    match error {
        ReadError::Memory => ReaderError::Memory,
        ReadError::Stop(Stop::Syntax(left)) => ReaderError::Syntax(place_of(text, tokens, left)),
        ReadError::Stop(Stop::Limit(limit, left)) => {
            ReaderError::Limit(limit, place_of(text, tokens, left))
        }
    }
}

/// The advert that the tokens of the text are, or why they are none.
fn answer_of(alloc: Global, text: &[u8], tokens: &[Token]) -> Result<Advert, ReaderError>
    requires { AllByRecursion (LiesIn (length text.now)) tokens.now }
    ensures { Answers result (answer_of text.now tokens.now (advert_of_all (lexemes text.now tokens.now))) }
{
    let lexemes = lexemes_of(alloc, text, tokens)?;
    match whole_advert_of(alloc, &lexemes) {
        Ok(advert) => Ok(advert),
        Err(error) => Err(refusal_of(text, tokens, error)),
    }
}

/// The advert that the text spells. A refusal has its place in bytes: the first byte that begins no token, else
/// the first token with which no advert goes on or a limit is exceeded, or the text's length where a token is
/// missing at the end.
#[tactic(auto, unfolding(spec_text::specs::ReadAdvert::read_answer))]
pub fn read_advert(alloc: Global, text: &[u8]) -> Result<Advert, ReaderError>
    ensures { Answers result (read_answer text.now) }
{
    let tokens = tokens(alloc, text)?;
    answer_of(alloc, text, &tokens)
}
