//! What the tokens of a text say, and where they stand.

ghost use Rattle.std.specs.Prelude.{◌≡◌, length, IfOk};
ghost use Rattle.std.specs.List.{AllByRecursion};
ghost use Rattle.spec_text.specs.Lexeme.{lexeme_in, lexemes, name_or_long, fits_name};
ghost use Rattle.spec_text.specs.ReadAdvert.{place_of};
ghost use Rattle.bm_lex.specs.Prefixes.{LiesIn};

use spec_data::{Name, OutOfMemory};
use spec_text::{Kind, Lexeme, Token};
use std::alloc::Global;

/// A name of these bytes, or one that is too long.
fn name_or_long(bytes: &[u8]) -> Lexeme
    ensures { result ≡ name_or_long bytes.now (fits_name bytes.now) }
{
    match Name::new(bytes) {
        Some(name) => Lexeme::Name(name),
        None => Lexeme::LongName,
    }
}

/// What a token of the text says.
fn lexeme_of(text: &[u8], token: &Token) -> Lexeme
    requires { LiesIn (length text.now) token.now }
    ensures { result ≡ lexeme_in text.now token.now }
{
    match token.kind {
        Kind::Keyword(keyword) => Lexeme::Keyword(keyword),
        Kind::Symbol(symbol) => Lexeme::Symbol(symbol),
        Kind::Name => name_or_long(&text[token.start..token.end]),
        Kind::LongName => Lexeme::LongName,
        Kind::Number(number) => Lexeme::Number(number),
        Kind::HugeNumber => Lexeme::HugeNumber,
    }
}

/// What the tokens of the text say, in order.
pub fn lexemes_of(alloc: Global, text: &[u8], tokens: &[Token]) -> Result<Vec<Lexeme>, OutOfMemory>
    requires { AllByRecursion (LiesIn (length text.now)) tokens.now }
    ensures { IfOk result (λ said. said.items ≡ lexemes text.now tokens.now) }
{
    let mut said = Vec::with_capacity(alloc, tokens.len())?;
    for token in tokens {
        said.push(lexeme_of(text, token))?;
    }
    Ok(said)
}

/// Where the token stands from which on so many are left, which is the end of the text where none is.
pub fn place_of(text: &[u8], tokens: &[Token], left: usize) -> usize
    ensures { result ≡ place_of text.now tokens.now left }
{
    match tokens.get(tokens.len().saturating_sub(left)) {
        Some(token) => token.start,
        None => text.len(),
    }
}
