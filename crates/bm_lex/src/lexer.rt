//! All tokens of a text.

ghost use Rattle.std.specs.Prelude.{◌≡◌, ℕ, List, length, IfOk, Ok, Err};
ghost use Rattle.std.specs.List.{AllByRecursion};
ghost use Rattle.spec_text.specs.Lexis.{tokens_of};
ghost use Rattle.bm_lex.specs.Prefixes.{Answers, LiesIn};

use crate::error::LexError;
use crate::prefix::{is_blank, prefix_of};
use spec_text::Token;
use std::alloc::Global;

/// The tokens of a text, in order. `BadByte` tells the first byte that begins no token.
pub fn tokens(alloc: Global, text: &[u8]) -> Result<Vec<Token>, LexError>
    ensures read { Answers result (tokens_of text.now) }
    ensures within { IfOk result (λ tokens. AllByRecursion (LiesIn (length text.now)) tokens.items) }
{
    let mut tokens = Vec::new(alloc);
    let mut place = 0;
    while place < text.len() {
        if is_blank(text[place]) {
            place += 1;
        } else {
            match prefix_of(&text[place..]) {
                None => return Err(LexError::BadByte(place)),
                Some((kind, more)) => {
                    let end = place + more + 1;
                    tokens.push(Token {
                        kind,
                        start: place,
                        end,
                    })?;
                    place = end;
                }
            }
        }
    }
    Ok(tokens)
}
