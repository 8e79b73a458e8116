//! What a token says.

use crate::token::{Keyword, Symbol};
use spec_data::Name;

/// A token with what it says. A name and a number that exceed what can be held say nothing more.
#[derive(Clone, Copy)]
pub enum Lexeme {
    Keyword(Keyword),
    Symbol(Symbol),
    Name(Name),
    LongName,
    Number(u64),
    HugeNumber,
}
