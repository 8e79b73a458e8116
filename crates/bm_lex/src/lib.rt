//! Splits contract text into tokens, as the reader takes them. The first byte that begins no token is found here.
#![tactic(auto)]

pub mod error;
mod lexer;
mod prefix;

pub use error::LexError;
pub use lexer::tokens;
pub use spec_text::{Keyword, Kind, Symbol, Token};
