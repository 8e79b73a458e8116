//! Reads contract text: the advert that it spells, or the first place at which it spells none or exceeds a limit.
#![tactic(auto)]

mod adverts;
mod branch;
mod built;
pub mod error;
mod heading;
mod lexemes;
mod limits;
mod marks;
mod names;
mod pieces;
mod precondition;
mod predicate;

pub use adverts::read_advert;
pub use bm_syntax::Limit;
pub use error::ReaderError;
