//! Writes an advert in its canonical text, which `check` prints. Each advert has exactly one, and reading it gives the
//! advert back.
#![tactic(auto)]

mod contract;
mod precondition;
mod predicate;
mod prefix;
pub mod printer;
mod text;

pub use prefix::{put_heading, put_names};
pub use printer::print_advert;
