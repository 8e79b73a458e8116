//! The definition of all texts: tokens and grammar of contracts, lines of run files, and what is printed. The refusals
//! of files are defined here too.
#![tactic(auto)]

pub mod entry;
pub mod lexeme;
pub mod run_fault;
pub mod stop;
pub mod token;

pub use entry::Entry;
pub use lexeme::Lexeme;
pub use run_fault::{RunFault, RunLimit};
pub use stop::{Stop, TextFault};
pub use token::{Keyword, Kind, Symbol, Token};
