//! The definition of what a contract compiles to: its scripts, witnesses, transactions and digests, and the
//! endorsements that have to come before the start.
#![tactic(auto)]

pub mod prepared;
pub mod unsigned;

pub use prepared::Prepared;
pub use unsigned::{Spent, Unsigned};
