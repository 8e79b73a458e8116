//! A compiled contract's transactions by name, found by their bytes without witnesses. For `audit` it says which one a
//! given transaction is, which ones a file doesn't have, and which signatures they lack.
#![tactic(auto)]

mod absence;
mod catalog;
mod entries;
mod keys;
mod lacking;
mod numbers;
mod signers;

pub use absence::absent;
pub use catalog::Catalog;
pub use entries::{Candidate, candidates};
pub use lacking::missing;
