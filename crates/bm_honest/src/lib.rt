//! The gate before an honest party's signature on the initial transaction. It says which endorsement is the first that
//! is missing, since whoever signs before all are there may lose its deposit.
#![tactic(auto)]

mod branches;
mod endorsing;
mod gate;
mod keys;
mod known;
mod needs;

pub use bm_book::Book;
pub use bm_compile::Compiled;
pub use bm_hash::Hash32;
pub use bm_keys::branch_key;
pub use bm_wellformed::Checked;
pub use endorsing::{Pair, endorsing_pairs};
pub use gate::{Gate, may};
pub use keys::deposit_key;
pub use known::known_key;
pub use spec_compiler::Prepared;
pub use spec_data::{Name, OutOfMemory};
pub use spec_terms::{Path, PathStep};
