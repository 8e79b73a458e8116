//! Tells what a transaction is to a contract: the initial one, that of a branch, or none of its own. Runs ask it of
//! every transaction that reaches the ledger.
#![tactic(auto)]

mod chosen;
mod counting;
mod found;
mod same;

pub use chosen::{chosen_by, first_witness};
pub use counting::branches_at;
pub use found::{Active, Match, find, find_among, first_initial, is_initial};
pub use same::same_bare;
