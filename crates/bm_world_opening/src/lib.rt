//! Opens the world of a run: the header's deposits are on the ledger, and nothing has been said or signed.
#![tactic(auto)]

mod opening;

pub use opening::open_board;
