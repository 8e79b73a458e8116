//! The state of a run except for its list of hashed messages: accounts, contracts, signatures, ledger. Here every
//! transaction reaches the ledger.
#![tactic(auto)]

mod accounts;
mod board;
mod branches;
mod pending_change;
mod reaching;

pub use accounts::{Account, accounts_of, declared_account, owner_of_script};
pub use board::{Board, is_name_among};
pub use pending_change::{Appending, Change, PendingChange, Promising, Purpose};
pub use reaching::{reach, spent_numbers};
