//! The events `append` and `give`: a raw transaction, or a gift of deposits, is taken for what it is to the contracts
//! and handed to the ledger.
#![tactic(auto)]

mod appending;
mod gifts;
mod giving;
mod purposes;
mod refusing;

pub use appending::pending_append;
pub use giving::pending_give;
pub use purposes::choice_of;
