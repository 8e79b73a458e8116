//! Whom a contract pays, whose keys a deal uses, which output scripts wallets have, and how an output is shown.
#![tactic(auto)]

mod payable;
mod programs;
mod shown;
mod used;
mod withdraws;

pub use payable::{is_payable, pays_to_wallet};
pub use programs::{has_taproot_form, pays_to_key_hash};
pub use shown::put_output;
pub use used::{brought_names, has_deposit, uses_key};
pub use withdraws::{all_paid, is_paid};
