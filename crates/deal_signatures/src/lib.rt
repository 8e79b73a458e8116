//! Files of signatures: what wallets signed, read against the transactions of a deal, and why a file is refused. A signature has the shape
//! that nodes relay, strict DER by BIP 66 with the hash type ALL behind it and the low S of BIP 146, and verifies under its key. The final
//! witness of an input that spends a wallet's deposit is taken as it is, and is verified as far as that is known of its output's script.
#![tactic(auto)]

mod error;
mod given;
mod inputs;
mod known;
mod numbers;
mod places;
mod reading;
mod refusals;
mod required;
mod same;
mod shape;
mod taking;
mod wallets;
mod witnesses;

pub use error::SignatureError;
pub use given::Given;
pub use reading::read_signatures;
pub use refusals::put_signatures_refused;
pub use required::narrow;
pub use witnesses::{first_item, second_item};
