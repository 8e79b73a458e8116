//! A deal is followed along a chain: what the confirmed transactions did to it, or why the chain is refused.
#![tactic(auto)]

mod board;
mod error;
mod event;
mod following;
mod going_on;
mod hashing;
mod known;
mod outputs;
mod refusal;
mod showing;
mod spots;
mod standing;
mod taken;
mod which;

pub use error::ChainError;
pub use event::{Deed, Event};
pub use following::{Course, follow};
pub use standing::Standing;
pub use which::{same_which, transaction_named};
