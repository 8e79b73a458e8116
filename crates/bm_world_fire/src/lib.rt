//! The event `fire`: takes a contract's compiled transaction, fills in the witnesses that anyone can fill in, and hands
//! it to the ledger.
#![tactic(auto)]

mod deposits;
mod firing;
mod initial;
mod shown;
mod taking;
mod witnesses;

pub use firing::{pending_fire, pending_fire_init};
