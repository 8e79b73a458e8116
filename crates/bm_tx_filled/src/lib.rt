//! Transactions with witnesses put to their inputs: those of a run that are fired, and those of a deal that are finished.
#![tactic(auto)]

mod filling;

pub use filling::with_witnesses;
