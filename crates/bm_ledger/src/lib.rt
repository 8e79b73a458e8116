//! The model of Bitcoin's ledger: the live outputs and the height. It says by which rule a transaction is refused
//! first, or accepts it.
#![tactic(auto)]

mod hashes;
mod inputs;
mod judging;
mod opening;
mod outputs;
mod signatures;
mod state;
mod whole;

pub use judging::Judged;
pub use spec_bitcoin::{OutPoint, Refusal, Tx, TxIn, TxOut, Verdict};
pub use state::Ledger;
