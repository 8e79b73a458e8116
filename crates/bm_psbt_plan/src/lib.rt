//! Writes a contract's transaction as a partially signed one, with the signatures that a run has for it. This is `psbt
//! RUN CONTRACT WHICH`.
#![tactic(auto)]

mod inputs;
mod keys;
mod outputs;
mod signing;
mod texts;

pub use texts::psbt_text;
