//! The event `commit`. After the last party's commitment of a contract it has the contract compiled.
#![tactic(auto)]

mod committing;
mod compiling;
mod digests;
mod refusals;
mod secrets;

pub use committing::pending_commit;
