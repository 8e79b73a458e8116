//! The definition of runs: headers, events and their refusals, the world that they change, the steps that correspond to
//! them, and the statements of what holds of every run.
#![tactic(auto)]

pub mod event;
pub mod header;
pub mod outcome;

pub use event::{Event, Run};
pub use header::{Header, HeldSecret};
pub use outcome::{Outcome, Reason, Record};
