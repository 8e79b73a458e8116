//! Writes the answer of `bitml next` as JSON: one object with events, height, live outputs, and who can act.
#![tactic(auto)]

mod branches;
mod events;
mod missing;
mod names;
mod outputs;
mod shown;

pub use shown::outlooks_json;
