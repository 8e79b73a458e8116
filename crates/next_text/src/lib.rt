//! Writes the answer of `bitml next`: the lines after a run, or the first lines of one from a contract alone.
#![tactic(auto)]

mod beginning;
mod first_events;
mod header;
mod lead;
mod listed;
mod once;
mod outlook;
mod requirement;
mod together;

pub use beginning::begin_text;
pub use listed::{is_for_party, listed_of, of_party};
pub use outlook::outlooks_text;
pub use requirement::put_requirement;
