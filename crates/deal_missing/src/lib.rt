//! Says which signatures of a deal are there and which aren't, and whether the initial transaction may be signed. This
//! is `deal missing` and `deal held`, `deal ready` behind its warnings, and which transactions `deal endorse` shows.
#![tactic(auto)]

mod endorsing;
mod firsts;
mod lines;
mod looking;
mod ready;
mod requirements;
mod texts;
mod witness_lines;

pub use endorsing::is_endorsed_by;
pub use firsts::{first_unendorsed, first_unsigned};
pub use looking::{is_endorsement, is_there, party_of};
pub use ready::{is_ready, ready_text};
pub use requirements::{Wanted, all_requirements};
pub use texts::{held_text, missing_text};
