//! Puts together what `play` prints of a run: its entries, its end with live outputs and offers, or the line of a halt.
#![tactic(auto)]

mod ends;
mod entries;
mod halted;
mod live;
mod reply;

pub use ends::whole_ending;
pub use entries::entries_by;
pub use halted::{collided_reply, guessed_reply};
pub use live::live_outputs;
pub use reply::report_reply;
