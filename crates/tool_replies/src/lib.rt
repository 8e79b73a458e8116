//! Plays a run from its files and gives the reply of each command that needs one: `play`, `plan`, `psbt`, `weigh` and
//! `make`.
#![tactic(auto)]

mod ends;
mod events;
mod halting;
mod last;
mod made;
mod plan;
mod played;
mod psbt;
mod report;
mod weigh;

pub use ends::ending_by;
pub use halting::halt_reply;
pub use last::{leak, play_to_end};
pub use made::generated_reply;
pub use plan::plan_reply;
pub use played::play;
pub use psbt::psbt_reply;
pub use report::play_reply;
pub use weigh::weigh_reply;
