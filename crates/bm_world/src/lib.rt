//! Plays a run, an event at a time: the ledger, what was signed and said, and the first halt. This is the crate behind
//! `play`; the crates `bm_world_*` are its parts.
#![tactic(auto)]

mod evidence;
mod foretelling;
mod halt;
mod handing;
mod passing;
mod placing;
mod playing;
mod preparing;
mod standing;
mod telling;
mod world;

pub use halt::Halt;
pub use world::World;
