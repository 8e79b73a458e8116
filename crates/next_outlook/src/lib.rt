//! Asks the world of a run what would come of each listed event: whether it can come, why not, and whom it waits for.
#![tactic(auto)]

mod ahead;
mod candidates;
mod endorsed;
mod gives;
mod hands;
mod living;
mod looking;
mod never;
mod over;
mod people;
mod prospects;
mod requirements;
mod waits;

pub use looking::outlooks;
