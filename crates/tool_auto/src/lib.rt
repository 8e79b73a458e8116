//! The reply of `auto`: the run file with the events that a strategy adds, or why the strategy is refused.
#![tactic(auto)]

mod continuing;
mod replying;

pub use replying::auto_reply;
