//! The reply of `audit`: the report on a file's transactions after a run, or the line of the halt.
#![tactic(auto)]

mod auditing;
mod replying;

pub use replying::audit_reply;
