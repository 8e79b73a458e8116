//! The definition of the program: which words are commands, which files they read, and what status and text each
//! answers.
#![tactic(auto)]

pub mod finding;
pub mod psbt;
pub mod reply;
pub mod rule;
pub mod weight;
pub mod which;

pub use finding::{AuditReport, Finding, Kind, Now};
pub use psbt::PsbtInput;
pub use reply::Reply;
pub use rule::{Act, Rule, StrategyFault};
pub use weight::Weight;
pub use which::Which;
