//! Predicates on the lengths of secrets: whether one is true, how large its numbers can get, and how long its script
//! is. The check refuses by it what Bitcoin's numbers can't hold.
#![tactic(auto)]

pub mod bounds;
pub mod sizes;
pub mod values;

pub use bounds::{bound, is_bounded};
pub use sizes::cost;
pub use spec_terms::ScriptSize;
pub use values::value;
