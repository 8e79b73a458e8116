//! Finds out whether a list has something twice: a number, or an output that two inputs spend.
#![tactic(auto)]

mod elements;
mod inputs;
mod numbers;

pub use inputs::spend_twice;
pub use numbers::are_distinct;
