//! The text that says where a deal stands: what has been, as steps of the calculus, and what may come.
#![tactic(auto)]

mod asked;
mod lines;
mod outstanding;
mod signatures;
mod text;

pub use text::state_text;
