//! Runs Bitcoin scripts: an operation at a time on two stacks, with a stack of conditions for IF and ELSE. It is proved
//! to give the meaning that `spec_bitcoin` defines, for every signature oracle.
#![tactic(auto)]

mod effects;
mod evaluating;
mod running;
mod top_first;

pub use effects::SigCheck;
pub use evaluating::eval;
