//! The definition of the calculus: configurations, the twelve steps with premises and effects, legal runs, and what is
//! offered. Read docs/calculus.md beside it.
#![tactic(auto)]

pub mod parts;
pub mod step;

pub use parts::{
    ActiveContract, Advertised, BranchAuthorisation, Committed, Deposit, InitAuthorisation,
    MoveAuthorisation, Revealed,
};
pub use step::{Move, Owner, Step};
