//! The twelve steps of the calculus on a configuration, the state of all contracts and deposits. A step is taken or
//! refused by its first premise that fails. Each configuration here is one that legal steps lead to.
#![tactic(auto)]

mod beginning;
mod branches;
pub mod config;
mod contracts;
mod deposits;
mod effects;
mod lengths;
mod moves;
mod premises;
mod same;
mod secrets;
mod state;
mod takings;
mod undecided;

pub use config::{Active, Config, StepError};
pub use spec_calculus::{Move, Owner, Step};
