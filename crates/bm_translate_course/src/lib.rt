//! Goes over all events of a run and takes their steps from the opening on. Its clause says that the steps are a legal
//! run that agrees with the ledger after every event.
#![tactic(auto)]

mod counting;
mod passing;
mod taking;
mod translating;
mod walking;

pub use counting::{Counted, count_steps};
pub use translating::translate;
pub use walking::{Translation, translate_run};
