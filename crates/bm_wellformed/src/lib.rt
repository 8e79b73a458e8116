//! Checks a contract that was read: it finds the first fault, or the first limit that is exceeded. A `Checked` holds a
//! contract that has neither, and all code behind the check takes only these.
#![tactic(auto)]

pub mod checked;
pub mod checking;
mod entries;
mod flaw;
mod judging;
mod names;
mod search;

pub use checked::Checked;
pub use checking::{CheckError, check};
pub use spec_terms::Place;
