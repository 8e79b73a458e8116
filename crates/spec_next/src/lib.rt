//! The definition of what `bitml next` says: which events are listed, what a branch makes, what each lacks, whom it waits
//! for, its two forms, and the first lines of a run.
#![tactic(auto)]

pub mod form;
pub mod lead;
pub mod outlook;
pub mod requirement;

pub use form::Form;
pub use lead::{Lead, Made};
pub use outlook::{Outlook, Prospect, Ruling};
pub use requirement::Requirement;
