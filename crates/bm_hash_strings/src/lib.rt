//! Strings in order, each found fast however they are chosen. Contracts see the list of them.
#![tactic(auto)]

mod places;
mod strings;

pub use strings::Strings;
