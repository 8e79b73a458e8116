//! Applies the effect of an event that isn't refused, after it has looked whether the event shows somebody else's
//! secret.
#![tactic(auto)]

mod applying;
mod guessing;

pub use applying::apply;
pub use guessing::first_guessed;
