//! The events `endorse`, `init` and `authorise`: which inputs a party signs, and when an honest one refuses.
#![tactic(auto)]

mod authorising;
mod booking;
mod endorsing;
mod known;
mod starting;

pub use authorising::pending_authorise;
pub use booking::sign_all;
pub use endorsing::pending_endorse;
pub use starting::pending_init;
