//! Where a deal stands: what a chain of confirmed transactions has done to it, and what may come next.
#![tactic(auto)]

pub mod fault;
pub mod happened;
pub mod output;
pub mod reading;
pub mod requirement;

pub use fault::{ChainFault, ChainReason};
pub use happened::Happened;
pub use output::{Held, Output};
pub use reading::{Confirmed, Line, Reading};
pub use requirement::Requirement;
