//! Lists what may be taken now: each enabled contract step of a configuration, with the event that takes it. These are
//! the `offer` lines of `play`.
#![tactic(auto)]

mod branches;
mod listing;
mod stepping;

pub use branches::branches_of;
pub use listing::offers;
pub use spec_calculus::Step;
pub use spec_run::Event;
pub use stepping::Offer;
