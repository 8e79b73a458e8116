//! Says which steps of the calculus an event of the ledger corresponds to. With `bm_translate_course` it makes the
//! second of the two runs that `play` prints.
#![tactic(auto)]

mod contracts;
mod events;
mod kinds;
mod lengths;
mod moves;
mod posts;
mod running;
mod strings_shown;
mod told;
mod watching;

pub use contracts::{begin_steps, branch_steps, has_authorised, may_take};
pub use events::event_steps;
pub use moves::move_steps;
pub use posts::posted_by;
pub use running::Running;
pub use spec_calculus::{Move, Owner, Step};
pub use spec_data::{Name, OutOfMemory};
pub use strings_shown::Shown;
pub use told::init_steps;
pub use watching::{Secrets, Watched};
