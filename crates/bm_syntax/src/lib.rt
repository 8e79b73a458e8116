//! The terms of contracts as code has them: adverts, branches and predicates, with what is found at a path and who
//! takes part.
#![tactic(auto)]

pub mod advert;
pub mod copies;
pub mod head;
pub mod parties;
pub mod paths;
pub mod term;
pub mod walk;

pub use advert::Advert;
pub use copies::copy;
pub use head::{asks, core, lock, puts, reveals};
pub use parties::{add_new, participants};
pub use paths::longer;
pub use spec_data::Name;
pub use spec_terms::{Limit, Path, PathStep, Pre};
pub use term::{Contract, Expr, Guarded, Part, Pred};
pub use walk::{at, branch_at, choice_at};
