//! The definition of contracts: adverts, branches, predicates, positions and paths, balances, and the faults and limits
//! of the check.
#![tactic(auto)]

pub mod limit;
pub mod path;
pub mod place;
pub mod pre;
pub mod script_size;

pub use limit::Limit;
pub use path::{Path, PathStep};
pub use place::Place;
pub use pre::Pre;
pub use script_size::ScriptSize;
