//! The compiler: it turns a checked contract into its transactions, scripts and digests. Where keys come from is handed
//! in, so that runs with model keys and deals with real ones share it.
#![tactic(auto)]

mod binding;
mod compiled;
mod compiling;
mod depositing;
mod detailed;
mod finding;
mod labelling;
mod preparing;
mod scripting;
mod setting;
mod sourcing;
mod stacking;
mod tables;
mod unsigned;
mod walking;
mod wallets;

pub use binding::are_bound;
pub use bm_hash::TrailError;
pub use compiled::Compiled;
pub use compiling::{compile, compile_details, compile_with};
pub use depositing::{pays, volatile_of};
pub use detailed::{Detailed, Details};
pub use sourcing::{KeyPlan, KeySource};
pub use spec_compiler::Prepared;
