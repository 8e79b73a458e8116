//! What the parties of a run have told each other: posted strings, advertised contracts with the deposits that they
//! bind, and committed hashes. Runs look up here what was said before.
#![tactic(auto)]

mod exchange;
mod posts;
mod promised;
mod secrets;
mod strings;

pub use bm_hash_strings::Strings;
pub use exchange::Exchange;
pub use secrets::{held_secret, is_secret_long};
pub use strings::are_same;
