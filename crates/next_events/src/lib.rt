//! Lists the events that may come next for a contract, for each the conditions of the calculus that fail, who is to give
//! what is missing, and what a branch makes.
#![tactic(auto)]

mod binding;
mod giver;
mod leads;
mod lost;
mod opening;
mod outstanding;
mod outstanding_before;
mod outstanding_branch;
mod outstanding_reveal;
mod taking;

pub use binding::advertising;
pub use giver::awaited;
pub use leads::lead_at;
pub use lost::{is_any_never, is_lost, is_never, is_refused};
pub use opening::{put_committing, put_revealing, put_starting};
pub use outstanding::put_unless;
pub use outstanding_before::{put_agreed, put_digests, put_started, put_unbound};
pub use outstanding_branch::put_branch;
pub use outstanding_reveal::put_begun;
pub use taking::put_actives;
