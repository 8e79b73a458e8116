//! The digest that a signature of an input signs, by BIP 143 with hash type ALL. What it hashes goes into the run's
//! list of messages.
#![tactic(auto)]

mod list_hashes;
mod signing;

pub use bm_hash::{Hash32, Trail, TrailError};
pub use list_hashes::{ListHashes, shared};
pub use signing::{digest, digest_of_input};
