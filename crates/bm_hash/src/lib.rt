//! Hash functions, and the list of the messages that a run has hashed, called its trail. A second message with the
//! digest of an earlier one is found and shown, and theorems on runs need nothing else of a hash.
#![tactic(auto)]

mod cache;
mod fingerprints;
mod hashing;
mod key;
mod messages;
mod pieces;
mod strings;

pub use fingerprints::fingerprint_of;
pub use hashing::{Hash32, Sha, Toy, Twin, hashes_bytes};
pub use messages::{Trail, TrailError};
pub use pieces::Pieces;
pub use spec_data::{Bytes, OutOfMemory};
pub use strings::hash_all;
