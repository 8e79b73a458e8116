//! Reads files of secrets for `deal finish`: each string has to be a secret of the contract, of the right size and
//! hash; and for `deal hashes`, which prints their hashes, so that any will do.
#![tactic(auto)]

mod error;
mod hashes;
mod lines;
mod reading;
mod refusals;
mod required;
mod strings;

pub use error::SecretsError;
pub use hashes::hashes_text;
pub use reading::{read_offered, read_secrets};
pub use refusals::put_secrets_refused;
pub use strings::{Strings, known};
