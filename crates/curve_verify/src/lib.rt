//! Whether a signature is good: ECDSA over secp256k1 (SEC 1, section 4.1.4), with R and S from strict
//! DER. No memory is taken, and only public data are handled.
#![tactic(auto)]

mod equation;
mod layout;
mod numbers;
mod spelling;
mod verdict;

pub use verdict::{is_key, verify};
