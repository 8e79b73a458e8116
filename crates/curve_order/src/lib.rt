//! Numbers modulo the order of the curve secp256k1: products, remainders and inverses, in four words.
//! No memory is taken, and only public data are handled: the time that a call takes tells of its arguments.
#![tactic(auto)]

mod inverse;
mod modular;

pub use inverse::invert;
pub use modular::{is_low, is_scalar, multiply, remainder};
