//! The field of secp256k1: numbers of 256 bits in four words, and their sums, products and powers
//! modulo its prime. No memory is taken, and only public data are handled: the time that a call takes
//! tells of its arguments.
#![tactic(auto)]

mod bytes;
mod compare;
mod inverse;
mod powers;
mod remainder;
mod ring;
mod words;

pub use bytes::from_bytes;
pub use compare::{is_below, is_equal, is_odd, is_zero};
pub use inverse::{invert, root};
pub use powers::{Modulus, power};
pub use ring::{add, multiply, prime, scale, subtract};
pub use words::{Row, Wide, Words, difference, lower, product, row_of, small};
