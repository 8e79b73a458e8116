//! Public keys of 33 bytes as points of the curve secp256k1 (SEC 1, section 2.3.4).
//! No memory is taken, and only public data are handled: the time that a call takes tells of its arguments.
#![tactic(auto)]

mod key;

pub use key::point_of_key;
