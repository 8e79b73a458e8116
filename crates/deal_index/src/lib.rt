//! A list whose items are found by a byte string, whoever chose the strings. Deals look up keys, deposits, signatures
//! and transactions by it.
#![tactic(auto)]

mod indexed;

pub use indexed::{Indexed, Keyed};
