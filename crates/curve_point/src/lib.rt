//! Points of secp256k1, their sums and multiples, in Jacobian coordinates: so one inverse is taken for
//! a whole multiple. Each public call equals its definition on affine points, in all cases; no memory
//! is taken, and only public data are handled.
#![tactic(auto)]

mod affine_form;
mod coordinates;
mod doubling;
mod joining;
mod multiples;
mod sums;

pub use coordinates::{Affine, Jacobian};
pub use multiples::multiple;
pub use sums::sum;
