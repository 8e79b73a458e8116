//! Makes a contract and a large run from a number, for `make`: input for measuring and for tests without a file.
#![tactic(auto)]

mod contract;
mod draws;
mod events;
mod going;
mod header;
mod making;
mod secrets;

pub use making::make;
