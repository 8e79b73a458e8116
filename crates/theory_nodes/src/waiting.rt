//! What waits while a contract's nodes are walked.

use spec_bitcoin::OutPoint;

/// A choice whose branches are still to come: where its output lies, its number, and its value in satoshi.
#[derive(Clone, Copy, Debug, PartialEq, Eq)]
pub struct Waiting {
    pub outpoint: OutPoint,
    pub choice: u32,
    pub value: u64,
}
