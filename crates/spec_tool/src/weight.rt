//! How much a transaction weighs.

/// The least and the greatest weight, in weight units of BIP 141: with secrets of 16 and of 520 bytes.
#[derive(Clone, Copy, Debug, PartialEq, Eq)]
pub struct Weight {
    pub least: u64,
    pub most: u64,
}
