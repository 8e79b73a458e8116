//! Entries of a precondition.

use spec_data::Name;

/// What a contract needs beforehand. Values are in satoshi.
#[derive(Clone, Copy, PartialEq, Eq)]
pub enum Pre {
    /// A deposit that the initial transaction spends.
    Persistent { party: Name, value: u64, name: Name },
    /// A deposit that a `put` of the contract may spend.
    Volatile { party: Name, value: u64, name: Name },
    /// A secret to which the party commits.
    Secret { party: Name, name: Name },
}
