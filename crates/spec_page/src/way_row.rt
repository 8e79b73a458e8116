//! The rows of a contract. Sums are in satoshi, heights in blocks.

use spec_data::{Bytes, Name, Seq};
use spec_terms::Path;

/// A deposit that a party brings.
#[derive(Clone, Copy)]
pub struct Stake {
    pub party: Name,
    pub value: u64,
    /// Whether a `put` may bring it, and not the beginning.
    pub volatile: bool,
}

/// What a branch waits for.
pub enum Condition {
    /// The party authorises it.
    Agrees(Name),
    /// This height is reached.
    Block(u32),
    /// The party's deposit is put in.
    Puts {
        party: Name,
        value: u64,
        deposit: Name,
    },
    /// The party reveals its secret.
    Shows {
        party: Name,
        secret: Name,
    },
    /// The predicate of this text is true.
    Holds(Bytes),
}

impl Drop for Condition {
    fn drop(self) {
        match self {
            Condition::Agrees(_)
            | Condition::Block(_)
            | Condition::Puts {
                party: _,
                value: _,
                deposit: _,
            }
            | Condition::Shows {
                party: _,
                secret: _,
            }
            | Condition::Holds(_) => {}
        }
    }
}

/// What a party is paid, by the branch at this path.
pub struct Payment {
    pub party: Name,
    pub value: u64,
    pub path: Path,
}

impl Drop for Payment {
    fn drop(self) {
        let Payment {
            party: _,
            value: _,
            path: _,
        } = self;
    }
}

/// A row of a contract, so many steps to the right. The first row under a part of a split has the part's value.
pub enum WayRow {
    /// Of the branches below, one step further to the right, one is taken.
    Choice {
        depth: u32,
        part: Option<u64>,
    },
    /// The branch at this path.
    Way {
        path: Path,
        depth: u32,
        part: Option<u64>,
        conditions: Seq<Condition>,
        payments: Seq<Payment>,
    },
}

impl Drop for WayRow {
    fn drop(self) {
        match self {
            WayRow::Choice { depth: _, part: _ }
            | WayRow::Way {
                path: _,
                depth: _,
                part: _,
                conditions: _,
                payments: _,
            } => {}
        }
    }
}
