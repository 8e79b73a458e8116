//! What taking a branch of an active contract makes.

use spec_data::{Name, Seq};
use spec_terms::Path;

/// An output of a branch. Values are in satoshi.
pub enum Made {
    /// It is a deposit of this party.
    Paid { party: Name, value: u64 },
    /// The contract goes on at this position.
    Led { position: Path, value: u64 },
}

impl Drop for Made {
    fn drop(self) {
        match self {
            Made::Paid { party: _, value: _ }
            | Made::Led {
                position: _,
                value: _,
            } => {}
        }
    }
}

/// The path of a branch, and its outputs in order.
pub struct Lead {
    pub path: Path,
    pub made: Seq<Made>,
}

impl Drop for Lead {
    fn drop(self) {
        let Lead { path: _, made: _ } = self;
    }
}
