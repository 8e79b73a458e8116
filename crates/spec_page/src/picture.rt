//! All that a picture shows, as rows. Sums are in satoshi.

use crate::event_row::EventRow;
use crate::way_row::{Stake, WayRow};
use spec_data::{Bytes, Name, Seq};

/// A contract: the fee of each of its transactions, what each party brings, and its rows.
pub struct Sheet {
    pub fee: u64,
    pub stakes: Seq<Stake>,
    pub ways: Seq<WayRow>,
}

impl Drop for Sheet {
    fn drop(self) {
        let Sheet {
            fee: _,
            stakes: _,
            ways: _,
        } = self;
    }
}

/// A run with its contracts.
pub struct Picture {
    /// The participants of all contracts, each once: a column each.
    pub parties: Seq<Name>,
    /// What the deposits of the header are worth.
    pub total: u64,
    /// The contracts by their number.
    pub sheets: Seq<Sheet>,
    /// How many events the run has.
    pub count: u64,
    /// The rows of the run.
    pub rows: Seq<EventRow>,
    /// The contracts' texts, a line each.
    pub text: Bytes,
}

impl Drop for Picture {
    fn drop(self) {
        let Picture {
            parties: _,
            total: _,
            sheets: _,
            count: _,
            rows: _,
            text: _,
        } = self;
    }
}
