//! The rows of a run. Sums are in satoshi, heights in blocks.

use crate::status::Status;
use spec_data::{Bytes, Name, Seq};

/// Where the money is.
pub struct Money {
    /// What each participant has, in their order.
    pub parties: Seq<u64>,
    /// What the contracts hold.
    pub contracts: u64,
    /// What everybody else has.
    pub elsewhere: u64,
    /// What went to the miner.
    pub fees: u64,
}

impl Drop for Money {
    fn drop(self) {
        let Money {
            parties: _,
            contracts: _,
            elsewhere: _,
            fees: _,
        } = self;
    }
}

/// What a row of a run is about.
#[derive(Clone, Copy)]
pub enum Look {
    /// The deposits before any event.
    Start,
    /// Blocks that come.
    Blocks,
    /// Events that are done.
    Done,
    /// Events of which the last is a transaction that the ledger accepted.
    Accepted,
    /// Events that are refused.
    Refused,
    /// Events that are left out.
    More,
    /// An event that halts the run.
    Halt,
}

/// A row of a run: events from the first number to the last, and what they left.
pub struct EventRow {
    pub first: u32,
    pub last: u32,
    pub look: Look,
    pub words: Bytes,
    /// Why it was refused, or the height.
    pub note: Bytes,
    /// The lines of the events, each with its outcome.
    pub lines: Bytes,
    /// Who acts, if it is one party.
    pub actor: Option<Name>,
    pub height: u32,
    pub money: Money,
    /// Where all parts of the contracts stand that have a look, in order: of each contract its initial transaction, and then of each
    /// branch the branch, its conditions and its payments.
    pub looks: Seq<Status>,
    /// What can be done now, and on whom something waits.
    pub outlook: Bytes,
}

impl Drop for EventRow {
    fn drop(self) {
        let EventRow {
            first: _,
            last: _,
            look: _,
            words: _,
            note: _,
            lines: _,
            actor: _,
            height: _,
            money: _,
            looks: _,
            outlook: _,
        } = self;
    }
}
