//! What the lines of a chain file say. Lines are counted from 1.

use crate::fault::{ChainFault, ChainReason};
use spec_bitcoin::Tx;
use spec_data::Seq;

/// What a line says.
#[derive(Drop)]
pub enum Line {
    /// Nothing: it has no words.
    Empty,
    /// It is no line of a chain.
    Bad(ChainReason),
    /// The blocks of what comes next have this height.
    Rises(u32),
    /// A block of the height last given has this transaction.
    Confirms(Tx),
}

/// A transaction with its witnesses, the line that it stands on, and the height of its block.
pub struct Confirmed {
    pub line: u32,
    pub height: u32,
    pub tx: Tx,
}

impl Drop for Confirmed {
    fn drop(self) {
        let Confirmed {
            line: _,
            height: _,
            tx: _,
        } = self;
    }
}

/// The transactions of a chain file in order, the last height, and why it is no chain file. Nothing is read behind a bad line.
pub struct Reading {
    pub confirmed: Seq<Confirmed>,
    pub tip: u32,
    pub fault: Option<ChainFault>,
}

impl Drop for Reading {
    fn drop(self) {
        let Reading {
            confirmed: _,
            tip: _,
            fault: _,
        } = self;
    }
}
