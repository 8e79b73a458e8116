//! What a confirmed transaction did to a deal.

use spec_calculus::Step;
use spec_data::{Name, Seq};
use spec_tool::Which;

/// A transaction by its txid and the height of its block: which of the deal's it is, the steps that it stands for, the numbers of the
/// outputs that it made, and the deposits that it took from the deal.
pub struct Happened {
    pub which: Option<Which>,
    pub txid: [u8; 32],
    pub height: u32,
    pub steps: Seq<Step>,
    pub made: Seq<u32>,
    pub gone: Seq<Name>,
}

impl Drop for Happened {
    fn drop(self) {
        let Happened {
            which: _,
            txid: _,
            height: _,
            steps: _,
            made: _,
            gone: _,
        } = self;
    }
}
