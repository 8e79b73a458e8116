//! What a confirmed transaction did to a deal.

use spec_data::Name;
use spec_tool::Which;

/// A step of the calculus that a transaction stands for. Outputs go by their numbers, branches by their places, parties by their names.
#[derive(Clone, Copy)]
pub enum Deed {
    /// This party reveals the secret of this name.
    Reveal(Name, Name),
    /// This party lets the contract take its deposit of this name.
    AuthInit(Name, Name),
    /// The contract begins.
    Init,
    /// This party agrees to this branch of an output.
    AuthBranch(Name, u32, u32),
    /// This branch of an output puts deposits and reveals secrets.
    PutReveal(u32, u32),
    /// This branch of an output is withdrawn.
    Withdraw(u32, u32),
    /// This branch of an output splits it.
    Split(u32, u32),
}

/// A transaction by its txid and the height of its block: which of the deal's it is, the steps that it stands for, the numbers of the
/// outputs that it made, and the deposits that it took from the deal.
pub struct Event {
    pub which: Option<Which>,
    pub txid: [u8; 32],
    pub height: u32,
    pub deeds: Vec<Deed>,
    pub made: Vec<u32>,
    pub gone: Vec<Name>,
}

impl Drop for Event {
    fn drop(self) {
        let Event {
            which: _,
            txid: _,
            height: _,
            deeds: _,
            made: _,
            gone: _,
        } = self;
    }
}
