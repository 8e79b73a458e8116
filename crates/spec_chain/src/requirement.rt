//! What is missing for a transaction of a deal.

use spec_bitcoin::Label;
use spec_data::Name;
use spec_deal::Verb;
use spec_tool::Which;

/// What is missing.
pub enum Requirement {
    /// A tip of this height.
    Height(u32),
    /// The signature of this input, counted from 0, of a transaction, by the key of this label.
    Signature(Which, u32, Label, Verb),
    /// The witness of this input, counted from 0, of a transaction, by the wallet of the deposit of this name, which this party owns.
    Wallet(Which, u32, Name, Name, Verb),
    /// The deposit of this name, which isn't live.
    Deposit(Name),
    /// The secret of this name, which this party holds.
    Secret(Name, Name),
    /// A deposit that is gone, so it never comes.
    DepositGone,
    /// A predicate that is false, so it never comes.
    PredicateFalse,
}

impl Drop for Requirement {
    fn drop(self) {
        match self {
            Requirement::Height(_)
            | Requirement::Signature(_, _, _, _)
            | Requirement::Wallet(_, _, _, _, _)
            | Requirement::Deposit(_)
            | Requirement::Secret(_, _)
            | Requirement::DepositGone
            | Requirement::PredicateFalse => {}
        }
    }
}
