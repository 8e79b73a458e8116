//! Outputs of a deal.

use spec_bitcoin::OutPoint;
use spec_data::Name;
use spec_terms::Path;

/// What an output is to a deal.
pub enum Held {
    /// The deposit of this name.
    Deposit(Name),
    /// The position at this path.
    Position(Path),
    /// What this party is paid.
    Payout(Name),
}

impl Drop for Held {
    fn drop(self) {
        match self {
            Held::Deposit(_) | Held::Position(_) | Held::Payout(_) => {}
        }
    }
}

/// An output: the number that names it in steps, what it is, where it lies, and its value in satoshi.
pub struct Output {
    pub number: u32,
    pub held: Held,
    pub place: OutPoint,
    pub value: u64,
}

impl Drop for Output {
    fn drop(self) {
        let Output {
            number: _,
            held: _,
            place: _,
            value: _,
        } = self;
    }
}
