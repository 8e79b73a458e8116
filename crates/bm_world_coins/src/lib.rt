//! All outputs that a run has made, live or spent, by their numbers, with the contract positions that they hold, and
//! the ledger over them.
#![tactic(auto)]

mod coins;
mod made;
mod positions;

pub use bm_ledger::Judged;
pub use coins::Coins;
pub use made::MadeOutput;
pub use positions::{HeldPosition, NewPositions};
