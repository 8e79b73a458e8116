//! What a deal is in texts: its plan, with scripts, deposits, payees, transactions, digests, and who signs what; and its transactions as partially
//! signed ones, for signers, by BIP 174.
#![tactic(auto)]

mod deposits;
mod outputs;
mod payees;
mod plan;
mod psbts;
mod transactions;

pub use deal_compile::CompiledDeal;
pub use plan::plan_text;
pub use psbts::{psbt_text, psbts_text};
pub use spec_deal::{Deal, Transaction};
