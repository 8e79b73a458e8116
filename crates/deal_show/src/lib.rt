//! A deal for people and for their wallets, as JSON: its deposits, whom it pays, and its transactions. This is `deal show`.
#![tactic(auto)]

mod deal;
mod deposits;
mod inputs;
mod made;
mod outputs;
mod payouts;
mod scripts;
mod text;
mod transactions;
mod values;

pub use text::show_text;
