//! Compiles a deal: a contract's transactions at the keys, deposits, hashes and scripts of real wallets. It also finds a deposit
//! that the deal's own transactions would make, and a participant who would be paid at one of its positions.
#![tactic(auto)]

mod circle;
mod compiling;
mod depositing;
mod inputs;
mod keys;
mod labels;
mod programs;
mod seen;
mod transactions;
mod wallets;

pub use bm_hash::{Hash32, Trail, TrailError};
pub use bm_wellformed::Checked;
pub use circle::circular;
pub use compiling::{CompiledDeal, compile_deal};
pub use keys::DealKeys;
pub use spec_deal::{Deal, Input, Signer, Transaction};
pub use wallets::has_digest;
