//! The definitions of Bitcoin that everything else rests on: transactions as bytes, ids and digests, scripts and what
//! they mean, keys and signatures as a model, and the ledger's verdict. Read docs/scripts.md beside it.
#![tactic(auto)]

pub mod label;
pub mod opcode;
pub mod script;
pub mod tx;
pub mod verdict;

pub use label::Label;
pub use opcode::{Binary, Kind, Opcode};
pub use script::Op;
pub use tx::{OutPoint, Tx, TxIn, TxOut};
pub use verdict::{Refusal, Verdict};
