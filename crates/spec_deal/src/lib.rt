//! The definition of deals: the files that are read, what is refused, what is written, and in which order. It is read
//! to know what `bitml deal` promises.
#![tactic(auto)]

pub mod deal;
pub mod entry;
pub mod fault;
pub mod finish;
pub mod signed;
pub mod transaction;

pub use deal::{Deal, Needed};
pub use entry::{Entry, Shown, Value};
pub use fault::{
    DealFault, DealReason, SecretFault, SecretReason, SignatureFault, SignatureReason,
};
pub use finish::{FinishRefusal, Verb};
pub use signed::Signed;
pub use transaction::{Input, Signer, Transaction, Wallet};
