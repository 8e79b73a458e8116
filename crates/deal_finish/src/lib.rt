//! The last step of a deal: it puts signatures and secrets into a transaction's witnesses, or says what is missing
//! first.
#![tactic(auto)]

mod branches;
mod error;
mod finishing;
mod refusals;
mod refusing;
mod secrets;
mod signatures;
mod witnesses;

pub use branches::branch_of;
pub use error::FinishError;
pub use finishing::finish;
pub use refusals::put_finish_refused;
pub use secrets::do_fit;
