//! Chain files: the transactions that a node has confirmed, as the lines of a text spell them (BIP 144), and why a text is refused.
#![tactic(auto)]

mod lines;
mod reading;
mod refusals;

pub use reading::read_chain;
pub use refusals::put_chain_refused;
