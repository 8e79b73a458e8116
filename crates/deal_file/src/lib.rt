//! Deal files: what a contract needs of wallets, the template of the file that gives it, the deal that a text gives to a contract, what
//! a text gives that may lack lines, and why a text is refused.
#![tactic(auto)]

mod entries;
mod error;
mod keying;
mod kinds;
mod lines;
mod needs;
mod network;
mod own;
mod part;
mod reading;
mod refusals;
mod scripts;
mod texts;
mod used;
mod values;
mod whole;
mod words;

pub use error::DealError;
pub use needs::needed;
pub use part::Part;
pub use reading::{read_deal, read_part};
pub use refusals::put_deal_refused;
pub use texts::{keys_text, put_needed};
