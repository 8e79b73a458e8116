//! What nodes wouldn't relay of a deal's transactions by their standard rules: long scripts, small outputs, low fees and long secrets.
//! This is `deal warn`.
#![tactic(auto)]

mod dust;
mod fees;
mod filling;
mod lines;
mod sizes;
mod text;
mod warnings;

pub use fees::fee_of;
pub use filling::full_size;
pub use text::warn_text;
