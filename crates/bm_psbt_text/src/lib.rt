//! What `psbt` prints of one file or of two: the lines that say what a partially signed transaction has, or why a file
//! is refused.
#![tactic(auto)]

mod commands;
mod files;
mod lines;
mod replies;

pub use commands::{psbt_joined, psbt_shown};
pub use files::{FileRefusal, psbt_in};
pub use lines::shown_text;
