//! The name of one of a contract's transactions, `init` or a path such as `r.0`, read from a word and written. Words
//! that name none take no memory, so wrong words are answered whatever memory there is.
#![tactic(auto)]

mod path_word;
mod reading;
mod writing;

pub use reading::which_of;
pub use writing::put_which;
