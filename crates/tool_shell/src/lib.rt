//! What all programs do alike: the files of a call are read in order, its reply is written, and its status is answered. A program gives
//! the call that its words are, the files that the call asks for, and what it replies to their texts.
#![tactic(auto)]

mod call;
mod finishing;
mod reading;
mod serving;
mod theorem;

pub use call::Call;
pub use serving::serve;
pub use theorem::{files_determine_answers, logs_determine_answers};
