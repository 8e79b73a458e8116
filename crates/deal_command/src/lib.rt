//! The words of `bitml deal`: which command they are, and which files it reads.
#![tactic(auto)]

mod command;
mod files;
mod words;

pub use command::DealCommand;
pub use files::files_of;
pub use words::command_of;
