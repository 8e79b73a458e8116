//! What a call of a program is: the command that its words are, the files that it reads, and the run and contracts that
//! they hold. All programs except that for deals share it.
#![tactic(auto)]

mod both;
mod command;
mod contract;
mod contracts;
mod error;
mod files;
mod refusal;
mod replies;
mod run;
mod words;

pub use both::{Judgement, judge_both, judge_two};
pub use command::Command;
pub use contract::contract_in;
pub use contracts::contracts_in;
pub use error::{ContractsError, JudgeError};
pub use files::{files_of, run_files};
pub use replies::{check_reply, contract_refused, run_refused};
pub use run::run_in;
pub use words::{MOST_CONTRACTS, command_of};
