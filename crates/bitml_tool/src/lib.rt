//! What `bitml` does, over files and an output that are handed in, so that tests and proofs can give their own.
//! `run_tool` is the one call: its clause says what is read, what is written, and what each status means.
#![tactic(auto)]

mod answering;
mod audit;
mod auto;
mod check;
mod make;
mod plan;
mod play;
mod psbt;
mod third;
mod tool;
mod weigh;

pub use tool::run_tool;
