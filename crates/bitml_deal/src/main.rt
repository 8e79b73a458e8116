//! The program behind `bitml deal`. It compiles a contract with the keys, deposits and hashes of real wallets, says
//! which signatures are missing, and finishes transactions for the network. Its call `deal_tool` has one clause, which
//! is all that the program promises.
#![tactic(auto)]

mod answering;
mod endorse;
mod finish;
mod fund;
mod hashes;
mod keys;
mod naming;
mod opening;
mod plan;
mod psbt;
mod ready;
mod secrets;
mod signatures;
mod state;
mod tool;
mod warn;

use bm_hash::Sha;
use bm_io::{StdFiles, StdSink};
use std::process::ExitCode;
use std::{env, io};

/// The words after the program's name. Words that aren't UTF-8 can't be had.
fn words(rt: &HostRuntime) -> io::Result<Vec<String>> {
    let mut words = Vec::new(rt.alloc());
    let mut all = env::args(rt)?;
    let _program = all.next();
    for word in all {
        words.push(word)?;
    }
    Ok(words)
}

/// The status is that of the command, and 12 where the words can't be had.
fn main(rt: HostRuntime) -> ExitCode {
    let Ok(words) = words(&rt) else {
        return ExitCode::from(12);
    };
    let mut files = StdFiles::new(&rt);
    let mut out = StdSink::new(io::writer(&rt));
    let status = tool::deal_tool(rt.alloc(), words.as_slice(), Sha, &mut files, &mut out);
    ExitCode::from(status)
}
