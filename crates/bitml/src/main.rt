//! The program `bitml`: it hands words, files, standard output and SHA-256 to `bitml_tool` and ends with the status
//! that comes back. Nothing else is done here, so nothing else has to be believed of it.
#![tactic(auto)]

use bitml_tool::run_tool;
use bm_hash::Sha;
use bm_io::{StdFiles, StdSink};
use std::process::ExitCode;
use std::{env, io};

/// The words after the program's name. Words that aren't UTF-8 can't be had.
fn words(rt: &HostRuntime) -> io::Result<Vec<String>> {
    let mut words = Vec::new(rt.alloc());
    let mut all = env::args(rt)?;
    let _program = all.next();
    for word in all {
        words.push(word)?;
    }
    Ok(words)
}

/// The status is that of the command, and 12 where the words can't be had.
fn main(rt: HostRuntime) -> ExitCode {
    let Ok(words) = words(&rt) else {
        return ExitCode::from(12);
    };
    let mut files = StdFiles::new(&rt);
    let mut out = StdSink::new(io::writer(&rt));
    let status = run_tool(rt.alloc(), words.as_slice(), Sha, &mut files, &mut out);
    ExitCode::from(status)
}
