//! The program behind `bitml draw`, which writes the page of a contract, or a run with its contracts as a page or as SVG. Its call
//! `draw_tool` says that status and text are the defined ones, that each status comes exactly by its cause in the files, and that what is
//! written has the theorems of `theory_page`.
#![tactic(auto)]

mod call;
mod replying;
mod theorem;
mod tool;

use bm_hash::Sha;
use bm_io::{StdFiles, StdSink};
use std::process::ExitCode;
use std::{env, io};

/// The words after the program's name. Words that aren't UTF-8 can't be had.
fn words(rt: &HostRuntime) -> io::Result<Vec<String>> {
    let mut words = Vec::new(rt.alloc());
    let mut all = env::args(rt)?;
    let _program = all.next();
    for word in all {
        words.push(word)?;
    }
    Ok(words)
}

/// The status is that of the answer, and 12 where the words can't be had.
fn main(rt: HostRuntime) -> ExitCode {
    let Ok(words) = words(&rt) else {
        return ExitCode::from(12);
    };
    let mut files = StdFiles::new(&rt);
    let mut out = StdSink::new(io::writer(&rt));
    let status = tool::draw_tool(rt.alloc(), words.as_slice(), Sha, &mut files, &mut out);
    ExitCode::from(status)
}
