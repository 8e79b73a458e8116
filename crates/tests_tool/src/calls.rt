//! Calls of the whole program.

use bitml_tool::run_tool;
use bm_hash::Hash32;
use bm_io::{MemFiles, MemSink};
use std::alloc::Global;
use std::test::Fail;

/// Files of these names and bytes.
pub fn files_of(alloc: Global, list: &[(&str, &[u8])]) -> Result<MemFiles, Fail> {
    let mut files = MemFiles::new(alloc);
    for (name, bytes) in list {
        files.add(name, bytes)?;
    }
    Ok(files)
}

// The words of a line.
fn words_of(alloc: Global, line: &str) -> Result<Vec<String>, Fail> {
    let mut words = Vec::new(alloc);
    for word in line.split_whitespace() {
        words.push(String::from_str(alloc, word)?)?;
    }
    Ok(words)
}

/// The status of a call by the words of a line.
pub fn status_of<H: Hash32 + Drop>(
    alloc: Global,
    hash: H,
    line: &str,
    files: &mut MemFiles,
    out: &mut MemSink,
) -> Result<u8, Fail> {
    let words = words_of(alloc, line)?;
    Ok(run_tool(alloc, words.as_slice(), hash, files, out))
}
