//! Paths as words.

ghost use Rattle.std.specs.Prelude.{◌≡◌, ◌<◌, ◌≤◌, length, IfOk};
ghost use Rattle.spec_text.specs.Words.{step_mark, step_of, steps, path};
ghost use Rattle.bm_runfile.specs.Steps.{goes_on, step_length, step_at};
ghost use Rattle.bm_runfile.specs.Gives.{Reads};

use crate::error::WordError;
use crate::words::small;
use spec_terms::{Path, PathStep};
use std::alloc::Global;

/// Whether a byte begins a step: `.` is true, `/` false.
fn step_mark(b: u8) -> Option<bool>
    ensures { result ≡ step_mark b }
{
    match b {
        b'.' => Some(true),
        b'/' => Some(false),
        _ => None,
    }
}

fn step_of(mark: bool, number: u32) -> PathStep
    ensures { result ≡ step_of mark number }
{
    if mark {
        PathStep::Branch(number)
    } else {
        PathStep::Part(number)
    }
}

fn goes_on(b: u8) -> bool
    ensures { result ≡ goes_on b }
{
    b != b'.' && b != b'/'
}

/// How many bytes stand before the next step.
fn length_of_step(bytes: &[u8]) -> usize
    ensures value { result ≡ step_length bytes.now }
    ensures within { result ≤ length bytes.now }
{
    let mut count = 0;
    for byte in bytes {
        if !goes_on(*byte) {
            return count;
        }
        count += 1;
    }
    count
}

/// The step at the front, and what follows it.
#[tactic(auto, unfolding(crate::specs::Steps::step_at))]
fn step_at(bytes: &[u8]) -> Result<(PathStep, &[u8]), WordError>
    ensures step { Reads (λ p. (p.0, p.1.now)) result (step_at bytes.now) }
    ensures shorter { IfOk result (λ p. length p.1.now < length bytes.now) }
{
    let [first, rest @ ..] = bytes else {
        return Err(WordError::Bad);
    };
    let mark = step_mark(*first).ok_or(WordError::Bad)?;
    let end = length_of_step(rest);
    let number = small(&rest[..end]).ok_or(WordError::Bad)?;
    Ok((step_of(mark, number), &rest[end..]))
}

/// Steps from the first mark on.
fn steps(alloc: Global, bytes: &[u8]) -> Result<Vec<PathStep>, WordError>
    ensures { Reads (λ v. v.items) result (steps bytes.now) }
{
    let mut list = Vec::new(alloc);
    let mut rest = bytes;
    while !rest.is_empty() {
        let (step, more) = step_at(rest)?;
        list.push(step)?;
        rest = more;
    }
    Ok(list)
}

/// The path that a word is: `r`, and then `.n` for a branch and `/n` for a part, each n a plain decimal below 2^32.
pub fn read_path(alloc: Global, word: &[u8]) -> Result<Path, WordError>
    ensures { Reads (λ p. p) result (path word.now) }
{
    let [first, rest @ ..] = word else {
        return Err(WordError::Bad);
    };
    if *first != b'r' {
        return Err(WordError::Bad);
    }
    let list = steps(alloc, rest)?;
    Ok(Path::of(list))
}
