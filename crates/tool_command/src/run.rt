//! A run file is judged.

ghost use Rattle.std.specs.Prelude.{◌≡◌, ◌≤◌, ◌++◌, length, Err, OnOk};
ghost use Rattle.spec_text.specs.Refusals.{run_limit_text, run_fault_text, judged_run, run_of};
ghost use Rattle.spec_text.specs.Limits.{most_run_bytes};
ghost use Rattle.spec_text.specs.RunFile as files;
ghost use Rattle.spec_tool.specs.Answers as spec;
ghost use Rattle.tool_command.specs.Judges.{Judges};

use crate::error::JudgeError;
use bm_runfile::{Run, RunError, RunLimit, read_run};
use bm_text::{put, put_decimal};
use spec_data::{Bytes, MOST_RUN_BYTES, OutOfMemory};
use spec_text::RunFault;
use std::alloc::Global;

/// The name of a limit.
fn run_limit_text(limit: RunLimit) -> &'static [u8]
    ensures { result.now ≡ run_limit_text limit }
{
    match limit {
        RunLimit::Line => b"Line",
        RunLimit::Events => b"Events",
        RunLimit::Parties => b"Parties",
        RunLimit::Deposits => b"Deposits",
        RunLimit::Secrets => b"Secrets",
    }
}

/// Why a text is no run.
#[tactic(auto, using(std::proofs::Common::append_assoc))]
fn put_run_fault(alloc: Global, out: &mut Vec<u8>, fault: RunFault) -> Result<(), OutOfMemory>
    ensures { OnOk result (out.new.items ≡ out.old.items ++ run_fault_text fault) }
{
    match fault {
        RunFault::BadLine(line) => {
            put(out, b"line ")?;
            put_decimal(alloc, out, line as u64)
        }
        RunFault::Limit(limit, line) => {
            put(out, b"limit ")?;
            put(out, run_limit_text(limit))?;
            put(out, b" line ")?;
            put_decimal(alloc, out, line as u64)
        }
    }
}

fn refuse(alloc: Global, fault: RunFault) -> Result<Run, JudgeError>
    ensures { Judges result (Err (run_fault_text fault)) }
{
    let mut why = Vec::new(alloc);
    put_run_fault(alloc, &mut why, fault)?;
    Err(JudgeError::Refused(Bytes::of(why)))
}

fn refuse_too_long(alloc: Global) -> Result<Run, JudgeError>
    ensures { Judges result (Err spec.too_long_run) }
{
    let why = Bytes::from_slice(alloc, b"limit Size line 0")?;
    Err(JudgeError::Refused(why))
}

fn judge_text(alloc: Global, text: &[u8]) -> Result<Run, JudgeError>
    requires { length text.now ≤ most_run_bytes }
    ensures { Judges result (judged_run (files.read_run text.now)) }
{
    match read_run(alloc, text) {
        Ok(run) => Ok(run),
        Err(RunError::BadLine(line)) => refuse(alloc, RunFault::BadLine(line)),
        Err(RunError::Limit(limit, line)) => refuse(alloc, RunFault::Limit(limit, line)),
        Err(RunError::Memory) => Err(JudgeError::Memory),
    }
}

/// The run of a text, or why it is refused.
fn run_of(alloc: Global, text: &[u8]) -> Result<Run, JudgeError>
    ensures { Judges result (run_of text.now) }
{
    if text.len() > MOST_RUN_BYTES {
        return refuse_too_long(alloc);
    }
    judge_text(alloc, text)
}

/// The run of a file, none of whose bytes are given where it is too long; or why it is refused.
pub fn run_in(alloc: Global, text: &Option<Bytes>) -> Result<Run, JudgeError>
    ensures { Judges result (spec.run_in text.now) }
{
    match text {
        None => refuse_too_long(alloc),
        Some(bytes) => run_of(alloc, bytes.as_slice()),
    }
}
