//! The files that a command reads.

ghost use Rattle.std.specs.Prelude.{◌≡◌, map, string_bytes, IfOk};
ghost use Rattle.spec_tool.specs.Commands as spec;
ghost use Rattle.tool_shell.specs.Asked.{asked};
ghost use Rattle.tool_command.specs.Seen.{command};

use crate::command::Command;
use spec_data::{MOST_RUN_BYTES, MOST_TEXT_BYTES, OutOfMemory};
use std::alloc::Global;

/// The most bytes of a file with a partially signed transaction.
const MOST_PSBT_BYTES: usize = 8_388_608;

/// The most bytes of a file with transactions to audit.
const MOST_AUDIT_BYTES: usize = 8_388_608;

/// The most bytes of a strategy file.
const MOST_STRATEGY_BYTES: usize = 1_048_576;

/// A run file and the files of its contracts.
pub fn run_files<'a>(
    alloc: Global,
    run: &'a str,
    contracts: &'a [String],
) -> Result<Vec<(&'a str, usize)>, OutOfMemory>
    ensures { IfOk result (λ v. map asked v.items ≡ spec.files_of (spec.play run.now (map string_bytes contracts.now))) }
{
    let mut files = Vec::new(alloc);
    files.push((run, MOST_RUN_BYTES))?;
    for contract in contracts {
        files.push((contract.as_str(), MOST_TEXT_BYTES))?;
    }
    Ok(files)
}

/// These files.
fn list_of<'a>(
    alloc: Global,
    files: &[(&'a str, usize)],
) -> Result<Vec<(&'a str, usize)>, OutOfMemory>
    ensures { IfOk result (λ v. v.items ≡ files.now) }
{
    Vec::from_slice(alloc, files)
}

/// The files that a command reads, each with the most bytes that it may have, in the order of the words.
pub fn files_of<'a>(alloc: Global, call: &Command<'a>) -> Result<Vec<(&'a str, usize)>, OutOfMemory>
    ensures { IfOk result (λ v. map asked v.items ≡ spec.files_of (command call.now)) }
{
    match call {
        Command::Check(contract) => list_of(alloc, &[(contract, MOST_TEXT_BYTES)]),
        Command::Play(run, contracts) => run_files(alloc, run, contracts),
        Command::Make(_, _) => list_of(alloc, &[]),
        Command::Plan(run, contract)
        | Command::PsbtOf(run, contract, _)
        | Command::Weigh(run, contract) => {
            list_of(alloc, &[(run, MOST_RUN_BYTES), (contract, MOST_TEXT_BYTES)])
        }
        Command::PsbtShown(file) => list_of(alloc, &[(file, MOST_PSBT_BYTES)]),
        Command::PsbtJoined(first, second) => {
            list_of(
                alloc,
                &[(first, MOST_PSBT_BYTES), (second, MOST_PSBT_BYTES)],
            )
        }
        Command::Audit(run, contract, file) => {
            list_of(
                alloc,
                &[
                    (run, MOST_RUN_BYTES),
                    (contract, MOST_TEXT_BYTES),
                    (file, MOST_AUDIT_BYTES),
                ],
            )
        }
        Command::Auto(run, contract, strategy) => {
            list_of(
                alloc,
                &[
                    (run, MOST_RUN_BYTES),
                    (contract, MOST_TEXT_BYTES),
                    (strategy, MOST_STRATEGY_BYTES),
                ],
            )
        }
    }
}
