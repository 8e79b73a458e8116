//! The files of a command are read in order, up to the first read that fails.

ghost use Rattle.std.specs.Prelude.{◌≡◌, ◌≤◌, map, true, IfOk, OnErr, IfSome};
ghost use Rattle.spec_tool.specs.Reads.{fits};
ghost use Rattle.bm_io.specs.Counts.{RoseBy};
ghost use Rattle.tool_shell.specs.Asked.{asked};
ghost use Rattle.tool_shell.specs.Files.{read_of, reads_of, ReadsOne, AsksPrefix, AsksOne, ReadsAll, CountsAll, RoseIfFailed};
ghost use Rattle.tool_shell.specs.Logs.{Logs, LogsOne, LogsShortage, LogsPrefix};

use bm_io::{Files, ReadError};
use spec_data::{Bytes, OutOfMemory, Seq};
use std::alloc::{AllocError, Global};

/// What the reads of files gave.
#[derive(Drop)]
pub struct Reading {
    /// The bytes of each file that was read, none of one that is too long.
    pub texts: Seq<Option<Bytes>>,
    /// Whether the read after these failed.
    pub failed: bool,
}

/// What the read of a file gives, none where it failed.
fn read_one<F: Files>(
    alloc: Global,
    files: &mut F,
    name: &str,
    limit: usize,
) -> Result<Option<Option<Bytes>>, OutOfMemory>
    ensures reads { IfOk result (λ text. ReadsOne (F.told files.old) (F.told files.new) (name.now, limit) (read_of text)) }
    ensures few { IfOk result (λ text. IfSome text (λ t. fits (name.now, limit) t ≡ true)) }
    ensures memory { OnErr result (AsksOne (F.told files.old) (F.told files.new) name.now) }
    ensures logged { IfOk result (λ text. LogsOne (F.log files.old) (F.log files.new) (F.taken files.old) (F.taken files.new)
        (name.now, limit) (read_of text)) }
    ensures short { OnErr result (LogsShortage (F.log files.old) (F.log files.new) (name.now, limit)) }
    ensures later { F.faults files.old ≤ F.faults files.new }
    ensures rose { result ≡ Ok None → RoseBy 1 (F.faults files.old) (F.faults files.new) }
{
    match files.read(alloc, name, limit) {
        Ok(bytes) => Ok(Some(Some(Bytes::of(bytes)))),
        Err(ReadError::TooLong) => Ok(Some(None)),
        Err(ReadError::Failed) => Ok(None),
        Err(ReadError::Memory) => Err(AllocError),
    }
}

/// Reads files in order, up to the first read that fails.
pub(crate) fn read_all<F: Files>(
    alloc: Global,
    files: &mut F,
    list: &[(&str, usize)],
) -> Result<Reading, OutOfMemory>
    ensures reads { IfOk result (λ r. ReadsAll (F.told files.old) (F.told files.new) (map asked list.now) (reads_of r)) }
    ensures logged { IfOk result (λ r. Logs (F.log files.old) (F.log files.new) (F.taken files.old) (F.taken files.new)
        (map asked list.now) (reads_of r)) }
    ensures short { OnErr result (LogsPrefix (F.log files.old) (F.log files.new) (map asked list.now)) }
    ensures count { IfOk result (λ r. CountsAll r (map asked list.now)) }
    ensures rose { IfOk result (RoseIfFailed (F.faults files.old) (F.faults files.new)) }
    ensures memory { OnErr result (AsksPrefix (F.told files.old) (F.told files.new) (map asked list.now)) }
{
    let mut texts = Seq::new(alloc);
    for (name, limit) in list {
        let Some(text) = read_one(alloc, files, name, *limit)? else {
            return Ok(Reading {
                texts,
                failed: true,
            });
        };
        texts.push(text)?;
    }
    Ok(Reading {
        texts,
        failed: false,
    })
}
