//! A call is served: its files are read, its reply is written, its status is answered.

ghost use Rattle.std.specs.Prelude.{◌≡◌, Some, IfOk, OnErr};
ghost use Rattle.spec_tool.specs.Reads.{texts_read};
ghost use Rattle.spec_tool.specs.Replies.{printed};
ghost use Rattle.tool_shell.specs.Answered.{AnswersByOrGivesUp, Answered, IfCall};
ghost use Rattle.tool_shell.specs.Around.{around};
ghost use Rattle.tool_shell.specs.Files.{reads_of, AsksPrefix, CountsAll};
ghost use Rattle.tool_shell.specs.Logs.{LogsPrefix};
ghost use Rattle.tool_shell.specs.Replied.{standing, Replied};

use crate::call::Call;
use crate::finishing::finish;
use crate::reading::{Reading, read_all};
use bm_hash::Hash32;
use bm_io::{Files, Sink};
use spec_data::{Bytes, OutOfMemory};
use spec_tool::Reply;
use std::alloc::Global;

/// The reply to what the reads of a call's files gave.
fn reply_to<C: Call, H: Hash32 + Drop>(
    alloc: Global,
    hash: H,
    call: &C,
    reading: &Reading,
) -> Result<Reply, OutOfMemory>
    requires served { C.is_served call.now }
    requires count { CountsAll reading.now (C.asks call.now) }
    ensures { IfOk result (λ reply. printed reply ≡ C.answers (H.digest_of hash) call.now (texts_read (reads_of reading.now))) }
{
    if reading.failed {
        return Ok(Reply {
            status: 3,
            text: Bytes::of(Vec::new(alloc)),
        });
    }
    call.reply(alloc, hash, reading.texts.as_slice())
}

/// Reads the files of a call, and replies to them.
fn reply<C: Call, H: Hash32 + Drop, F: Files>(
    alloc: Global,
    hash: H,
    call: &C,
    files: &mut F,
) -> Result<Reply, OutOfMemory>
    requires { C.is_served call.now }
    ensures reply { IfOk result (λ reply. Replied (λ reads. C.answers (H.digest_of hash) call.now (texts_read reads)) (C.asks call.now)
        (standing (F.told files.old) (F.log files.old) (F.taken files.old) (F.faults files.old))
        (standing (F.told files.new) (F.log files.new) (F.taken files.new) (F.faults files.new)) (printed reply)) }
    ensures memory { OnErr result (AsksPrefix (F.told files.old) (F.told files.new) (C.asks call.now)) }
    ensures short { OnErr result (LogsPrefix (F.log files.old) (F.log files.new) (C.asks call.now)) }
{
    let list = call.files(alloc)?;
    let reading = read_all(alloc, files, list.as_slice())?;
    reply_to(alloc, hash, call, &reading)
}

/// Does what a call asks for.
fn serve_call<C: Call, H: Hash32 + Drop, F: Files, S: Sink>(
    alloc: Global,
    hash: H,
    call: &C,
    files: &mut F,
    out: &mut S,
) -> u8
    requires { C.is_served call.now }
    ensures { AnswersByOrGivesUp (λ reads. C.answers (H.digest_of hash) call.now (texts_read reads)) (Some (C.asks call.now))
        (around (F.told files.old) (F.log files.old) (F.taken files.old) (F.faults files.old) (S.pieces out.old) (S.faults out.old))
        (around (F.told files.new) (F.log files.new) (F.taken files.new) (F.faults files.new) (S.pieces out.new) (S.faults out.new)) result }
{
    match reply(alloc, hash, call, files) {
        Ok(reply) => finish(out, reply.status, reply.text.as_slice()),
        Err(_) => 5,
    }
}

/// Does what words were read as, and answers its status: 2 where they are no command, 3 where a file can't be read, 4 where the text
/// can't be written, 5 as memory ran out. Nothing is read, and no memory asked, of words that are no command.
pub fn serve<C: Call + Drop, H: Hash32 + Drop, F: Files, S: Sink>(
    alloc: Global,
    hash: H,
    parsed: Result<Option<C>, OutOfMemory>,
    files: &mut F,
    out: &mut S,
) -> u8
    requires { IfCall C.is_served parsed }
    ensures { Answered C.asks (C.answers (H.digest_of hash)) parsed
        (around (F.told files.old) (F.log files.old) (F.taken files.old) (F.faults files.old) (S.pieces out.old) (S.faults out.old))
        (around (F.told files.new) (F.log files.new) (F.taken files.new) (F.faults files.new) (S.pieces out.new) (S.faults out.new)) result }
{
    match parsed {
        Ok(None) => finish(out, 2, b"usage\n"),
        Ok(Some(call)) => serve_call(alloc, hash, &call, files, out),
        Err(_) => 5,
    }
}
