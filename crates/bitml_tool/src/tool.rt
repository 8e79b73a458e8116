//! The whole program, over files and a sink that are handed in.

ghost use Rattle.std.specs.Prelude.{◌≡◌, ℕ, List, length, Some, map, string_bytes, refl, is_some, true, option_map, IfOk, OnErr};
ghost use Rattle.spec_tool.specs.Answers.{read_answer};
ghost use Rattle.spec_tool.specs.Commands as spec;
ghost use Rattle.spec_tool.specs.Replies.{printed};
ghost use Rattle.tool_shell.specs.Around.{around};
ghost use Rattle.tool_shell.specs.Asked.{asked};
ghost use Rattle.tool_headline.specs.Headline.{Headline};
ghost use Rattle.bitml_tool.specs.Served.{seen, IsServed};

use crate::answering::text_reply;
use bm_hash::{Hash32, hashes_bytes};
use bm_io::{Files, Sink};
use spec_data::{Bytes, OutOfMemory};
use spec_tool::Reply;
use std::alloc::Global;
use tool_command::{Command, command_of, files_of};
use tool_headline::answers_are_headlines;
use tool_shell::{Call, serve};

/// A command, as it is served.
#[derive(Drop)]
pub(crate) struct ToolCall<'a> {
    command: Command<'a>,
}

impl Call for ToolCall<'_> {
    ghost is_served = { λ call. IsServed (Some (seen call)) };

    ghost asks = { λ call. spec.files_of (seen call) };

    ghost answers = { λ hash call. read_answer hash (seen call) };

    ghost unread = { λ hash call. refl };

    fn files(&self, alloc: Global) -> Result<Vec<(&str, usize)>, OutOfMemory>
        ensures { IfOk result (λ v. map asked v.items ≡ spec.files_of (seen self.now)) }
    {
        files_of(alloc, &self.command)
    }

    fn reply<H: Hash32 + Drop>(
        &self,
        alloc: Global,
        hash: H,
        texts: &[Option<Bytes>],
    ) -> Result<Reply, OutOfMemory>
        requires served { IsServed (Some (seen self.now)) }
        requires count { length texts.now ≡ length (spec.files_of (seen self.now)) }
        ensures { IfOk result (λ reply. printed reply ≡ read_answer (H.digest_of hash) (seen self.now) (Some texts.now)) }
    {
        text_reply(alloc, hash, &self.command, texts)
    }
}

/// The command that words are, if they are one. Of words that are none no memory is asked.
fn call_of(alloc: Global, words: &[String]) -> Result<Option<ToolCall<'_>>, OutOfMemory>
    ensures command { IfOk result (λ call. option_map seen call ≡ spec.command_of (map string_bytes words.now)) }
    ensures memory { OnErr result (is_some (spec.command_of (map string_bytes words.now)) ≡ true) }
{
    match command_of(alloc, words)? {
        None => Ok(None),
        Some(command) => Ok(Some(ToolCall { command })),
    }
}

/// Runs the command that words are: reads its files, writes its text, and answers its status.
pub fn run_tool<H: Hash32 + Drop, F: Files, S: Sink>(
    alloc: Global,
    words: &[String],
    hash: H,
    files: &mut F,
    out: &mut S,
) -> u8
    ensures { Headline (H.digest_of hash) (spec.command_of (map string_bytes words.now))
        (around (F.told files.old) (F.log files.old) (F.taken files.old) (F.faults files.old) (S.pieces out.old) (S.faults out.old))
        (around (F.told files.new) (F.log files.new) (F.taken files.new) (F.faults files.new) (S.pieces out.new) (S.faults out.new)) result }
{
    hashes_bytes(&hash);
    answers_are_headlines();
    serve(alloc, hash, call_of(alloc, words), files, out)
}
