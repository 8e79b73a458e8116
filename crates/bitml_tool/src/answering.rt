//! What each command replies to the texts of its files.

ghost use Rattle.std.specs.Prelude.{◌≡◌, true, length, Some, IfOk};
ghost use Rattle.spec_tool.specs.Commands.{files_of};
ghost use Rattle.spec_tool.specs.Answers.{text_answer};
ghost use Rattle.tool_command.specs.Seen.{command};
ghost use Rattle.spec_tool.specs.Replies.{printed};
ghost use Rattle.bitml_tool.specs.Served.{IsServed};

use crate::audit::audit_texts;
use crate::auto::auto_texts;
use crate::check::check_texts;
use crate::make::make_reply;
use crate::plan::plan_texts;
use crate::play::play_texts;
use crate::psbt::{joined_texts, psbt_texts, shown_texts};
use crate::weigh::weigh_texts;
use bm_hash::Hash32;
use spec_data::{Bytes, OutOfMemory};
use spec_tool::Reply;
use std::alloc::Global;
use tool_command::Command;

/// What a command replies to the texts of its files.
pub(crate) fn text_reply<H: Hash32 + Drop>(
    alloc: Global,
    hash: H,
    call: &Command,
    texts: &[Option<Bytes>],
) -> Result<Reply, OutOfMemory>
    requires served { IsServed (Some (command call.now)) }
    requires count { length texts.now ≡ length (files_of (command call.now)) }
    ensures { IfOk result (λ reply. printed reply ≡ text_answer (H.digest_of hash) (command call.now) texts.now) }
{
    match call {
        Command::Check(_) => check_texts(alloc, texts),
        Command::Play(_, _) => play_texts(alloc, hash, texts),
        Command::Plan(_, _) => plan_texts(alloc, hash, texts),
        Command::Make(number, size) => make_reply(alloc, hash, *number, *size),
        Command::PsbtOf(_, _, which) => psbt_texts(alloc, hash, texts, which),
        Command::PsbtShown(_) => shown_texts(alloc, texts),
        Command::PsbtJoined(_, _) => joined_texts(alloc, texts),
        Command::Weigh(_, _) => weigh_texts(alloc, hash, texts),
        Command::Audit(_, _, _) => audit_texts(alloc, hash, texts),
        Command::Auto(_, _, _) => auto_texts(alloc, hash, texts),
    }
}
