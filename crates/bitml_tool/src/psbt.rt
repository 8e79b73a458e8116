//! What `psbt` replies: to a run, its contract and the name of a transaction, and to files with partially signed transactions.

ghost use Rattle.std.specs.Prelude.{◌≡◌, ◌≤◌, length, IfOk};
ghost use Rattle.std.specs.Option.{option_copied};
ghost use Rattle.spec_tool.specs.Reads.{text_at};
ghost use Rattle.spec_tool.specs.Answers.{with_contract, if_whole, printed_of};
ghost use Rattle.spec_tool.specs.PsbtText as psbts;
ghost use Rattle.spec_tool.specs.Replies.{printed};

use bm_hash::Hash32;
use bm_psbt_text::{psbt_joined, psbt_shown};
use spec_data::{Bytes, OutOfMemory};
use spec_tool::{Reply, Which};
use std::alloc::Global;
use tool_command::{Judgement, judge_two};
use tool_replies::psbt_reply;

/// What `psbt RUN CONTRACT WHICH` replies to the texts of a run and its contract.
pub(crate) fn psbt_texts<H: Hash32 + Drop>(
    alloc: Global,
    hash: H,
    texts: &[Option<Bytes>],
    which: &Which,
) -> Result<Reply, OutOfMemory>
    requires { 2 ≤ length texts.now }
    ensures { IfOk result (λ reply. printed reply
        ≡ with_contract (if_whole (printed_of (psbts.psbt_text which.now))) (H.digest_of hash) texts.now) }
{
    match judge_two(alloc, texts)? {
        Judgement::Refused(reply) => Ok(reply),
        Judgement::Taken(run, contracts) => psbt_reply(alloc, hash, &run, contracts, which),
    }
}

// The bytes of a file, none of one that is too long.
fn bytes_of(text: &Option<Bytes>) -> Option<&[u8]>
    ensures { option_copied result ≡ text.now }
{
    match text {
        Some(bytes) => Some(bytes.as_slice()),
        None => None,
    }
}

/// What `psbt FILE` replies to the text of its file.
pub(crate) fn shown_texts(alloc: Global, texts: &[Option<Bytes>]) -> Result<Reply, OutOfMemory>
    requires { length texts.now ≡ 1 }
    ensures { IfOk result (λ reply. printed reply ≡ psbts.shown_answer (text_at texts.now 0)) }
{
    psbt_shown(alloc, bytes_of(&texts[0]))
}

/// What `psbt FILE FILE` replies to the texts of its files.
pub(crate) fn joined_texts(alloc: Global, texts: &[Option<Bytes>]) -> Result<Reply, OutOfMemory>
    requires { length texts.now ≡ 2 }
    ensures { IfOk result (λ reply. printed reply ≡ psbts.joined_answer (text_at texts.now 0) (text_at texts.now 1)) }
{
    psbt_joined(alloc, bytes_of(&texts[0]), bytes_of(&texts[1]))
}
