//! What `play` replies.

ghost use Rattle.std.specs.Prelude.{◌≡◌, ◌+◌, ◌≤◌, length, drop, IfOk};
ghost use Rattle.spec_data.specs.Ranges.{most_contracts};
ghost use Rattle.spec_text.specs.Played.{play_text};
ghost use Rattle.spec_tool.specs.Reads.{text_at};
ghost use Rattle.spec_tool.specs.Commands.{run_answer, both_judged};
ghost use Rattle.spec_tool.specs.Answers.{run_in, contracts_in};
ghost use Rattle.spec_tool.specs.Replies.{printed};

use bm_hash::Hash32;
use spec_data::{Bytes, OutOfMemory};
use spec_tool::Reply;
use std::alloc::Global;
use tool_command::{Judgement, judge_both};
use tool_replies::play_reply;

/// What `play` replies to the texts of a run and its contracts.
pub(crate) fn play_texts<H: Hash32 + Drop>(
    alloc: Global,
    hash: H,
    texts: &[Option<Bytes>],
) -> Result<Reply, OutOfMemory>
    requires some { 1 ≤ length texts.now }
    requires few { length texts.now ≤ most_contracts + 1 }
    ensures { IfOk result (λ reply. printed reply ≡ both_judged (run_answer play_text) (H.digest_of hash)
        (run_in (text_at texts.now 0)) (contracts_in 0 (drop 1 texts.now))) }
{
    match judge_both(alloc, &texts[0], &texts[1..])? {
        Judgement::Refused(reply) => Ok(reply),
        Judgement::Taken(run, contracts) => play_reply(alloc, hash, run, contracts),
    }
}
