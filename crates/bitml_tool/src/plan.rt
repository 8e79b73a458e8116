//! What `plan` replies.

ghost use Rattle.std.specs.Prelude.{◌≡◌, ◌≤◌, length, IfOk};
ghost use Rattle.spec_text.specs.PlanText.{plan_text};
ghost use Rattle.spec_tool.specs.Commands.{run_answer};
ghost use Rattle.spec_tool.specs.Answers.{with_contract};
ghost use Rattle.spec_tool.specs.Replies.{printed};

use bm_hash::Hash32;
use spec_data::{Bytes, OutOfMemory};
use spec_tool::Reply;
use std::alloc::Global;
use tool_command::{Judgement, judge_two};
use tool_replies::plan_reply;

/// What `plan` replies to the texts of a run and its contract.
pub(crate) fn plan_texts<H: Hash32 + Drop>(
    alloc: Global,
    hash: H,
    texts: &[Option<Bytes>],
) -> Result<Reply, OutOfMemory>
    requires { 2 ≤ length texts.now }
    ensures { IfOk result (λ reply. printed reply ≡ with_contract (run_answer plan_text) (H.digest_of hash) texts.now) }
{
    match judge_two(alloc, texts)? {
        Judgement::Refused(reply) => Ok(reply),
        Judgement::Taken(run, contracts) => plan_reply(alloc, hash, &run, contracts),
    }
}
