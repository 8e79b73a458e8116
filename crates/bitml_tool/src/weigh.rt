//! What `weigh` replies.

ghost use Rattle.std.specs.Prelude.{◌≡◌, ◌≤◌, length, IfOk};
ghost use Rattle.spec_tool.specs.Answers.{with_contract, if_whole, printed_of};
ghost use Rattle.spec_tool.specs.WeighText as weights;
ghost use Rattle.spec_tool.specs.Replies.{printed};

use bm_hash::Hash32;
use spec_data::{Bytes, OutOfMemory};
use spec_tool::Reply;
use std::alloc::Global;
use tool_command::{Judgement, judge_two};
use tool_replies::weigh_reply;

/// What `weigh` replies to the texts of a run and its contract.
pub(crate) fn weigh_texts<H: Hash32 + Drop>(
    alloc: Global,
    hash: H,
    texts: &[Option<Bytes>],
) -> Result<Reply, OutOfMemory>
    requires { 2 ≤ length texts.now }
    ensures { IfOk result (λ reply. printed reply
        ≡ with_contract (if_whole (printed_of weights.weigh_text)) (H.digest_of hash) texts.now) }
{
    match judge_two(alloc, texts)? {
        Judgement::Refused(reply) => Ok(reply),
        Judgement::Taken(run, contracts) => weigh_reply(alloc, hash, &run, contracts),
    }
}
