//! What `audit` replies.

ghost use Rattle.std.specs.Prelude.{◌≡◌, length, IfOk};
ghost use Rattle.spec_tool.specs.Reads.{text_at};
ghost use Rattle.spec_tool.specs.Answers.{with_contract, audited_file};
ghost use Rattle.spec_tool.specs.Replies.{printed};

use crate::third::third;
use bm_hash::Hash32;
use spec_data::{Bytes, OutOfMemory};
use spec_tool::Reply;
use std::alloc::Global;
use tool_audit::audit_reply;
use tool_command::{Judgement, judge_two};

/// What `audit` replies to the texts of a run, of its contract and of a file with transactions.
pub(crate) fn audit_texts<H: Hash32 + Drop>(
    alloc: Global,
    hash: H,
    texts: &[Option<Bytes>],
) -> Result<Reply, OutOfMemory>
    requires { length texts.now ≡ 3 }
    ensures { IfOk result (λ reply. printed reply
        ≡ with_contract (audited_file (text_at texts.now 2)) (H.digest_of hash) texts.now) }
{
    match judge_two(alloc, texts)? {
        Judgement::Refused(reply) => Ok(reply),
        Judgement::Taken(run, contracts) => {
            audit_reply(alloc, hash, &run, contracts, third(texts))
        }
    }
}
