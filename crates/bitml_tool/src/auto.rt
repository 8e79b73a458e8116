//! What `auto` replies.

ghost use Rattle.std.specs.Prelude.{◌≡◌, length, IfOk};
ghost use Rattle.spec_tool.specs.Reads.{text_at};
ghost use Rattle.spec_tool.specs.Answers.{with_contract, size_of, strategy_file};
ghost use Rattle.spec_tool.specs.Replies.{printed};

use crate::third::third;
use bm_hash::Hash32;
use spec_data::{Bytes, OutOfMemory};
use spec_tool::Reply;
use std::alloc::Global;
use tool_auto::auto_reply;
use tool_command::{Judgement, judge_two};

// How many bytes the run file has.
fn run_bytes(texts: &[Option<Bytes>]) -> usize
    requires { length texts.now ≡ 3 }
    ensures { result ≡ size_of (text_at texts.now 0) }
{
    match &texts[0] {
        Some(bytes) => bytes.as_slice().len(),
        None => 0,
    }
}

/// What `auto` replies to the texts of a run, of its contract and of a strategy.
pub(crate) fn auto_texts<H: Hash32 + Drop>(
    alloc: Global,
    hash: H,
    texts: &[Option<Bytes>],
) -> Result<Reply, OutOfMemory>
    requires { length texts.now ≡ 3 }
    ensures { IfOk result (λ reply. printed reply
        ≡ with_contract (strategy_file (text_at texts.now 0) (text_at texts.now 2)) (H.digest_of hash) texts.now) }
{
    match judge_two(alloc, texts)? {
        Judgement::Refused(reply) => Ok(reply),
        Judgement::Taken(run, contracts) => {
            auto_reply(alloc, hash, &run, contracts, run_bytes(texts), third(texts))
        }
    }
}
