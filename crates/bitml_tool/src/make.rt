//! What `make` replies.

ghost use Rattle.std.specs.Prelude.{◌≡◌, ◌≤◌, ◌∷◌, [], Some, IfOk};
ghost use Rattle.spec_text.specs.PlanText.{make_text};
ghost use Rattle.spec_tool.specs.Commands.{most_size, run_answer, both_judged, make_answer};
ghost use Rattle.spec_tool.specs.Answers.{run_in, contracts_in};
ghost use Rattle.tool_command.specs.Judges.{JudgesFiles, IsTakenIfAny};
ghost use Rattle.spec_tool.specs.Replies.{printed};

use bm_hash::Hash32;
use bm_make::make;
use spec_data::{Bytes, OutOfMemory};
use spec_tool::Reply;
use std::alloc::Global;
use tool_command::{Judgement, judge_both};
use tool_replies::generated_reply;

// The texts of a generated run and its contract, judged as if they had been read. Nothing needs them after that, so they are dropped.
fn judged(alloc: Global, run: Bytes, contract: Bytes) -> Result<Judgement, OutOfMemory>
    ensures files { IfOk result (JudgesFiles (run_in (Some run)) (Some contract ∷ [])) }
    ensures taken { IfOk result IsTakenIfAny }
{
    judge_both(alloc, &Some(run), &[Some(contract)])
}

// What is replied to the texts of a generated run and its contract.
fn made_texts<H: Hash32 + Drop>(
    alloc: Global,
    hash: H,
    run: Bytes,
    contract: Bytes,
) -> Result<Reply, OutOfMemory>
    ensures { IfOk result (λ reply. printed reply ≡ both_judged (run_answer make_text) (H.digest_of hash)
        (run_in (Some run)) (contracts_in 0 (Some contract ∷ []))) }
{
    match judged(alloc, run, contract)? {
        Judgement::Refused(reply) => Ok(reply),
        Judgement::Taken(run, contracts) => generated_reply(alloc, hash, run, contracts),
    }
}

/// What `make` replies to a number and a size.
pub(crate) fn make_reply<H: Hash32 + Drop>(
    alloc: Global,
    hash: H,
    number: u64,
    size: u32,
) -> Result<Reply, OutOfMemory>
    requires { size ≤ most_size }
    ensures { IfOk result (λ reply. printed reply ≡ make_answer (H.digest_of hash) number size) }
{
    let (contract, run) = make(alloc, number, size)?;
    made_texts(alloc, hash, Bytes::of(run), Bytes::of(contract))
}
