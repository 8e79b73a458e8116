//! What is replied to the texts of files.

ghost use Rattle.std.specs.Prelude.{◌≡◌, ◌≤◌, ◌+◌, length, option_map, IfOk};
ghost use Rattle.spec_data.specs.Ranges.{most_contracts};
ghost use Rattle.spec_tool.specs.Answers.{contract_in, contracts_in, run_in, if_whole};
ghost use Rattle.spec_tool.specs.Commands.{prints, both_judged};
ghost use Rattle.spec_next.specs.FirstLines as first;
ghost use Rattle.spec_next.specs.Foreseen.{next_printed};
ghost use Rattle.spec_next.specs.NextAnswer as spec;
ghost use Rattle.spec_tool.specs.Replies.{printed};

use crate::playing::next_reply;
use bm_hash::Hash32;
use bm_wellformed::Checked;
use next_text::begin_text;
use spec_data::{Bytes, OutOfMemory};
use spec_next::Form;
use spec_tool::Reply;
use std::alloc::{AllocError, Global};
use tool_command::{JudgeError, Judgement, contract_in, contract_refused, judge_both};

// The first lines of a run of a contract.
fn begins(alloc: Global, contract: &Checked) -> Result<Reply, OutOfMemory>
    ensures { IfOk result (λ reply. printed reply ≡ prints 0 (first.begin_text contract.now)) }
{
    let text = begin_text(alloc, contract)?;
    Ok(Reply::new(0, text))
}

// What is replied to the text of a contract.
fn contract_reply(alloc: Global, text: &Option<Bytes>) -> Result<Reply, OutOfMemory>
    ensures { IfOk result (λ reply. printed reply ≡ spec.begins_judged (contract_in text.now)) }
{
    match contract_in(alloc, text) {
        Ok(contract) => begins(alloc, &contract),
        Err(JudgeError::Refused(why)) => contract_refused(alloc, 0, why.as_slice()),
        Err(JudgeError::Memory) => Err(AllocError),
    }
}

// What is replied to the texts of a run and of its contracts.
fn run_reply<H: Hash32 + Drop>(
    alloc: Global,
    hash: H,
    form: Form,
    party: Option<&[u8]>,
    run: &Option<Bytes>,
    contracts: &[Option<Bytes>],
) -> Result<Reply, OutOfMemory>
    requires { length contracts.now ≤ most_contracts }
    ensures { IfOk result (λ reply. printed reply
        ≡ both_judged (if_whole (next_printed form (option_map (λ p. p.now) party.entry))) (H.digest_of hash) (run_in run.now) (contracts_in 0 contracts.now)) }
{
    match judge_both(alloc, run, contracts)? {
        Judgement::Refused(reply) => Ok(reply),
        Judgement::Taken(run, contracts) => next_reply(alloc, hash, form, party, &run, contracts),
    }
}

/// What is replied to these texts in this form, for all or for one party: one is a contract, of more the first is a run.
pub(crate) fn next_texts<H: Hash32 + Drop>(
    alloc: Global,
    hash: H,
    form: Form,
    party: Option<&[u8]>,
    texts: &[Option<Bytes>],
) -> Result<Reply, OutOfMemory>
    requires { length texts.now ≤ most_contracts + 1 }
    ensures { IfOk result (λ reply. printed reply ≡ spec.next_texts (H.digest_of hash) form (option_map (λ p. p.now) party.entry) texts.now) }
{
    match texts {
        [] => Ok(Reply {
            status: 2,
            text: Bytes::from_slice(alloc, b"usage\n")?,
        }),
        [contract] => contract_reply(alloc, contract),
        [run, contracts @ ..] => run_reply(alloc, hash, form, party, run, contracts),
    }
}
