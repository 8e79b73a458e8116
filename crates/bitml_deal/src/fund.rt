//! What `fund` replies.

ghost use Rattle.std.specs.Prelude.{◌≡◌, [], length, Ok, IfOk};
ghost use Rattle.spec_tool.specs.Answers.{contract_in};
ghost use Rattle.spec_tool.specs.Reads.{text_at};
ghost use Rattle.spec_deal.specs.Answers as answers;
ghost use Rattle.spec_deal.specs.Answers.{with_advert};
ghost use Rattle.spec_tool.specs.Commands.{prints};
ghost use Rattle.spec_deal.specs.FundText as spec;
ghost use Rattle.spec_deal.specs.Verifier.{secp256k1};
ghost use Rattle.spec_tool.specs.Replies.{printed};
ghost use Rattle.deal_file.specs.Gives.{Gives};
ghost use Rattle.bitml_deal.specs.Later.{IsUngiven};

use crate::opening::{collision_reply, deal_refused};
use bm_hash::{Hash32, Trail, TrailError};
use bm_wellformed::Checked;
use deal_file::{DealError, Part, read_part};
use deal_fund::{fund_text, hash_known};
use spec_data::{Bytes, OutOfMemory};
use spec_deal::DealFault;
use spec_tool::Reply;
use std::alloc::{AllocError, Global};
use tool_command::{JudgeError, contract_in, contract_refused};

// What a deal file gives, none of whose bytes are given where it is too long; or why it is refused.
fn part_in(alloc: Global, contract: &Checked, text: &Option<Bytes>) -> Result<Part, DealError>
    ensures { Gives (λ p. p) result (answers.part_in secp256k1 contract.now text.now) }
{
    match text {
        None => Err(DealError::Refused(DealFault::Size)),
        Some(bytes) => read_part(alloc, contract, bytes.as_slice()),
    }
}

// Where deposits and payouts go, once the scripts of the given keys are hashed.
fn shown<H: Hash32>(
    alloc: Global,
    hasher: &H,
    contract: &Checked,
    part: &Part,
) -> Result<Reply, OutOfMemory>
    ensures { IfOk result (λ reply. printed reply ≡ prints 0 (spec.fund_text (H.digest_of hasher.now) contract.now part.now)) }
{
    let text = fund_text(alloc, hasher, contract, part)?;
    Ok(Reply::new(0, text))
}

// What is replied to what a deal file gives.
fn part_reply<H: Hash32 + Drop>(
    alloc: Global,
    trail: &mut Trail<H>,
    contract: &Checked,
    part: &Part,
) -> Result<Reply, OutOfMemory>
    requires { trail.old.messages ≡ [] }
    ensures { IfOk result (λ reply. printed reply ≡ answers.fund_answer (H.digest_of trail.old.hasher) contract.now (Ok part.now)) }
{
    match hash_known(alloc, trail, contract, part) {
        Ok(()) => shown(alloc, trail.hasher(), contract, part),
        Err(TrailError::Collided) => collision_reply(alloc, trail),
        Err(TrailError::Memory) => Err(AllocError),
    }
}

// What is replied where no file is taken.
fn not_given(alloc: Global, error: &DealError) -> Result<Reply, OutOfMemory>
    ensures { IfOk result (λ reply. IsUngiven error.now (printed reply)) }
{
    match error {
        DealError::Refused(fault) => deal_refused(alloc, fault),
        DealError::Memory => Err(AllocError),
    }
}

// What is replied of a contract to the text of a deal file.
fn file_reply<H: Hash32 + Drop>(
    alloc: Global,
    hash: H,
    contract: &Checked,
    text: &Option<Bytes>,
) -> Result<Reply, OutOfMemory>
    ensures { IfOk result (λ reply. printed reply
        ≡ answers.fund_answer (H.digest_of hash) contract.now (answers.part_in secp256k1 contract.now text.now)) }
{
    let mut trail = Trail::new(alloc, hash);
    match part_in(alloc, contract, text) {
        Ok(part) => part_reply(alloc, &mut trail, contract, &part),
        Err(error) => not_given(alloc, &error),
    }
}

/// What `fund` replies to the texts of its contract and its deal file.
pub(crate) fn fund_texts<H: Hash32 + Drop>(
    alloc: Global,
    hash: H,
    texts: &[Option<Bytes>],
) -> Result<Reply, OutOfMemory>
    requires { length texts.now ≡ 2 }
    ensures { IfOk result (λ reply. printed reply
        ≡ with_advert (λ advert. answers.fund_answer (H.digest_of hash) advert (answers.part_in secp256k1 advert (text_at texts.now 1)))
        (contract_in (text_at texts.now 0))) }
{
    match contract_in(alloc, &texts[0]) {
        Ok(contract) => file_reply(alloc, hash, &contract, &texts[1]),
        Err(JudgeError::Refused(why)) => contract_refused(alloc, 0, why.as_slice()),
        Err(JudgeError::Memory) => Err(AllocError),
    }
}
