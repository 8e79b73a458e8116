//! What is replied where a file is refused, and to `check`.

ghost use Rattle.std.specs.Prelude.{◌≡◌, IfOk, Ok};
ghost use Rattle.spec_tool.specs.Commands as spec;
ghost use Rattle.spec_tool.specs.Answers.{contract_in};
ghost use Rattle.spec_tool.specs.Replies.{printed};

use crate::contract::contract_in;
use crate::error::JudgeError;
use crate::refusal::put_contract_refused;
use bm_print::print_advert;
use bm_text::put;
use bm_wellformed::Checked;
use spec_data::{Bytes, OutOfMemory};
use spec_tool::Reply;
use std::alloc::{AllocError, Global};

/// The contract of this number is refused.
pub fn contract_refused(alloc: Global, number: usize, why: &[u8]) -> Result<Reply, OutOfMemory>
    ensures { IfOk result (λ reply. printed reply ≡ spec.contract_refused number why.now) }
{
    let mut text = Vec::new(alloc);
    put_contract_refused(alloc, &mut text, number as u64, why)?;
    Ok(Reply::new(1, text))
}

/// The run is refused.
#[tactic(auto, using(std::proofs::Common::append_assoc))]
pub fn run_refused(alloc: Global, why: &[u8]) -> Result<Reply, OutOfMemory>
    ensures { IfOk result (λ reply. printed reply ≡ spec.run_refused why.now) }
{
    let mut text = Vec::new(alloc);
    put(&mut text, b"run refused ")?;
    put(&mut text, why)?;
    put(&mut text, b"\n")?;
    Ok(Reply::new(6, text))
}

/// The reply to a contract that is taken.
#[tactic(auto, using(std::proofs::Common::append_assoc))]
fn accepted(alloc: Global, contract: &Checked) -> Result<Reply, OutOfMemory>
    ensures { IfOk result (λ reply. printed reply ≡ spec.check_judged (Ok contract.now)) }
{
    let mut text = Vec::new(alloc);
    put(&mut text, b"contract 0 accepted\n")?;
    let canonical = print_advert(alloc, contract.advert())?;
    put(&mut text, canonical.as_slice())?;
    put(&mut text, b"\n")?;
    Ok(Reply::new(0, text))
}

/// What `check` replies to the file of its contract.
pub fn check_reply(alloc: Global, text: &Option<Bytes>) -> Result<Reply, OutOfMemory>
    ensures { IfOk result (λ reply. printed reply ≡ spec.check_judged (contract_in text.now)) }
{
    match contract_in(alloc, text) {
        Ok(contract) => accepted(alloc, &contract),
        Err(JudgeError::Refused(why)) => contract_refused(alloc, 0, why.as_slice()),
        Err(JudgeError::Memory) => Err(AllocError),
    }
}
