//! Contract files are judged in order.

ghost use Rattle.spec_tool.specs.Answers as spec;
ghost use Rattle.tool_command.specs.Judges.{JudgesAll};

use crate::contract::contract_in;
use crate::error::{ContractsError, JudgeError};
use bm_wellformed::Checked;
use spec_data::Bytes;
use std::alloc::Global;

/// The contracts of these files, or the number of the first that is refused, and why.
pub fn contracts_in(alloc: Global, texts: &[Option<Bytes>]) -> Result<Vec<Checked>, ContractsError>
    ensures { JudgesAll (λ v. v.items) result (spec.contracts_in 0 texts.now) }
{
    let mut contracts = Vec::new(alloc);
    for (number, text) in texts.iter().enumerate() {
        match contract_in(alloc, text) {
            Ok(contract) => contracts.push(contract)?,
            Err(JudgeError::Refused(why)) => return Err(ContractsError::Refused(number, why)),
            Err(JudgeError::Memory) => return Err(ContractsError::Memory),
        }
    }
    Ok(contracts)
}
