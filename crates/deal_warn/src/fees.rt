//! What transactions pay.

ghost use Rattle.std.specs.Prelude.{◌≡◌, IfOk};
ghost use Rattle.spec_deal.specs.WarnText.{paid_value};
ghost use Rattle.deal_warn.specs.Warned as spec;

use crate::sizes::add;
use spec_bitcoin::TxOut;
use spec_data::OutOfMemory;
use spec_deal::{Input, Transaction};

// What these inputs spend.
fn spent_value(inputs: &[Input]) -> Result<u64, OutOfMemory>
    ensures { IfOk result (λ value. value ≡ spec.spent_by inputs.now) }
{
    let mut sum = 0u64;
    for input in inputs {
        sum = add(sum, input.spent.value)?;
    }
    Ok(sum)
}

// What these outputs have.
fn paid_value(outputs: &[TxOut]) -> Result<u64, OutOfMemory>
    ensures { IfOk result (λ value. value ≡ paid_value outputs.now) }
{
    let mut sum = 0u64;
    for output in outputs {
        sum = add(sum, output.value)?;
    }
    Ok(sum)
}

/// The fee of a transaction. Values of more than 64 bits together, which no coins have, count as out of memory.
#[tactic(auto, unfolding(crate::specs::Warned::fee_by))]
pub fn fee_of(transaction: &Transaction) -> Result<u64, OutOfMemory>
    ensures { IfOk result (λ fee. fee ≡ spec.fee_by transaction.now) }
{
    let spent = spent_value(transaction.inputs.as_slice())?;
    let paid = paid_value(transaction.tx.outputs.as_slice())?;
    Ok(spent.saturating_sub(paid))
}
