//! The signatures that transactions need, in order.

ghost use Rattle.std.specs.Prelude.{◌≡◌, ◌++◌, map, IfOk, OnOk};
ghost use Rattle.deal_missing.specs.Required as spec;

use deal_signatures::narrow;
use spec_data::OutOfMemory;
use spec_deal::{Input, Signer, Transaction};
use std::alloc::Global;

/// A signature that is needed: of this input, counted from 0, of the transaction, by whom.
#[derive(Clone, Copy)]
pub struct Wanted<'a> {
    pub transaction: &'a Transaction,
    pub number: u32,
    pub input: &'a Input,
    pub signer: &'a Signer,
}

// Those of an input.
fn put_signers<'a>(
    requirements: &mut Vec<Wanted<'a>>,
    transaction: &'a Transaction,
    number: u32,
    input: &'a Input,
) -> Result<(), OutOfMemory>
    ensures { OnOk result (map spec.wanted_in requirements.new.items
        ≡ map spec.wanted_in requirements.old.items ++ spec.input_required transaction.now number input.now) }
{
    for signer in input.signers.as_slice() {
        requirements.push(Wanted {
            transaction,
            number,
            input,
            signer,
        })?;
    }
    Ok(())
}

// Those of a transaction.
fn put_requirements<'a>(
    requirements: &mut Vec<Wanted<'a>>,
    transaction: &'a Transaction,
) -> Result<(), OutOfMemory>
    ensures { OnOk result (map spec.wanted_in requirements.new.items
        ≡ map spec.wanted_in requirements.old.items ++ spec.transaction_required transaction.now) }
{
    for (number, input) in transaction.inputs.as_slice().iter().enumerate() {
        put_signers(requirements, transaction, narrow(number)?, input)?;
    }
    Ok(())
}

/// The signatures that a transaction needs, by input and signer.
pub(crate) fn requirements_of(
    alloc: Global,
    transaction: &Transaction,
) -> Result<Vec<Wanted<'_>>, OutOfMemory>
    ensures { IfOk result (λ requirements. map spec.wanted_in requirements.items ≡ spec.transaction_required transaction.now) }
{
    let mut requirements = Vec::new(alloc);
    put_requirements(&mut requirements, transaction)?;
    Ok(requirements)
}

/// The signatures that all these transactions need, in order.
pub fn all_requirements(
    alloc: Global,
    transactions: &[Transaction],
) -> Result<Vec<Wanted<'_>>, OutOfMemory>
    ensures { IfOk result (λ requirements. map spec.wanted_in requirements.items ≡ spec.required transactions.now) }
{
    let mut requirements = Vec::new(alloc);
    for transaction in transactions {
        put_requirements(&mut requirements, transaction)?;
    }
    Ok(requirements)
}
