//! The signatures and witnesses of a transaction's inputs.

ghost use Rattle.std.specs.Prelude.{◌≡◌, ◌++◌, option_map};
ghost use Rattle.spec_deal.specs.SignatureFile as spec;
ghost use Rattle.spec_deal.specs.Verifier.{secp256k1};
ghost use Rattle.deal_signatures.specs.Gives.{Takes, one_or_none};

use crate::error::LineError;
use crate::given::Given;
use crate::required::{Outstanding, narrow};
use crate::same::{final_signature, script_fits, spent_fits};
use crate::taking::{take_signature, take_signatures};
use crate::wallets::take_wallet_input;
use spec_data::Bytes;
use spec_deal::{Input, SignatureReason};
use spec_tool::PsbtInput;
use std::alloc::Global;

// The signature of a final witness, if there is one.
fn take_final(
    alloc: Global,
    required: &Outstanding,
    given: &mut Given,
    tx: &[u8],
    number: u32,
    last: Option<([u8; 33], &Bytes)>,
) -> Result<(), LineError>
    ensures { Takes given.old given.new result
        (spec.take_signatures secp256k1 required.now tx.now number given.old (one_or_none (option_map (λ p. (p.0, p.1.now)) last.entry))) }
{
    match last {
        Some(last) => {
            let key = last.0;
            take_signature(alloc, required, given, tx, number, &key, last.1.as_slice())
        }
        None => Ok(()),
    }
}

// The signatures of an input's records, and then that of its final witness.
fn take_fitting(
    alloc: Global,
    required: &Outstanding,
    given: &mut Given,
    tx: &[u8],
    number: u32,
    pairs: &[([u8; 33], Bytes)],
    last: Option<([u8; 33], &Bytes)>,
) -> Result<(), LineError>
    ensures { Takes given.old given.new result (spec.take_signatures secp256k1 required.now tx.now number given.old
        (pairs.now ++ one_or_none (option_map (λ p. (p.0, p.1.now)) last.entry))) }
{
    match take_signatures(alloc, required, given, tx, number, pairs) {
        Ok(()) => take_final(alloc, required, given, tx, number, last),
        Err(error) => Err(error),
    }
}

// The signatures of an input that keys of the deal sign, those of its records first.
fn take_key_input(
    alloc: Global,
    required: &Outstanding,
    given: &mut Given,
    tx: &[u8],
    number: u32,
    input: &Input,
    said: &PsbtInput,
) -> Result<(), LineError>
    ensures { Takes given.old given.new result
        (spec.take_key_input secp256k1 required.now tx.now number given.old input.now said.now) }
{
    let script = input.spent.script.as_slice();
    if !spent_fits(&input.output, &said.spent) {
        return Err(LineError::Bad(SignatureReason::Spent(number)));
    }
    if !script_fits(script, &said.script) {
        return Err(LineError::Bad(SignatureReason::Script(number)));
    }
    let Some(last) = final_signature(script, &said.witness) else {
        return Err(LineError::Bad(SignatureReason::Witness(number)));
    };
    take_fitting(
        alloc,
        required,
        given,
        tx,
        number,
        said.partial.as_slice(),
        last,
    )
}

// The signatures of an input, or the witness that its wallet gives.
fn take_input(
    alloc: Global,
    required: &Outstanding,
    given: &mut Given,
    tx: &[u8],
    number: u32,
    input: &Input,
    said: &PsbtInput,
) -> Result<(), LineError>
    ensures { Takes given.old given.new result
        (spec.take_input secp256k1 required.now tx.now number given.old input.now said.now) }
{
    match &input.wallet {
        None => take_key_input(alloc, required, given, tx, number, input, said),
        Some(wallet) => take_wallet_input(alloc, given, tx, number, input, wallet, said),
    }
}

/// The signatures of the inputs in order, as far as something is said of them.
pub(crate) fn take_inputs(
    alloc: Global,
    required: &Outstanding,
    given: &mut Given,
    tx: &[u8],
    inputs: &[Input],
    said: &[PsbtInput],
) -> Result<(), LineError>
    ensures { Takes given.old given.new result
        (spec.take_inputs secp256k1 required.now tx.now 0 given.old inputs.now said.now) }
{
    let mut rest = said;
    for (number, input) in inputs.iter().enumerate() {
        let Some((first, after)) = rest.split_first() else {
            return Ok(());
        };
        take_input(alloc, required, given, tx, narrow(number)?, input, first)?;
        rest = after;
    }
    Ok(())
}
