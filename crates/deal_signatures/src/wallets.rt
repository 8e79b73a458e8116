//! Witnesses that wallets give are taken one by one.

ghost use Rattle.std.specs.Prelude.{◌≡◌};
ghost use Rattle.std.specs.List.{find};
ghost use Rattle.spec_deal.specs.SignatureFile as spec;
ghost use Rattle.spec_deal.specs.Verifier.{secp256k1};
ghost use Rattle.deal_signatures.specs.Keying.{witnessed_by};
ghost use Rattle.deal_signatures.specs.Gives.{Stops, Takes};

use crate::error::LineError;
use crate::given::Given;
use crate::places::wallet_key;
use crate::same::spent_fits;
use crate::witnesses::{has_strict_signature, has_witness_form, same_items, verifies_beside};
use spec_data::{Bytes, Seq};
use spec_deal::{Input, SignatureReason, Wallet};
use spec_tool::PsbtInput;
use std::alloc::Global;

// The first witness of its input, if it verifies.
fn take_first(
    alloc: Global,
    given: &mut Given,
    tx: &[u8],
    input: u32,
    verified: bool,
    items: &[Bytes],
) -> Result<(), LineError>
    ensures { Takes given.old given.new result (spec.taken_first verified given.old (witnessed_by tx.now input items.now)) }
{
    if !verified {
        return Err(LineError::Bad(SignatureReason::Invalid(input)));
    }
    given.push_witness(alloc, tx, input, items)?;
    Ok(())
}

// Why another witness of an input isn't taken.
fn second_refused(tx: &[u8], input: u32, verified: bool, items: &[Bytes]) -> LineError
    ensures { Stops result (spec.refused_second verified (witnessed_by tx.now input items.now)) }
{
    if verified {
        LineError::Bad(SignatureReason::Conflict(input))
    } else {
        LineError::Bad(SignatureReason::Invalid(input))
    }
}

// One more witness of the right form. One that was given earlier isn't verified again.
fn take_once(
    alloc: Global,
    given: &mut Given,
    tx: &[u8],
    input: u32,
    digest: &[u8; 32],
    script: &[u8],
    items: &[Bytes],
) -> Result<(), LineError>
    ensures { let g = witnessed_by tx.now input items.now in
        Takes given.old given.new result (spec.witness_taken_once (spec.verifies_beside secp256k1 digest.now script.now items.now) given.old g
        (find (λ earlier. spec.same_place earlier g) given.old)) }
{
    match given.witness(alloc, tx, input, &wallet_key())? {
        Some(earlier) => {
            if same_items(earlier.as_slice(), items) {
                Ok(())
            } else {
                Err(second_refused(tx, input, verifies_beside(digest, script, items), items))
            }
        }
        None => take_first(
            alloc,
            given,
            tx,
            input,
            verifies_beside(digest, script, items),
            items,
        ),
    }
}

// One more witness: of the form that spends this script, one that verifies as far as that is known, and no other than an earlier one.
fn take_witness(
    alloc: Global,
    given: &mut Given,
    tx: &[u8],
    input: u32,
    digest: &[u8; 32],
    script: &[u8],
    items: &[Bytes],
) -> Result<(), LineError>
    ensures { Takes given.old given.new result
        (spec.take_witness secp256k1 digest.now script.now given.old (witnessed_by tx.now input items.now)) }
{
    if !has_witness_form(script, items) {
        return Err(LineError::Bad(SignatureReason::Witness(input)));
    }
    if !has_strict_signature(alloc, script, items)? {
        return Err(LineError::Bad(SignatureReason::Signature(input)));
    }
    take_once(alloc, given, tx, input, digest, script, items)
}

// The final witness, if there is one.
fn take_final(
    alloc: Global,
    given: &mut Given,
    tx: &[u8],
    number: u32,
    input: &Input,
    wallet: &Wallet,
    witness: &Option<Seq<Bytes>>,
) -> Result<(), LineError>
    ensures { Takes given.old given.new result (spec.take_final secp256k1 tx.now number given.old input.now wallet.now witness.now) }
{
    match witness {
        None => Ok(()),
        Some(items) => {
            let script = wallet.script.as_slice();
            take_witness(
                alloc,
                given,
                tx,
                number,
                &input.digest,
                script,
                items.as_slice(),
            )
        }
    }
}

/// The witness of an input that a wallet signs. The wallet's own signatures and scripts are read over.
pub(crate) fn take_wallet_input(
    alloc: Global,
    given: &mut Given,
    tx: &[u8],
    number: u32,
    input: &Input,
    wallet: &Wallet,
    said: &PsbtInput,
) -> Result<(), LineError>
    ensures { Takes given.old given.new result
        (spec.take_wallet_input secp256k1 tx.now number given.old input.now wallet.now said.now) }
{
    if !spent_fits(&input.output, &said.spent) {
        return Err(LineError::Bad(SignatureReason::Spent(number)));
    }
    take_final(alloc, given, tx, number, input, wallet, &said.witness)
}
