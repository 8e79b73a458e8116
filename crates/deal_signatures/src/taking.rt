//! Signatures are taken one by one.

ghost use Rattle.std.specs.Prelude.{◌≡◌};
ghost use Rattle.std.specs.List.{find};
ghost use Rattle.spec_deal.specs.SignatureFile as spec;
ghost use Rattle.spec_deal.specs.Verifier.{secp256k1};
ghost use Rattle.deal_signatures.specs.Keying.{signed_by};
ghost use Rattle.deal_signatures.specs.Gives.{Stops, Takes};

use crate::error::LineError;
use crate::given::Given;
use crate::required::Outstanding;
use crate::shape::is_strict;
use spec_data::Bytes;
use spec_deal::SignatureReason;
use std::alloc::Global;

// The first signature of its place, if it verifies.
fn take_first(
    alloc: Global,
    required: &Outstanding,
    given: &mut Given,
    tx: &[u8],
    input: u32,
    key: &[u8; 33],
    signature: &[u8],
) -> Result<(), LineError>
    ensures { let g = signed_by tx.now input key.now signature.now in
        Takes given.old given.new result (spec.taken_first (spec.is_verified secp256k1 required.now g) given.old g) }
{
    if !required.is_verified(alloc, tx, input, key, signature)? {
        return Err(LineError::Bad(SignatureReason::Invalid(input)));
    }
    given.push(alloc, tx, input, key, signature)?;
    Ok(())
}

// Why another signature of a place isn't taken.
fn second_refused(
    alloc: Global,
    required: &Outstanding,
    tx: &[u8],
    input: u32,
    key: &[u8; 33],
    signature: &[u8],
) -> LineError
    ensures { let g = signed_by tx.now input key.now signature.now in
        Stops result (spec.refused_second (spec.is_verified secp256k1 required.now g) g) }
{
    match required.is_verified(alloc, tx, input, key, signature) {
        Ok(true) => LineError::Bad(SignatureReason::Conflict(input)),
        Ok(false) => LineError::Bad(SignatureReason::Invalid(input)),
        Err(_) => LineError::Memory,
    }
}

// One more signature of the right key and shape. One that was given earlier isn't verified again.
fn take_once(
    alloc: Global,
    required: &Outstanding,
    given: &mut Given,
    tx: &[u8],
    input: u32,
    key: &[u8; 33],
    signature: &[u8],
) -> Result<(), LineError>
    ensures { let g = signed_by tx.now input key.now signature.now in
        Takes given.old given.new result (spec.taken_once (spec.is_verified secp256k1 required.now g) given.old g
        (find (λ earlier. spec.same_place earlier g) given.old)) }
{
    match given.signature(alloc, tx, input, key)? {
        Some(earlier) => {
            if earlier.as_slice() == signature {
                Ok(())
            } else {
                Err(second_refused(alloc, required, tx, input, key, signature))
            }
        }
        None => take_first(alloc, required, given, tx, input, key, signature),
    }
}

/// One more signature: for a key that a transaction with these bytes needs there, of the right shape, one that verifies, and no other
/// than an earlier one.
pub(crate) fn take_signature(
    alloc: Global,
    required: &Outstanding,
    given: &mut Given,
    tx: &[u8],
    input: u32,
    key: &[u8; 33],
    signature: &[u8],
) -> Result<(), LineError>
    ensures { let g = signed_by tx.now input key.now signature.now in
        Takes given.old given.new result (spec.take_signature secp256k1 required.now given.old g) }
{
    if !required.is_required(alloc, tx, input, key)? {
        return Err(LineError::Bad(SignatureReason::Key(input)));
    }
    if !is_strict(alloc, signature)? {
        return Err(LineError::Bad(SignatureReason::Signature(input)));
    }
    take_once(alloc, required, given, tx, input, key, signature)
}

/// The signatures of an input in order.
pub(crate) fn take_signatures(
    alloc: Global,
    required: &Outstanding,
    given: &mut Given,
    tx: &[u8],
    input: u32,
    pairs: &[([u8; 33], Bytes)],
) -> Result<(), LineError>
    ensures { Takes given.old given.new result (spec.take_signatures secp256k1 required.now tx.now input given.old pairs.now) }
{
    for (key, signature) in pairs {
        take_signature(alloc, required, given, tx, input, key, signature.as_slice())?;
    }
    Ok(())
}
