//! The signatures of inputs.

ghost use Rattle.std.specs.Prelude.{◌≡◌, ◌++◌, map, reverse, IfOk, OnOk};
ghost use Rattle.spec_deal.specs.declared.transaction.Signer.{Signer as Signs};
ghost use Rattle.deal_finish.specs.Filled as spec;

use deal_signatures::Given;
use spec_data::{Bytes, OutOfMemory, Seq};
use spec_deal::{Input, Signer};
use std::alloc::Global;

// The signature of an input by a key, nothing without one.
fn signature_at(
    alloc: Global,
    given: &Given,
    tx: &[u8],
    number: u32,
    key: &[u8; 33],
) -> Result<Bytes, OutOfMemory>
    ensures { IfOk result (λ b. b ≡ spec.signature_at given.now tx.now number key.now) }
{
    match given.signature(alloc, tx, number, key)? {
        Some(signature) => Ok(signature.copy(alloc)?),
        None => Ok(Bytes::of(Vec::new(alloc))),
    }
}

/// The signatures of an input of this number of the transaction with these bytes, in the order of its signers.
pub(crate) fn signatures_of(
    alloc: Global,
    given: &Given,
    tx: &[u8],
    number: u32,
    input: &Input,
) -> Result<Vec<Bytes>, OutOfMemory>
    ensures { IfOk result (λ all. all.items ≡ spec.signatures_by given.now tx.now number input.now) }
{
    let mut all = Vec::new(alloc);
    for signer in input.signers.as_slice() {
        all.push(signature_at(alloc, given, tx, number, &signer.key)?)?;
    }
    Ok(all)
}

// The items of a witness of an input by a key, none without one.
fn put_witness_at(
    alloc: Global,
    items: &mut Vec<Bytes>,
    given: &Given,
    tx: &[u8],
    number: u32,
    key: &[u8; 33],
) -> Result<(), OutOfMemory>
    ensures { OnOk result (items.new.items ≡ items.old.items ++ spec.witness_at given.now tx.now number key.now) }
{
    match given.witness(alloc, tx, number, key)? {
        Some(witness) => put_items(alloc, items, witness.as_slice()),
        None => Ok(()),
    }
}

// Those of these signers, in order.
fn put_witnesses(
    alloc: Global,
    items: &mut Vec<Bytes>,
    given: &Given,
    tx: &[u8],
    number: u32,
    signers: &[Signer],
) -> Result<(), OutOfMemory>
    ensures { OnOk result (items.new.items ≡ items.old.items ++ spec.wallet_by given.now tx.now number signers.now) }
{
    for signer in signers {
        put_witness_at(alloc, items, given, tx, number, &signer.key)?;
    }
    Ok(())
}

/// What a wallet gave for an input of this number of the transaction with these bytes.
pub(crate) fn wallet_witness(
    alloc: Global,
    given: &Given,
    tx: &[u8],
    number: u32,
    signers: &[Signer],
) -> Result<Seq<Bytes>, OutOfMemory>
    ensures { IfOk result (λ items. items ≡ spec.wallet_by given.now tx.now number signers.now) }
{
    let mut items = Vec::new(alloc);
    put_witnesses(alloc, &mut items, given, tx, number, signers)?;
    Ok(Seq::of(items))
}

/// These items, the last one first.
pub(crate) fn put_reversed(
    alloc: Global,
    stack: &mut Vec<Bytes>,
    items: &[Bytes],
) -> Result<(), OutOfMemory>
    ensures { OnOk result (stack.new.items ≡ stack.old.items ++ reverse items.now) }
{
    let mut rest = items;
    while let Some((item, others)) = rest.split_last() {
        stack.push(item.copy(alloc)?)?;
        rest = others;
    }
    Ok(())
}

/// These items in order.
pub(crate) fn put_items(
    alloc: Global,
    stack: &mut Vec<Bytes>,
    items: &[Bytes],
) -> Result<(), OutOfMemory>
    ensures { OnOk result (stack.new.items ≡ stack.old.items ++ items.now) }
{
    for item in items {
        stack.push(item.copy(alloc)?)?;
    }
    Ok(())
}
