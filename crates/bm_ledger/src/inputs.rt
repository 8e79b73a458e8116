//! The conditions on an input.

ghost use Rattle.std.specs.Prelude.{◌≡◌, IfOk};
ghost use Rattle.std.specs.List.{list_any};
ghost use Rattle.std.specs.Option.{option_and_then, option_copied};
ghost use Rattle.spec_data.specs.Lists.{first_reason};
ghost use Rattle.spec_bitcoin.specs.Live.{at_place};
ghost use Rattle.spec_bitcoin.specs.Verdict as spec;
ghost use Rattle.bm_ledger.specs.Judging.{program_in, unfilled_refusal, row_with, spending_refusal};

use crate::hashes::InputHashes;
use crate::outputs::Live;
use crate::signatures::BookCheck;
use bm_book::Book;
use bm_hash::Hash32;
use bm_interp::eval;
use spec_bitcoin::{Refusal, TxIn, TxOut};
use spec_data::{Bytes, MOST_ITEM_BYTES, OutOfMemory};
use std::alloc::Global;

// The hash that an output pays to.
fn program(script: &[u8]) -> Option<&[u8]>
    ensures { option_copied result ≡ program_in script.now }
{
    match script {
        [0, 32, rest @ ..] if rest.len() == 32 => Some(rest),
        _ => None,
    }
}

/// The script in a witness, its last item.
pub(crate) fn script_of(witness: &[Bytes]) -> &[u8]
    ensures { result.now ≡ spec.script_of witness.now }
{
    match witness.split_last() {
        Some((script, _)) => script.as_slice(),
        None => &[],
    }
}

// The items before the script.
fn items_of(witness: &[Bytes]) -> &[Bytes]
    ensures { result.now ≡ spec.items_of witness.now }
{
    match witness.split_last() {
        Some((_, items)) => items,
        None => &[],
    }
}

fn has_long(items: &[Bytes]) -> bool
    ensures { result ≡ list_any spec.is_long items.now }
{
    items
        .iter()
        .any(|item| item.as_slice().len() > MOST_ITEM_BYTES)
}

// What is wrong with input k, which has no witness.
fn refused_unfilled(k: u32, input: &TxIn) -> Refusal
    ensures { result ≡ unfilled_refusal k input.now }
{
    if input.script_sig.as_slice().is_empty() {
        Refusal::NotWitnessScript(k)
    } else {
        Refusal::ScriptSigNotEmpty(k)
    }
}

// What is wrong with input k, which has a witness and spends this output, if anything is.
fn refused_filled<H: Hash32>(
    alloc: Global,
    hasher: &H,
    book: &Book,
    k: u32,
    input: &TxIn,
    output: &TxOut,
    hashes: &InputHashes,
) -> Result<Option<Refusal>, OutOfMemory>
    ensures { IfOk result (λ r. r ≡ first_reason (row_with (H.digest_of hasher.now) book.now hashes.now k input.now output.now)) }
{
    if !input.script_sig.as_slice().is_empty() {
        return Ok(Some(Refusal::ScriptSigNotEmpty(k)));
    }
    let Some(program) = program(output.script.as_slice()) else {
        return Ok(Some(Refusal::NotWitnessScript(k)));
    };
    if hashes.script.as_slice() != program {
        return Ok(Some(Refusal::ScriptMismatch(k)));
    }
    let items = items_of(input.witness.as_slice());
    if has_long(items) {
        return Ok(Some(Refusal::ItemTooLong(k)));
    }
    let check = BookCheck {
        book,
        digest: hashes.digest,
    };
    let script = script_of(input.witness.as_slice());
    if !eval(alloc, hasher, script, items, &check)? {
        return Ok(Some(Refusal::ScriptFalse(k)));
    }
    Ok(None)
}

/// What is wrong with input k, if it spends a live output and anything is. The hashes are those of the input.
pub(crate) fn refused_input<H: Hash32>(
    alloc: Global,
    hasher: &H,
    book: &Book,
    live: &Live,
    k: u32,
    input: &TxIn,
    hashes: &Option<InputHashes>,
) -> Result<Option<Refusal>, OutOfMemory>
    ensures { IfOk result (λ r. r ≡ option_and_then (λ p. spending_refusal (H.digest_of hasher.now) book.now k input.now hashes.now p.1)
        (at_place live.now input.now.prev)) }
{
    let Some(spent) = live.find(&input.prev) else {
        return Ok(None);
    };
    match hashes {
        Some(hashes) => refused_filled(alloc, hasher, book, k, input, &spent.1, hashes),
        None => Ok(Some(refused_unfilled(k, input))),
    }
}
