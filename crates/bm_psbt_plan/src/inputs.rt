//! The inputs of a contract's transactions.

ghost use Rattle.std.specs.Prelude.{◌≡◌, ◌++◌, ◌∷◌, [], OnOk, IfOk};
ghost use Rattle.spec_terms.specs.Precondition.{holding, persistent};
ghost use Rattle.bm_psbt_plan.specs.Parts as spec;

use crate::keys::branch_keys;
use crate::signing::signatures;
use bm_book::Book;
use bm_compile::{pays, volatile_of};
use bm_hash::Hash32;
use bm_keys::{deposit_key, deposit_script};
use bm_wellformed::Checked;
use spec_bitcoin::TxOut;
use spec_data::{Bytes, Name, OutOfMemory, Seq};
use spec_terms::{Path, Pre};
use spec_tool::PsbtInput;
use std::alloc::Global;

// An input that spends this output by this script, with the signatures that are there.
fn input_with(
    alloc: Global,
    book: &Book,
    output: TxOut,
    script: &[u8],
    keys: &[[u8; 33]],
    digest: &[u8; 32],
) -> Result<PsbtInput, OutOfMemory>
    ensures { IfOk result (λ input. input ≡ spec.input_with book.now output script.now keys.now digest.now) }
{
    let script = Bytes::from_slice(alloc, script)?;
    let partial = Seq::of(signatures(alloc, book, keys, digest)?);
    Ok(PsbtInput {
        spent: Some(output),
        partial,
        all: true,
        script: Some(script),
        witness: None,
    })
}

// The input that spends a party's deposit of this value.
fn deposit_input<H: Hash32>(
    alloc: Global,
    hasher: &H,
    book: &Book,
    owner: &[u8],
    value: u64,
    digest: &[u8; 32],
) -> Result<PsbtInput, OutOfMemory>
    ensures { IfOk result (λ input. input ≡ spec.deposit_input (H.digest_of hasher.now) book.now (holding owner.now value) digest.now) }
{
    let key = deposit_key(alloc, hasher, owner)?;
    let script = deposit_script(&key);
    let output = pays(alloc, hasher, &script, value)?;
    input_with(alloc, book, output, &script, &[key], digest)
}

/// The inputs of the initial transaction, by the digests of these.
pub(crate) fn persistent_inputs<H: Hash32>(
    alloc: Global,
    hasher: &H,
    book: &Book,
    pre: &[Pre],
    digests: &[[u8; 32]],
) -> Result<Vec<PsbtInput>, OutOfMemory>
    ensures { IfOk result (λ inputs. inputs.items
        ≡ spec.persistent_inputs (H.digest_of hasher.now) book.now (persistent pre.now) digests.now) }
{
    let mut inputs = Vec::new(alloc);
    let mut rest = digests;
    for entry in pre {
        if let Pre::Persistent { party, value, .. } = entry {
            let Some((digest, others)) = rest.split_first() else {
                return Ok(inputs);
            };
            inputs.push(deposit_input(alloc, hasher, book, party.bytes(), *value, digest)?)?;
            rest = others;
        }
    }
    Ok(inputs)
}

// The input that spends the volatile deposit of this name.
fn put_input<H: Hash32>(
    alloc: Global,
    hasher: &H,
    book: &Book,
    pre: &[Pre],
    name: &Name,
    digest: &[u8; 32],
) -> Result<PsbtInput, OutOfMemory>
    ensures { IfOk result (λ input. input
        ≡ spec.deposit_input (H.digest_of hasher.now) book.now (spec.put_holding pre.now name.now) digest.now) }
{
    match volatile_of(pre, name) {
        Some((owner, value)) => { deposit_input(alloc, hasher, book, owner.bytes(), value, digest) }
        None => deposit_input(alloc, hasher, book, &[], 0, digest),
    }
}

// Adds the inputs of the deposits that are put.
#[tactic(auto, using(std::proofs::Common::append_assoc))]
fn add_puts<H: Hash32>(
    alloc: Global,
    hasher: &H,
    book: &Book,
    pre: &[Pre],
    puts: &[Name],
    digests: &[[u8; 32]],
    inputs: &mut Vec<PsbtInput>,
) -> Result<(), OutOfMemory>
    ensures { OnOk result (inputs.new.items ≡ inputs.old.items
        ++ spec.put_inputs (H.digest_of hasher.now) book.now pre.now puts.now digests.now) }
{
    let mut rest = digests;
    for name in puts {
        let Some((digest, others)) = rest.split_first() else {
            return Ok(());
        };
        inputs.push(put_input(alloc, hasher, book, pre, name, digest)?)?;
        rest = others;
    }
    Ok(())
}

/// The inputs of a branch's transaction: of the position's output, by its script, and then of the
/// deposits that are put.
pub(crate) fn path_inputs<H: Hash32>(
    alloc: Global,
    hasher: &H,
    book: &Book,
    contract: u32,
    checked: &Checked,
    path: &Path,
    output: &TxOut,
    script: &[u8],
    puts: &[Name],
    digests: &[[u8; 32]],
) -> Result<Vec<PsbtInput>, OutOfMemory>
    ensures { IfOk result (λ inputs. inputs.items ≡ spec.path_inputs (H.digest_of hasher.now) book.now contract checked.now path.now
        output.now script.now puts.now digests.now) }
{
    let mut inputs = Vec::new(alloc);
    let Some((digest, others)) = digests.split_first() else {
        return Ok(inputs);
    };
    let keys = branch_keys(alloc, hasher, contract, path, checked.parties())?;
    inputs.push(input_with(alloc, book, output.copy(alloc)?, script, &keys, digest)?)?;
    let pre = &checked.advert().pre;
    add_puts(alloc, hasher, book, pre, puts, others, &mut inputs)?;
    Ok(inputs)
}
