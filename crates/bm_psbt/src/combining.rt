//! Two partially signed transactions combined.

ghost use Rattle.std.specs.Prelude.{◌≡◌, ◌++◌, ◌∷◌, [], true, IfOk, OnOk};
ghost use Rattle.std.specs.Cmp.Lexicographic.{pointwise};
ghost use Rattle.std.specs.List.{list_all};
ghost use Rattle.std.specs.Option.{option_or};
ghost use Rattle.std.specs.Str.{bytes_eq};
ghost use Rattle.spec_run.specs.Ledger as ledger;
ghost use Rattle.spec_tool.specs.PsbtBytes.{are_at_odds, first_conflict, combined};
ghost use Rattle.spec_tool.specs.PsbtBytes as spec;
ghost use Rattle.theory_psbt.proofs.Kept.{signs_ascend};
ghost use Rattle.bm_psbt.specs.Combines.{Combines};
ghost use Rattle.bm_psbt.specs.Joined.{joined_head, tail_of};

use crate::fault::CombineError;
use crate::psbt::Psbt;
use crate::same::{same_bare, same_bytes, same_items, same_output};
use crate::signatures::{joined, signatures_differ};
use spec_bitcoin::TxOut;
use spec_bitcoin::tx::copy_items;
use spec_data::{Bytes, OutOfMemory, Seq};
use spec_tool::PsbtInput;
use std::alloc::Global;

fn outputs_differ(one: &Option<TxOut>, other: &Option<TxOut>) -> bool
    ensures { result ≡ are_at_odds ledger.same_output one.now other.now }
{
    let Some(one) = one else {
        return false;
    };
    let Some(other) = other else {
        return false;
    };
    !same_output(one, other)
}

fn scripts_differ(one: &Option<Bytes>, other: &Option<Bytes>) -> bool
    ensures { result ≡ are_at_odds bytes_eq one.now other.now }
{
    let Some(one) = one else {
        return false;
    };
    let Some(other) = other else {
        return false;
    };
    !same_bytes(one, other)
}

fn witnesses_differ(one: &Option<Seq<Bytes>>, other: &Option<Seq<Bytes>>) -> bool
    ensures { result ≡ are_at_odds (pointwise bytes_eq) one.now other.now }
{
    let Some(one) = one else {
        return false;
    };
    let Some(other) = other else {
        return false;
    };
    !same_items(one.as_slice(), other.as_slice())
}

// Whether both have a record of one key with different values.
fn inputs_differ(one: &PsbtInput, other: &PsbtInput) -> bool
    requires one { signs_ascend one.now ≡ true }
    requires other { signs_ascend other.now ≡ true }
    ensures { result ≡ spec.inputs_differ one.now other.now }
{
    if outputs_differ(&one.spent, &other.spent) {
        return true;
    }
    if signatures_differ(one.partial.as_slice(), other.partial.as_slice()) {
        return true;
    }
    if scripts_differ(&one.script, &other.script) {
        return true;
    }
    witnesses_differ(&one.witness, &other.witness)
}

// The first input whose records differ.
fn first_differing(inputs: &[PsbtInput], others: &[PsbtInput]) -> Option<usize>
    requires inputs { list_all signs_ascend inputs.now ≡ true }
    requires others { list_all signs_ascend others.now ≡ true }
    ensures { result ≡ first_conflict 0 inputs.now others.now }
{
    let mut rest = others;
    let mut number = 0;
    for input in inputs {
        let Some((other, after)) = rest.split_first() else {
            return None;
        };
        if inputs_differ(input, other) {
            return Some(number);
        }
        rest = after;
        number += 1;
    }
    None
}

fn either_output(
    alloc: Global,
    one: &Option<TxOut>,
    other: &Option<TxOut>,
) -> Result<Option<TxOut>, OutOfMemory>
    ensures { IfOk result (λ output. output ≡ option_or one.now other.now) }
{
    if let Some(output) = one {
        return Ok(Some(output.copy(alloc)?));
    }
    match other {
        Some(output) => Ok(Some(output.copy(alloc)?)),
        None => Ok(None),
    }
}

fn either_script(
    alloc: Global,
    one: &Option<Bytes>,
    other: &Option<Bytes>,
) -> Result<Option<Bytes>, OutOfMemory>
    ensures { IfOk result (λ script. script ≡ option_or one.now other.now) }
{
    if let Some(script) = one {
        return Ok(Some(script.copy(alloc)?));
    }
    match other {
        Some(script) => Ok(Some(script.copy(alloc)?)),
        None => Ok(None),
    }
}

fn either_witness(
    alloc: Global,
    one: &Option<Seq<Bytes>>,
    other: &Option<Seq<Bytes>>,
) -> Result<Option<Seq<Bytes>>, OutOfMemory>
    ensures { IfOk result (λ witness. witness ≡ option_or one.now other.now) }
{
    if let Some(items) = one {
        return Ok(Some(copy_items(alloc, items.as_slice())?));
    }
    match other {
        Some(items) => Ok(Some(copy_items(alloc, items.as_slice())?)),
        None => Ok(None),
    }
}

// The records of both inputs.
fn input_joined(alloc: Global, one: &PsbtInput, other: &PsbtInput) -> Result<PsbtInput, OutOfMemory>
    requires one { signs_ascend one.now ≡ true }
    requires other { signs_ascend other.now ≡ true }
    ensures { IfOk result (λ input. input ≡ spec.input_joined one.now other.now) }
{
    Ok(PsbtInput {
        spent: either_output(alloc, &one.spent, &other.spent)?,
        partial: joined(alloc, one.partial.as_slice(), other.partial.as_slice())?,
        all: one.all || other.all,
        script: either_script(alloc, &one.script, &other.script)?,
        witness: either_witness(alloc, &one.witness, &other.witness)?,
    })
}

// Adds the records of an input and of the first of others, and gives the others behind it.
fn push_joined<'a>(
    alloc: Global,
    all: &mut Seq<PsbtInput>,
    input: &PsbtInput,
    others: &'a [PsbtInput],
) -> Result<&'a [PsbtInput], OutOfMemory>
    requires input { signs_ascend input.now ≡ true }
    requires others { list_all signs_ascend others.now ≡ true }
    ensures all { OnOk result (all.new ≡ all.old ++ joined_head input.now others.now ∷ []) }
    ensures rest { IfOk result (λ rest. rest.now ≡ tail_of others.now) }
{
    match others.split_first() {
        Some((other, after)) => {
            all.push(input_joined(alloc, input, other)?)?;
            Ok(after)
        }
        None => {
            all.push(input.copy(alloc)?)?;
            Ok(others)
        }
    }
}

// Each input with the records of both.
fn inputs_joined(
    alloc: Global,
    inputs: &[PsbtInput],
    others: &[PsbtInput],
) -> Result<Seq<PsbtInput>, OutOfMemory>
    requires inputs { list_all signs_ascend inputs.now ≡ true }
    requires others { list_all signs_ascend others.now ≡ true }
    ensures { IfOk result (λ all. all ≡ spec.inputs_joined inputs.now others.now) }
{
    let mut all = Seq::new(alloc);
    let mut rest = others;
    for input in inputs {
        rest = push_joined(alloc, &mut all, input, rest)?;
    }
    Ok(all)
}

// What is known of each input; the signatures ascend.
fn inputs_of(psbt: &Psbt) -> &[PsbtInput]
    ensures inputs { result.now ≡ psbt.now.inputs }
    ensures ascend { list_all signs_ascend result.now ≡ true }
{
    psbt.inputs()
}

/// The partially signed transaction with the records of both, which are of the same transaction.
#[tactic(auto, using(crate::proofs::Combined::other_answer, crate::proofs::Combined::conflict_answer, crate::proofs::Combined::joined_answer))]
pub fn combine(alloc: Global, first: &Psbt, second: &Psbt) -> Result<Psbt, CombineError>
    ensures { Combines result (combined first.now second.now) }
{
    let tx = first.tx();
    let other = second.tx();
    if !same_bare(tx, other) {
        return Err(CombineError::OtherTx);
    }
    let inputs = inputs_of(first);
    let others = inputs_of(second);
    if let Some(number) = first_differing(inputs, others) {
        return Err(CombineError::Conflict(number));
    }
    let tx = tx.copy(alloc)?;
    let all = inputs_joined(alloc, inputs, others)?;
    Ok(Psbt::made(tx, all))
}
