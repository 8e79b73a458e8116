//! What `psbt` prints.

ghost use Rattle.std.specs.Prelude.{◌≡◌, ◌++◌, ℕ, List, map, flat_map, true, IfOk, OnOk};
ghost use Rattle.std.specs.List.{list_all};
ghost use Rattle.spec_terms.specs.Advert.{Advert};
ghost use Rattle.spec_compiler.specs.Keyed.Instance.{Instance};
ghost use Rattle.spec_compiler.specs.Keyed.Keys.{Keys};
ghost use Rattle.spec_tool.specs.Keyed.Listed.{Listed};
ghost use Rattle.spec_tool.specs.PsbtText.{psbt_line};
ghost use Rattle.spec_deal.specs.DealText.{unsigned_psbt, psbts_text as text_of};
ghost use Rattle.spec_deal.specs.Transactions.{transaction as transaction_of, transactions as transactions_of};
ghost use Rattle.deal_compile.specs.Signable.{is_signable};
ghost use Rattle.deal_plan.specs.PsbtParts as spec;

use bm_psbt::{Psbt, base64_text, encode};
use bm_text::put;
use spec_data::{Bytes, OutOfMemory, Seq};
use spec_deal::{Input, Transaction};
use spec_tool::PsbtInput;
use std::alloc::Global;

// The script that an input's key signs, if a key does.
fn signed_script(alloc: Global, input: &Input) -> Result<Option<Bytes>, OutOfMemory>
    ensures { IfOk result (λ script. script ≡ spec.signed_script input.now) }
{
    match &input.wallet {
        Some(_) => Ok(None),
        None => Ok(Some(input.spent.script.copy(alloc)?)),
    }
}

// An input for signers: the output that it spends, and for a key its script and hash type ALL. A wallet signs as it does by default.
fn input_for(alloc: Global, input: &Input) -> Result<PsbtInput, OutOfMemory>
    ensures { IfOk result (λ made. made ≡ spec.input_for input.now) }
{
    Ok(PsbtInput {
        spent: Some(input.output.copy(alloc)?),
        partial: Seq::new(alloc),
        all: input.wallet.is_none(),
        script: signed_script(alloc, input)?,
        witness: None,
    })
}

fn inputs_for(alloc: Global, inputs: &[Input]) -> Result<Vec<PsbtInput>, OutOfMemory>
    ensures { IfOk result (λ made. made.items ≡ map spec.input_for inputs.now) }
{
    let mut made = Vec::new(alloc);
    for one in inputs {
        made.push(input_for(alloc, one)?)?;
    }
    Ok(made)
}

// A transaction for signers.
#[tactic(auto, using(crate::proofs::PsbtsTold::signable_is))]
fn psbt_for(alloc: Global, transaction: &Transaction) -> Result<Psbt, OutOfMemory>
    requires { is_signable transaction.now ≡ true }
    ensures { IfOk result (λ psbt. psbt ≡ spec.psbt_for transaction.now) }
{
    let inputs = inputs_for(alloc, transaction.inputs.as_slice())?;
    match Psbt::of(transaction.tx.copy(alloc)?, inputs) {
        Some(psbt) => Ok(psbt),
        None => unreachable!(),
    }
}

fn put_line(alloc: Global, out: &mut Vec<u8>, transaction: &Transaction) -> Result<(), OutOfMemory>
    requires { is_signable transaction.now ≡ true }
    ensures { OnOk result (out.new.items ≡ out.old.items ++ psbt_line (spec.psbt_for transaction.now)) }
{
    let psbt = psbt_for(alloc, transaction)?;
    let text = base64_text(alloc, &encode(alloc, &psbt)?)?;
    put(out, &text)?;
    put(out, b"\n")
}

// A transaction for signers, as Base64, as one line.
fn line(alloc: Global, transaction: &Transaction) -> Result<Vec<u8>, OutOfMemory>
    requires { is_signable transaction.now ≡ true }
    ensures { IfOk result (λ text. text.items ≡ psbt_line (spec.psbt_for transaction.now)) }
{
    let mut out = Vec::new(alloc);
    put_line(alloc, &mut out, transaction)?;
    Ok(out)
}

// All of these transactions, a line each.
fn lines(alloc: Global, transactions: &[Transaction]) -> Result<Vec<u8>, OutOfMemory>
    requires { list_all is_signable transactions.now ≡ true }
    ensures { IfOk result (λ text. text.items ≡ flat_map (λ t. psbt_line (spec.psbt_for t)) transactions.now) }
{
    let mut out = Vec::new(alloc);
    for transaction in transactions {
        put_line(alloc, &mut out, transaction)?;
    }
    Ok(out)
}

/// A transaction of a deal for signers, as one line of Base64 with its end: the unsigned transaction, and for each input the output
/// that it spends, and where a key signs it hash type ALL and the script, without a signature.
pub fn psbt_text(alloc: Global, transaction: &Transaction) -> Result<Vec<u8>, OutOfMemory>
    requires { is_signable transaction.now ≡ true }
    ensures { (hash : List ℕ → List ℕ) (keys : Keys) (advert : Advert) (l : Listed) → transaction.now ≡ transaction_of hash keys advert l
        → IfOk result (λ text. text.items ≡ psbt_line (unsigned_psbt hash keys advert l)) }
{
    line(alloc, transaction)
}

/// All transactions of a deal for signers, a line each, in their order.
pub fn psbts_text(alloc: Global, transactions: &[Transaction]) -> Result<Vec<u8>, OutOfMemory>
    requires { list_all is_signable transactions.now ≡ true }
    ensures { (hash : List ℕ → List ℕ) (keys : Keys) (s : Instance) → transactions.now ≡ transactions_of hash keys s
        → IfOk result (λ text. text.items ≡ text_of hash keys s) }
{
    lines(alloc, transactions)
}
