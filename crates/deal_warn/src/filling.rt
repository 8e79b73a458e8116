//! The sizes of transactions with full witnesses.

ghost use Rattle.std.specs.Prelude.{◌≡◌, length, IfOk};
ghost use Rattle.spec_bitcoin.specs.Spelling.{is_filled};
ghost use Rattle.spec_deal.specs.WarnText.{full_items};
ghost use Rattle.deal_warn.specs.Sized as spec;

use crate::sizes::{Taken, add, branch_bytes, key_bytes, virtual_size};
use bm_plan::{choices_at, last_branch, narrow, reveal_count};
use bm_syntax::Path;
use bm_wellformed::Checked;
use deal_payees::{has_taproot_form, pays_to_key_hash};
use spec_data::OutOfMemory;
use spec_deal::{Input, Transaction};
use spec_tool::Which;
use std::alloc::Global;

// ---- deposits

// The bytes of the witness of a wallet whose output has this script.
#[tactic(auto, using(crate::proofs::Lengths::wallet_sized))]
fn wallet_bytes(script: &[u8]) -> u64
    ensures { result ≡ spec.wallet_bytes script.now }
{
    if pays_to_key_hash(script) {
        return 108;
    }
    if has_taproot_form(script) { 66 } else { 1 }
}

// Whether it has an item.
fn is_wallet_filled(script: &[u8]) -> bool
    ensures { result ≡ is_filled (full_items script.now) }
{
    if pays_to_key_hash(script) {
        return true;
    }
    has_taproot_form(script)
}

// The bytes of the witness of an input that spends a deposit.
fn input_bytes(input: &Input) -> Result<u64, OutOfMemory>
    ensures { IfOk result (λ bytes. bytes ≡ spec.input_bytes input.now) }
{
    match &input.wallet {
        Some(wallet) => Ok(wallet_bytes(wallet.script.as_slice())),
        None => Ok(key_bytes(narrow(input.spent.script.as_slice().len())?)),
    }
}

// Whether it has an item.
fn is_filled(input: &Input) -> bool
    ensures { result ≡ spec.is_wallet_filled input.now.wallet }
{
    match &input.wallet {
        Some(wallet) => is_wallet_filled(wallet.script.as_slice()),
        None => true,
    }
}

// The bytes of the witnesses of inputs that spend deposits.
fn deposits_bytes(inputs: &[Input]) -> Result<u64, OutOfMemory>
    ensures { IfOk result (λ bytes. bytes ≡ spec.deposits_bytes inputs.now) }
{
    let mut sum = 0u64;
    for input in inputs {
        sum = add(sum, input_bytes(input)?)?;
    }
    Ok(sum)
}

// Whether some of them has an item.
fn are_deposits_filled(inputs: &[Input]) -> bool
    ensures { result ≡ spec.are_deposits_filled inputs.now }
{
    for input in inputs {
        if is_filled(input) {
            return true;
        }
    }
    false
}

// ---- branches

// The bytes of the witness of the branch at a path, where the position's script has so many bytes.
fn path_bytes(
    alloc: Global,
    checked: &Checked,
    path: &Path,
    script: &[u8],
) -> Result<u64, OutOfMemory>
    ensures { IfOk result (λ bytes. bytes ≡ spec.path_bytes checked.now path.now (length script.now)) }
{
    let advert = checked.advert();
    let people = narrow(checked.parties().len())?;
    let secrets = narrow(reveal_count(advert, path))?;
    let branches = narrow(choices_at(alloc, advert, path)?)?;
    let script = narrow(script.len())?;
    Ok(branch_bytes(Taken {
        people,
        secrets,
        branch: last_branch(path),
        branches,
        script,
    }))
}

// The bytes of the witnesses where a branch is taken: of the branch, and then of the deposits that it puts.
fn taken_bytes(
    alloc: Global,
    checked: &Checked,
    path: &Path,
    inputs: &[Input],
) -> Result<u64, OutOfMemory>
    ensures { IfOk result (λ bytes. bytes ≡ spec.taken_bytes checked.now path.now inputs.now) }
{
    match inputs.split_first() {
        Some((first, others)) => {
            let taken = path_bytes(alloc, checked, path, first.spent.script.as_slice())?;
            add(taken, deposits_bytes(others)?)
        }
        None => Ok(0),
    }
}

// ---- transactions

fn witnesses_bytes(
    alloc: Global,
    checked: &Checked,
    which: &Which,
    inputs: &[Input],
) -> Result<u64, OutOfMemory>
    ensures { IfOk result (λ bytes. bytes ≡ spec.witnesses_bytes checked.now which.now inputs.now) }
{
    match which {
        Which::Init => deposits_bytes(inputs),
        Which::At(path) => taken_bytes(alloc, checked, path, inputs),
    }
}

// Whether some witness of these inputs has an item.
fn is_any_filled(which: &Which, inputs: &[Input]) -> bool
    ensures { result ≡ spec.is_any_filled which.now inputs.now }
{
    match which {
        Which::Init => are_deposits_filled(inputs),
        Which::At(_) => !inputs.is_empty(),
    }
}

/// The virtual size (BIP 141) of a transaction with the greatest usual signatures and the longest secrets that are relayed.
#[tactic(auto, unfolding(crate::specs::Sized::size_by))]
pub fn full_size(
    alloc: Global,
    checked: &Checked,
    transaction: &Transaction,
) -> Result<u64, OutOfMemory>
    ensures { IfOk result (λ size. size ≡ spec.size_by checked.now transaction.now) }
{
    let inputs = transaction.inputs.as_slice();
    let bare = narrow(transaction.bytes.as_slice().len())?;
    let witnesses = witnesses_bytes(alloc, checked, &transaction.which, inputs)?;
    virtual_size(bare, is_any_filled(&transaction.which, inputs), witnesses)
}
