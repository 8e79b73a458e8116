//! The witnesses of a transaction's inputs.

ghost use Rattle.std.specs.Prelude.{◌≡◌, ◌<◌, ◌+◌, ◌^◌, ◌++◌, Some, None, length, slice_get, option_map, IfOk, IfSome, OnOk};
ghost use Rattle.std.specs.Option.{option_copied};
ghost use Rattle.spec_terms.specs.Faults.{IsWellFormed};
ghost use Rattle.spec_terms.specs.Paths.{contract_under};
ghost use Rattle.spec_terms.specs.Term.{branches};
ghost use Rattle.bm_syntax.specs.View.{contract, guarded};
ghost use Rattle.deal_finish.specs.Filled as spec;

use crate::secrets::strings_of;
use crate::signatures::{put_items, put_reversed, signatures_of, wallet_witness};
use bm_branch::witness;
use bm_plan::{last_branch, position_of};
use bm_syntax::{Contract, Guarded, Path, choice_at, reveals};
use bm_wellformed::Checked;
use deal_secrets::Strings;
use deal_signatures::Given;
use spec_data::{Bytes, OutOfMemory, Seq};
use spec_deal::{Input, Transaction};
use spec_tool::Which;
use std::alloc::{AllocError, Global};

// ---- deposits

// The witness of a deposit of a key: its owner's signature, and the script.
fn key_witness(
    alloc: Global,
    given: &Given,
    tx: &[u8],
    number: u32,
    input: &Input,
) -> Result<Seq<Bytes>, OutOfMemory>
    ensures { IfOk result (λ items. items ≡ spec.deposit_by_wallet given.now tx.now number input.now None) }
{
    let mut items = signatures_of(alloc, given, tx, number, input)?;
    items.push(input.spent.script.copy(alloc)?)?;
    Ok(Seq::of(items))
}

// The witness of a deposit: of its key, or what its wallet gave.
fn deposit_witness(
    alloc: Global,
    given: &Given,
    tx: &[u8],
    number: u32,
    input: &Input,
) -> Result<Seq<Bytes>, OutOfMemory>
    ensures { IfOk result (λ items. items ≡ spec.deposit_by given.now tx.now number input.now) }
{
    match &input.wallet {
        Some(_) => wallet_witness(alloc, given, tx, number, input.signers.as_slice()),
        None => key_witness(alloc, given, tx, number, input),
    }
}

// The number of the next input; one of more than 32 bits counts as out of memory.
fn next_number(number: u32) -> Result<u32, OutOfMemory>
    ensures { IfOk result (λ n. n ≡ number + 1) }
{
    if number == u32::MAX {
        return Err(AllocError);
    }
    Ok(number + 1)
}

// The witnesses of deposits, the first of which is spent by the input of this number.
fn put_deposits(
    alloc: Global,
    out: &mut Vec<Seq<Bytes>>,
    given: &Given,
    tx: &[u8],
    first: u32,
    inputs: &[Input],
) -> Result<(), OutOfMemory>
    ensures { OnOk result (out.new.items ≡ out.old.items ++ spec.deposits_by given.now tx.now first inputs.now) }
{
    let mut number = first;
    for input in inputs {
        out.push(deposit_witness(alloc, given, tx, number, input)?)?;
        number = next_number(number)?;
    }
    Ok(())
}

// ---- the output of a position

// The branch of this number among these.
fn item_at(branches: &[Guarded], number: u32) -> Option<&Guarded>
    ensures { option_copied result ≡ slice_get branches.now number }
{
    branches.get(number as usize)
}

// The branch of this number.
fn branch_in(choice: &Contract, number: u32) -> Option<&Guarded>
    ensures branch { option_map (λ b. guarded b.now) result ≡ slice_get (branches (contract choice.now)) number }
    ensures within { IfSome result (λ b. number < length (branches (contract choice.now))) }
{
    item_at(choice.branches.as_slice(), number)
}

// How many branches a choice has.
fn count_of(choice: &Contract) -> u32
    requires { length choice.now.branches.items < 2 ^ 32 }
    ensures { result ≡ length (branches (contract choice.now)) }
{
    choice.branches.as_slice().len() as u32
}

// What stands behind the signatures where this branch of a choice is taken.
fn choice_items(
    alloc: Global,
    strings: &Strings,
    choice: &Contract,
    number: u32,
    script: &[u8],
) -> Result<Vec<Bytes>, OutOfMemory>
    requires { length choice.now.branches.items < 2 ^ 32 }
    ensures { IfOk result (λ items. items.items ≡ spec.choice_items strings.now number script.now (Some (contract choice.now))) }
{
    match branch_in(choice, number) {
        Some(branch) => {
            let secrets = strings_of(alloc, strings, reveals(branch))?;
            witness(alloc, &[], &secrets, number, count_of(choice), script)
        }
        None => Ok(Vec::new(alloc)),
    }
}

fn choice_in<'a>(checked: &'a Checked, position: &Path) -> Option<&'a Contract>
    ensures choice { option_map (λ c. contract c.now) result ≡ contract_under checked.now.root position.now }
    ensures well_formed { IsWellFormed checked.now }
{
    choice_at(&checked.advert().root, position)
}

// The choice at a position of a contract, which has few branches, since the contract is checked.
fn choice_under<'a>(checked: &'a Checked, position: &Path) -> Option<&'a Contract>
    ensures choice { option_map (λ c. contract c.now) result ≡ contract_under checked.now.root position.now }
    ensures few { IfSome result (λ c. length c.now.branches.items < 2 ^ 32) }
{
    choice_in(checked, position)
}

// What stands behind the signatures where the branch at a path is taken.
fn path_items(
    alloc: Global,
    checked: &Checked,
    strings: &Strings,
    path: &Path,
    script: &[u8],
) -> Result<Vec<Bytes>, OutOfMemory>
    ensures { IfOk result (λ items. items.items ≡ spec.path_items checked.now strings.now path.now script.now) }
{
    let position = position_of(alloc, path)?;
    match choice_under(checked, &position) {
        Some(choice) => choice_items(alloc, strings, choice, last_branch(path), script),
        None => Ok(Vec::new(alloc)),
    }
}

// The witness of the output of a position: the participants' signatures, the last one first, and what stands behind them.
fn branch_witness(
    alloc: Global,
    checked: &Checked,
    given: &Given,
    strings: &Strings,
    tx: &[u8],
    path: &Path,
    input: &Input,
) -> Result<Seq<Bytes>, OutOfMemory>
    ensures { IfOk result (λ items. items ≡ spec.branch_by checked.now given.now strings.now tx.now path.now input.now) }
{
    let signatures = signatures_of(alloc, given, tx, 0, input)?;
    let rest = path_items(alloc, checked, strings, path, input.spent.script.as_slice())?;
    let mut items = Vec::new(alloc);
    put_reversed(alloc, &mut items, &signatures)?;
    put_items(alloc, &mut items, &rest)?;
    Ok(Seq::of(items))
}

// ---- transactions

// Those of a path: of the branch, and then of the deposits that it puts.
fn path_witnesses(
    alloc: Global,
    checked: &Checked,
    given: &Given,
    strings: &Strings,
    tx: &[u8],
    path: &Path,
    inputs: &[Input],
) -> Result<Vec<Seq<Bytes>>, OutOfMemory>
    ensures { IfOk result (λ all. all.items ≡ spec.path_by checked.now given.now strings.now tx.now path.now inputs.now) }
{
    let mut all = Vec::new(alloc);
    match inputs.split_first() {
        Some((first, others)) => {
            all.push(branch_witness(alloc, checked, given, strings, tx, path, first)?)?;
            put_deposits(alloc, &mut all, given, tx, 1, others)?;
            Ok(all)
        }
        None => Ok(all),
    }
}

// Those of the initial transaction.
fn initial_witnesses(
    alloc: Global,
    given: &Given,
    tx: &[u8],
    inputs: &[Input],
) -> Result<Vec<Seq<Bytes>>, OutOfMemory>
    ensures { IfOk result (λ all. all.items ≡ spec.deposits_by given.now tx.now 0 inputs.now) }
{
    let mut all = Vec::new(alloc);
    put_deposits(alloc, &mut all, given, tx, 0, inputs)?;
    Ok(all)
}

/// The witnesses of a transaction's inputs, by the signatures and strings that were given.
pub(crate) fn witnesses_of(
    alloc: Global,
    checked: &Checked,
    given: &Given,
    strings: &Strings,
    transaction: &Transaction,
) -> Result<Vec<Seq<Bytes>>, OutOfMemory>
    ensures { IfOk result (λ all. all.items ≡ spec.witnesses_by checked.now given.now strings.now transaction.now) }
{
    let tx = transaction.bytes.as_slice();
    let inputs = transaction.inputs.as_slice();
    match &transaction.which {
        Which::Init => initial_witnesses(alloc, given, tx, inputs),
        Which::At(path) => path_witnesses(alloc, checked, given, strings, tx, path, inputs),
    }
}
