//! The transactions of a deal.

ghost use Rattle.std.specs.Prelude.{◌≡◌, ◌∷◌, [], map, option_map, codes, IfOk};
ghost use Rattle.serde_json.specs.View.{view};
ghost use Rattle.spec_terms.specs.Paths.{at as branch_at};
ghost use Rattle.spec_terms.specs.Precondition.{persistent, names_of};
ghost use Rattle.spec_tool.specs.Keyed.Listed.{which_text};
ghost use Rattle.spec_deal.specs.Wallets.{puts_at};
ghost use Rattle.spec_json.specs.Values.{text_value as text_data, number_value, list_value as list_data};
ghost use Rattle.spec_show.specs.Made as making;
ghost use Rattle.spec_show.specs.Objects.{object_of};
ghost use Rattle.spec_show.specs.ShownDeal.{outputs_data};
ghost use Rattle.deal_show.specs.Showing as spec;

use crate::inputs::input_values;
use crate::made::{branch_of, made_by, revealed_by};
use crate::outputs::output_values;
use crate::values::{list_value, text_value, txid_value};
use bm_syntax::puts;
use bm_wellformed::Checked;
use deal_warn::{fee_of, full_size};
use serde_json::{Value, json};
use spec_data::{Name, OutOfMemory};
use spec_deal::Transaction;
use spec_terms::{Path, Pre};
use spec_tool::Which;
use std::alloc::{AllocError, Global};
use tool_which::put_which;

// ---- what is spent

// The names of the persistent deposits.
fn initial_deposits(alloc: Global, pre: &[Pre]) -> Result<Vec<Name>, OutOfMemory>
    ensures { IfOk result (λ deposits. deposits.items ≡ names_of (persistent pre.now)) }
{
    let mut deposits = Vec::new(alloc);
    for entry in pre {
        if let Pre::Persistent { name, .. } = entry {
            deposits.push(*name)?;
        }
    }
    Ok(deposits)
}

// The names of the deposits that the branch at a path puts.
fn path_deposits<'a>(checked: &'a Checked, path: &Path) -> &'a [Name]
    ensures { result.now ≡ puts_at (branch_at checked.now.root path.now) }
{
    match branch_of(checked, path) {
        Some(branch) => puts(branch),
        None => &[],
    }
}

// The names of the deposits that a transaction of this name spends.
fn spent_deposits(alloc: Global, checked: &Checked, which: &Which) -> Result<Vec<Name>, OutOfMemory>
    ensures { IfOk result (λ names. names.items ≡ spec.spent_deposits checked.now which.now) }
{
    match which {
        Which::Init => initial_deposits(alloc, &checked.advert().pre),
        Which::At(path) => Vec::from_slice(alloc, path_deposits(checked, path)),
    }
}

// ---- parts of a transaction

// Satoshi for 1,000 virtual bytes. A rate of more than 64 bits counts as out of memory.
fn rate_of(fee: u64, size: u64) -> Result<u64, OutOfMemory>
    ensures { IfOk result (λ rate. rate ≡ spec.rate_of fee size) }
{
    let Some(thousandfold) = fee.checked_mul(1000) else {
        return Err(AllocError);
    };
    match thousandfold.checked_div(size) {
        Some(rate) => Ok(rate),
        None => Ok(0),
    }
}

fn name_value(alloc: Global, which: &Which) -> Result<Value, OutOfMemory>
    ensures { IfOk result (λ v. view v ≡ text_data (which_text which.now)) }
{
    let mut text = Vec::new(alloc);
    put_which(alloc, &mut text, which)?;
    text_value(alloc, &text)
}

fn names_values(alloc: Global, names: &[Name]) -> Result<Vec<Value>, OutOfMemory>
    ensures { IfOk result (λ vs. map view vs.items ≡ map text_data names.now) }
{
    let mut values = Vec::new(alloc);
    for name in names {
        values.push(text_value(alloc, name.bytes())?)?;
    }
    Ok(values)
}

fn inputs_value(
    alloc: Global,
    checked: &Checked,
    transaction: &Transaction,
) -> Result<Value, OutOfMemory>
    ensures { let t = transaction.now in
        IfOk result (λ v. view v ≡ list_data (spec.inputs_by t.which (spec.spent_deposits checked.now t.which) 0 t.inputs)) }
{
    let which = &transaction.which;
    let deposits = spent_deposits(alloc, checked, which)?;
    let inputs = transaction.inputs.as_slice();
    Ok(list_value(input_values(alloc, which, &deposits, inputs)?))
}

fn outputs_value(
    alloc: Global,
    network: &Option<Name>,
    checked: &Checked,
    transaction: &Transaction,
) -> Result<Value, OutOfMemory>
    ensures { let t = transaction.now in
        IfOk result (λ v. view v ≡ list_data (outputs_data network.now t.tx.outputs (making.made_by checked.now t.which))) }
{
    let made = made_by(alloc, checked, &transaction.which)?;
    let outputs = transaction.tx.outputs.as_slice();
    Ok(list_value(output_values(alloc, network, outputs, &made)?))
}

fn secrets_value(alloc: Global, checked: &Checked, which: &Which) -> Result<Value, OutOfMemory>
    ensures { IfOk result (λ v. view v ≡ list_data (map text_data (making.revealed_by checked.now which.now))) }
{
    Ok(list_value(names_values(alloc, revealed_by(checked, which))?))
}

// ---- transactions

// A transaction by its parts.
fn told_transaction(
    alloc: Global,
    fee: u64,
    rate: u64,
    inputs: Value,
    lock: u32,
    name: Value,
    outputs: Value,
    secrets: Value,
    size: u64,
    txid: Value,
) -> Result<Value, OutOfMemory>
    ensures { IfOk result (λ v. view v ≡ object_of ((codes "fee", number_value fee) ∷ (codes "fee_rate", number_value rate)
        ∷ (codes "inputs", view inputs) ∷ (codes "lock", number_value lock) ∷ (codes "name", view name)
        ∷ (codes "outputs", view outputs) ∷ (codes "secrets", view secrets) ∷ (codes "size", number_value size)
        ∷ (codes "txid", view txid) ∷ [])) }
{
    json!(in alloc; {
        "fee": fee,
        "fee_rate": rate,
        "inputs": inputs,
        "lock": lock,
        "name": name,
        "outputs": outputs,
        "secrets": secrets,
        "size": size,
        "txid": txid
    })
}

#[tactic(auto, unfolding(crate::specs::Showing::transaction_by))]
fn transaction_value(
    alloc: Global,
    network: &Option<Name>,
    checked: &Checked,
    transaction: &Transaction,
) -> Result<Value, OutOfMemory>
    ensures { IfOk result (λ v. view v ≡ spec.transaction_by network.now checked.now transaction.now) }
{
    let fee = fee_of(transaction)?;
    let size = full_size(alloc, checked, transaction)?;
    let rate = rate_of(fee, size)?;
    let inputs = inputs_value(alloc, checked, transaction)?;
    let name = name_value(alloc, &transaction.which)?;
    let outputs = outputs_value(alloc, network, checked, transaction)?;
    let secrets = secrets_value(alloc, checked, &transaction.which)?;
    let txid = txid_value(alloc, &transaction.txid)?;
    told_transaction(
        alloc,
        fee,
        rate,
        inputs,
        transaction.tx.lock,
        name,
        outputs,
        secrets,
        size,
        txid,
    )
}

/// These transactions, in order.
pub(crate) fn transaction_values(
    alloc: Global,
    network: &Option<Name>,
    checked: &Checked,
    transactions: &[Transaction],
) -> Result<Vec<Value>, OutOfMemory>
    ensures { IfOk result (λ vs. map view vs.items ≡ map (spec.transaction_by network.now checked.now) transactions.now) }
{
    let mut values = Vec::new(alloc);
    for transaction in transactions {
        values.push(transaction_value(alloc, network, checked, transaction)?)?;
    }
    Ok(values)
}
