//! What is warned of, line by line.

ghost use Rattle.std.specs.Prelude.{◌≡◌, ◌++◌, flat_map, IfOk, OnOk};
ghost use Rattle.spec_terms.specs.Precondition.{secrets, names_of};
ghost use Rattle.spec_deal.specs.WarnText as texts;
ghost use Rattle.deal_warn.specs.Warned as spec;

use crate::dust::least_value;
use crate::fees::fee_of;
use crate::filling::full_size;
use crate::lines::{dust_line, fee_line, script_line, secret_line};
use bm_wellformed::Checked;
use deal_secrets::Strings;
use spec_bitcoin::TxOut;
use spec_data::{Bytes, Name, OutOfMemory};
use spec_deal::Transaction;
use spec_terms::{Path, Pre};
use spec_tool::Which;
use std::alloc::Global;

// The most bytes of a script that is relayed.
const MOST_SCRIPT_BYTES: u64 = 3600;

// The most bytes of an item of a witness that is relayed.
const MOST_ITEM_BYTES: u64 = 80;

// ---- positions

fn put_script(
    alloc: Global,
    lines: &mut Vec<Bytes>,
    position: &Path,
    script: &Bytes,
) -> Result<(), OutOfMemory>
    ensures { OnOk result (lines.new.items ≡ lines.old.items ++ texts.script_warnings (position.now, script.now)) }
{
    let size = script.as_slice().len() as u64;
    if MOST_SCRIPT_BYTES < size {
        lines.push(script_line(alloc, position, size, MOST_SCRIPT_BYTES)?)?;
    }
    Ok(())
}

// The positions with long scripts.
fn put_scripts(
    alloc: Global,
    lines: &mut Vec<Bytes>,
    scripts: &[(Path, Bytes)],
) -> Result<(), OutOfMemory>
    ensures { OnOk result (lines.new.items ≡ lines.old.items ++ flat_map texts.script_warnings scripts.now) }
{
    for (position, script) in scripts {
        put_script(alloc, lines, position, script)?;
    }
    Ok(())
}

// ---- transactions

// Output k, if its value is small.
fn put_output(
    alloc: Global,
    lines: &mut Vec<Bytes>,
    which: &Which,
    number: u64,
    output: &TxOut,
) -> Result<(), OutOfMemory>
    ensures { OnOk result (lines.new.items ≡ lines.old.items ++ spec.output_warnings which.now number output.now) }
{
    let least = least_value(output.script.as_slice())?;
    if output.value < least {
        lines.push(dust_line(alloc, which, number, output.value, least)?)?;
    }
    Ok(())
}

// The outputs with small values.
fn put_outputs(
    alloc: Global,
    lines: &mut Vec<Bytes>,
    which: &Which,
    outputs: &[TxOut],
) -> Result<(), OutOfMemory>
    ensures { OnOk result (lines.new.items ≡ lines.old.items ++ texts.dust_warnings which.now 0 outputs.now) }
{
    let mut number = 0u64;
    for output in outputs {
        put_output(alloc, lines, which, number, output)?;
        number += 1;
    }
    Ok(())
}

// The transaction, if its fee is low.
fn put_fee(
    alloc: Global,
    lines: &mut Vec<Bytes>,
    checked: &Checked,
    transaction: &Transaction,
) -> Result<(), OutOfMemory>
    ensures { OnOk result (lines.new.items ≡ lines.old.items ++ spec.fee_warnings_by checked.now transaction.now) }
{
    let fee = fee_of(transaction)?;
    let size = full_size(alloc, checked, transaction)?;
    if fee < size {
        lines.push(fee_line(alloc, &transaction.which, fee, size)?)?;
    }
    Ok(())
}

#[tactic(auto, using(std::proofs::Common::append_assoc))]
fn put_transaction(
    alloc: Global,
    lines: &mut Vec<Bytes>,
    checked: &Checked,
    transaction: &Transaction,
) -> Result<(), OutOfMemory>
    ensures { OnOk result (lines.new.items ≡ lines.old.items ++ spec.transaction_warnings_by checked.now transaction.now) }
{
    let outputs = transaction.tx.outputs.as_slice();
    put_outputs(alloc, lines, &transaction.which, outputs)?;
    put_fee(alloc, lines, checked, transaction)
}

fn put_transactions(
    alloc: Global,
    lines: &mut Vec<Bytes>,
    checked: &Checked,
    transactions: &[Transaction],
) -> Result<(), OutOfMemory>
    ensures { OnOk result (lines.new.items ≡ lines.old.items
        ++ flat_map (spec.transaction_warnings_by checked.now) transactions.now) }
{
    for transaction in transactions {
        put_transaction(alloc, lines, checked, transaction)?;
    }
    Ok(())
}

// ---- secrets

// The secret of this name, if its string is too long for a witness.
fn put_secret(
    alloc: Global,
    lines: &mut Vec<Bytes>,
    strings: &Strings,
    name: &Name,
) -> Result<(), OutOfMemory>
    ensures { OnOk result (lines.new.items ≡ lines.old.items ++ texts.secret_warnings strings.now name.now) }
{
    let Some(bytes) = strings.string(name) else {
        return Ok(());
    };
    let size = bytes.as_slice().len() as u64;
    if MOST_ITEM_BYTES < size {
        lines.push(secret_line(alloc, name, size, MOST_ITEM_BYTES)?)?;
    }
    Ok(())
}

fn put_secrets(
    alloc: Global,
    lines: &mut Vec<Bytes>,
    strings: &Strings,
    pre: &[Pre],
) -> Result<(), OutOfMemory>
    ensures { OnOk result (lines.new.items ≡ lines.old.items
        ++ flat_map (texts.secret_warnings strings.now) (names_of (secrets pre.now))) }
{
    for entry in pre {
        if let Pre::Secret { name, .. } = entry {
            put_secret(alloc, lines, strings, name)?;
        }
    }
    Ok(())
}

// ---- all

#[tactic(auto, using(std::proofs::Common::append_assoc))]
fn put_warnings(
    alloc: Global,
    lines: &mut Vec<Bytes>,
    checked: &Checked,
    scripts: &[(Path, Bytes)],
    transactions: &[Transaction],
    strings: &Strings,
) -> Result<(), OutOfMemory>
    ensures { OnOk result (lines.new.items ≡ lines.old.items
        ++ spec.warnings_by checked.now scripts.now transactions.now strings.now) }
{
    put_scripts(alloc, lines, scripts)?;
    put_transactions(alloc, lines, checked, transactions)?;
    put_secrets(alloc, lines, strings, &checked.advert().pre)
}

/// All lines: of the positions, the transactions and the secrets, in order.
pub(crate) fn warnings(
    alloc: Global,
    checked: &Checked,
    scripts: &[(Path, Bytes)],
    transactions: &[Transaction],
    strings: &Strings,
) -> Result<Vec<Bytes>, OutOfMemory>
    ensures { IfOk result (λ lines. lines.items ≡ spec.warnings_by checked.now scripts.now transactions.now strings.now) }
{
    let mut lines = Vec::new(alloc);
    put_warnings(alloc, &mut lines, checked, scripts, transactions, strings)?;
    Ok(lines)
}
