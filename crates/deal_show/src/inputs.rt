//! The inputs of a transaction, with who signs them.

ghost use Rattle.std.specs.Prelude.{◌≡◌, ◌++◌, ◌∷◌, [], map, option_map, codes, IfOk, OnOk};
ghost use Rattle.serde_json.specs.View.{view};
ghost use Rattle.spec_deal.specs.DealText.{verb_text};
ghost use Rattle.spec_deal.specs.Finished.{label_party};
ghost use Rattle.spec_deal.specs.Wallets as wallets;
ghost use Rattle.spec_json.specs.Values.{text_value as text_data, number_value};
ghost use Rattle.spec_show.specs.Objects.{object_of};
ghost use Rattle.spec_show.specs.ShownDeal.{spent_position};
ghost use Rattle.deal_compile.specs.Parts.{deposit_by};
ghost use Rattle.deal_show.specs.Showing as spec;

use crate::values::{hex_value, list_value, optional_name, path_value, text_value, txid_value};
use bm_keys::put_label;
use bm_plan::prefix_of;
use bm_text::put;
use serde_json::{Value, json};
use spec_bitcoin::Label;
use spec_data::{Name, OutOfMemory};
use spec_deal::{Input, Signer, Verb, Wallet};
use spec_tool::Which;
use std::alloc::Global;

// ---- who signs

// What a signature is for.
fn verb_word(verb: Verb) -> &'static [u8]
    ensures { result.now ≡ verb_text verb }
{
    match verb {
        Verb::Init => b"init",
        Verb::Authorise => b"authorise",
        Verb::Endorse => b"endorse",
    }
}

// Whose label it is.
fn party_of(label: &Label) -> &Name
    ensures { result.now ≡ label_party label.now }
{
    match label {
        Label::Deposit { party } => party,
        Label::Branch { party, .. } => party,
    }
}

// `D:A`, .. of a key, `W:x` of a wallet
#[tactic(auto, using(std::proofs::Common::append_assoc))]
fn put_signer(
    alloc: Global,
    out: &mut Vec<u8>,
    wallet: &Option<Wallet>,
    label: &Label,
) -> Result<(), OutOfMemory>
    ensures { OnOk result (out.new.items ≡ out.old.items ++ wallets.signer_text wallet.now label.now) }
{
    match wallet {
        None => put_label(alloc, out, label),
        Some(wallet) => {
            put(out, b"W:")?;
            put(out, wallet.deposit.bytes())
        }
    }
}

fn label_value(alloc: Global, wallet: &Option<Wallet>, label: &Label) -> Result<Value, OutOfMemory>
    ensures { IfOk result (λ v. view v ≡ text_data (wallets.signer_text wallet.now label.now)) }
{
    let mut text = Vec::new(alloc);
    put_signer(alloc, &mut text, wallet, label)?;
    text_value(alloc, &text)
}

// The key that signs; a wallet doesn't say its own.
fn key_value(alloc: Global, wallet: &Option<Wallet>, signer: &Signer) -> Result<Value, OutOfMemory>
    ensures { IfOk result (λ v. view v ≡ spec.key_by wallet.now signer.now) }
{
    match wallet {
        None => hex_value(alloc, &signer.key),
        Some(_) => Ok(Value::Null),
    }
}

// A signer by its parts.
fn told_signer(
    alloc: Global,
    key: Value,
    label: Value,
    party: Value,
    when: Value,
) -> Result<Value, OutOfMemory>
    ensures { IfOk result (λ v. view v ≡ object_of ((codes "key", view key) ∷ (codes "label", view label)
        ∷ (codes "party", view party) ∷ (codes "when", view when) ∷ [])) }
{
    json!(in alloc; {"key": key, "label": label, "party": party, "when": when})
}

fn signer_value(
    alloc: Global,
    wallet: &Option<Wallet>,
    signer: &Signer,
) -> Result<Value, OutOfMemory>
    ensures { IfOk result (λ v. view v ≡ spec.signer_by wallet.now signer.now) }
{
    let key = key_value(alloc, wallet, signer)?;
    let label = label_value(alloc, wallet, &signer.label)?;
    let party = text_value(alloc, party_of(&signer.label).bytes())?;
    let when = text_value(alloc, verb_word(signer.verb))?;
    told_signer(alloc, key, label, party, when)
}

fn signer_values(
    alloc: Global,
    wallet: &Option<Wallet>,
    signers: &[Signer],
) -> Result<Vec<Value>, OutOfMemory>
    ensures { IfOk result (λ vs. map view vs.items ≡ map (spec.signer_by wallet.now) signers.now) }
{
    let mut values = Vec::new(alloc);
    for signer in signers {
        values.push(signer_value(alloc, wallet, signer)?)?;
    }
    Ok(values)
}

// ---- what is spent

// The deposit that input k of a transaction of this name spends, of those that the transaction spends. The first input of a branch
// spends its position.
fn deposit_for<'a>(which: &Which, deposits: &'a [Name], k: usize) -> Option<&'a Name>
    ensures { option_map (λ name. name.now) result ≡ deposit_by which.now deposits.now k }
{
    match which {
        Which::Init => deposits.get(k),
        Which::At(_) => {
            if k == 0 {
                return None;
            }
            deposits.get(k - 1)
        }
    }
}

// The position whose output an input spends; a deposit lies at none.
fn position_value(
    alloc: Global,
    which: &Which,
    deposit: Option<&Name>,
) -> Result<Value, OutOfMemory>
    ensures { IfOk result (λ v. view v ≡ spent_position which.now (option_map (λ name. name.now) deposit.entry)) }
{
    match which {
        Which::Init => Ok(Value::Null),
        Which::At(path) => match deposit {
            None => path_value(alloc, prefix_of(path)),
            Some(_) => Ok(Value::Null),
        },
    }
}

// ---- inputs

// An input by its parts.
fn told_input(
    alloc: Global,
    deposit: Value,
    position: Value,
    signers: Value,
    txid: Value,
    value: u64,
    vout: u32,
) -> Result<Value, OutOfMemory>
    ensures { IfOk result (λ v. view v ≡ object_of ((codes "deposit", view deposit) ∷ (codes "position", view position)
        ∷ (codes "signers", view signers) ∷ (codes "txid", view txid) ∷ (codes "value", number_value value)
        ∷ (codes "vout", number_value vout) ∷ [])) }
{
    json!(in alloc; {
        "deposit": deposit,
        "position": position,
        "signers": signers,
        "txid": txid,
        "value": value,
        "vout": vout
    })
}

// An input that spends this deposit, or the position.
fn input_value(
    alloc: Global,
    which: &Which,
    deposit: Option<&Name>,
    input: &Input,
) -> Result<Value, OutOfMemory>
    ensures { IfOk result (λ v. view v ≡ spec.input_by which.now (option_map (λ name. name.now) deposit.entry) input.now) }
{
    let spent = &input.spent;
    let position = position_value(alloc, which, deposit)?;
    let deposit = optional_name(alloc, deposit)?;
    let signers = list_value(signer_values(alloc, &input.wallet, input.signers.as_slice())?);
    let txid = txid_value(alloc, &spent.outpoint.txid)?;
    told_input(
        alloc,
        deposit,
        position,
        signers,
        txid,
        spent.value,
        spent.outpoint.vout,
    )
}

/// These inputs of a transaction, by the names of the deposits that it spends.
pub(crate) fn input_values(
    alloc: Global,
    which: &Which,
    deposits: &[Name],
    inputs: &[Input],
) -> Result<Vec<Value>, OutOfMemory>
    ensures { IfOk result (λ vs. map view vs.items ≡ spec.inputs_by which.now deposits.now 0 inputs.now) }
{
    let mut values = Vec::new(alloc);
    let mut number = 0;
    for input in inputs {
        let deposit = deposit_for(which, deposits, number);
        values.push(input_value(alloc, which, deposit, input)?)?;
        number += 1;
    }
    Ok(values)
}
