//! Parts of a plan as JSON values.

ghost use Rattle.std.specs.Prelude.{◌≡◌, ℕ, List, [], ◌∷◌, ◌++◌, map, reverse, codes, string_bytes, IfOk};
ghost use Rattle.std.specs.Fmt.{decimal};
ghost use Rattle.serde_json.specs.Data.{array, object, number, unsigned, string, item, no_items, member, no_members};
ghost use Rattle.serde_json.specs.View.{view};
ghost use Rattle.spec_data.specs.Digits.{hex_text};
ghost use Rattle.spec_bitcoin.specs.Keys.{path_text};
ghost use Rattle.spec_bitcoin.specs.Spelling.{stripped};
ghost use Rattle.spec_tool.specs.WeighText as spec;
ghost use Rattle.bm_plan.specs.Seen.{seen, plain};

use crate::transactions::path_name;
use bm_tx::encode_stripped;
use serde_json::{Value, json};
use spec_bitcoin::Tx;
use spec_compiler::Prepared;
use spec_data::OutOfMemory;
use spec_terms::Path;
use spec_tool::Weight;
use std::alloc::Global;

fn string_value(text: String) -> Value
    ensures { view result ≡ string (string_bytes text) }
{
    Value::from(text)
}

fn hex_string(alloc: Global, bytes: &[u8]) -> Result<String, OutOfMemory>
    ensures { IfOk result (λ text. string_bytes text ≡ hex_text bytes.now) }
{
    hex::encode(alloc, bytes)
}

// Bytes as a string of hexadecimal digits.
#[tactic(auto, using(crate::proofs::Json::Values::hex_plain))]
fn hex_value(alloc: Global, bytes: &[u8]) -> Result<Value, OutOfMemory>
    ensures { IfOk result (λ v. seen (view v) ≡ plain (spec.quoted (hex_text bytes.now))) }
{
    let text = hex_string(alloc, bytes)?;
    Ok(string_value(text))
}

// A txid as it is shown, the last byte first.
fn txid_value(alloc: Global, txid: &[u8; 32]) -> Result<Value, OutOfMemory>
    ensures { IfOk result (λ v. seen (view v) ≡ plain (spec.quoted (hex_text (reverse txid.now)))) }
{
    let mut shown = *txid;
    shown.reverse();
    hex_value(alloc, &shown)
}

// The bytes of a transaction without marker and witnesses.
fn tx_value(alloc: Global, tx: &Tx) -> Result<Value, OutOfMemory>
    ensures { IfOk result (λ v. seen (view v) ≡ plain (spec.quoted (hex_text (stripped tx.now)))) }
{
    let bytes = encode_stripped(alloc, tx)?;
    hex_value(alloc, &bytes)
}

/// The name of the initial transaction.
#[tactic(auto, using(crate::proofs::Json::Values::init_plain))]
pub(crate) fn init_name(alloc: Global) -> Result<Value, OutOfMemory>
    ensures { IfOk result (λ v. seen (view v) ≡ plain (spec.quoted (codes "init"))) }
{
    Value::try_from_str(alloc, "init")
}

// A path as a string.
fn path_string(alloc: Global, path: &Path) -> Result<String, OutOfMemory>
    ensures { IfOk result (λ text. string_bytes text ≡ path_text path.now) }
{
    let name = path_name(alloc, path)?;
    String::from_utf8_lossy(alloc, &name)
}

/// The name of a path's transaction.
#[tactic(auto, using(crate::proofs::Json::Values::path_named))]
pub(crate) fn name_value(alloc: Global, path: &Path) -> Result<Value, OutOfMemory>
    ensures { IfOk result (λ v. seen (view v) ≡ plain (spec.quoted (path_text path.now))) }
{
    let text = path_string(alloc, path)?;
    Ok(string_value(text))
}

// A list of values.
fn list_value(values: Vec<Value>) -> Value
    ensures { (texts : List (List ℕ)) → map seen (map view values.items) ≡ map plain texts
        → seen (view result) ≡ plain (spec.bracketed texts) }
{
    Value::from(values)
}

fn digest_values(alloc: Global, digests: &[[u8; 32]]) -> Result<Vec<Value>, OutOfMemory>
    ensures { IfOk result (λ vs. map seen (map view vs.items) ≡ map plain (map (λ d. spec.quoted (hex_text d)) digests.now)) }
{
    let mut values = Vec::new(alloc);
    for digest in digests {
        values.push(hex_value(alloc, digest)?)?;
    }
    Ok(values)
}

// The digests of a transaction's inputs.
fn digests_value(alloc: Global, digests: &[[u8; 32]]) -> Result<Value, OutOfMemory>
    ensures { IfOk result (λ v. seen (view v) ≡ plain (spec.bracketed (map (λ d. spec.quoted (hex_text d)) digests.now))) }
{
    Ok(list_value(digest_values(alloc, digests)?))
}

fn told_weight(alloc: Global, weight: &Weight) -> Result<Value, OutOfMemory>
    ensures { IfOk result (λ v. view v
        ≡ array (item (number (unsigned weight.now.least)) (item (number (unsigned weight.now.most)) no_items))) }
{
    json!(in alloc; [weight.least, weight.most])
}

// The least and the greatest weight.
fn weight_value(alloc: Global, weight: &Weight) -> Result<Value, OutOfMemory>
    ensures { IfOk result (λ v. seen (view v) ≡ plain (spec.weight_value weight.now)) }
{
    told_weight(alloc, weight)
}

// What is told of a transaction, by parts.
fn told_value(
    alloc: Global,
    digests: Value,
    hex: Value,
    lock: u32,
    name: Value,
    total: Value,
    txid: Value,
    weight: Value,
) -> Result<Value, OutOfMemory>
    ensures { IfOk result (λ v. view v ≡ object
        (member (codes "digests") (view digests) (member (codes "hex") (view hex) (member (codes "lock") (number (unsigned lock))
        (member (codes "name") (view name) (member (codes "total") (view total) (member (codes "txid") (view txid)
        (member (codes "weight") (view weight) no_members)))))))) }
{
    json!(in alloc; {
        "digests": digests,
        "hex": hex,
        "lock": lock,
        "name": name,
        "total": total,
        "txid": txid,
        "weight": weight
    })
}

/// A transaction by its name, with its weight and its total.
pub(crate) fn transaction_value(
    alloc: Global,
    name: Value,
    prepared: &Prepared,
    weight: &Weight,
    total: &Weight,
) -> Result<Value, OutOfMemory>
    ensures { (text : List ℕ) → seen (view name) ≡ plain (spec.quoted text)
        → IfOk result (λ v. seen (view v) ≡ plain (spec.transaction_value text prepared.now (weight.now, total.now))) }
{
    let digests = digests_value(alloc, prepared.digests.as_slice())?;
    let hex = tx_value(alloc, &prepared.tx)?;
    let txid = txid_value(alloc, &prepared.txid)?;
    let weight = weight_value(alloc, weight)?;
    let total = weight_value(alloc, total)?;
    told_value(
        alloc,
        digests,
        hex,
        prepared.tx.lock,
        name,
        total,
        txid,
        weight,
    )
}

// A contract's number and its transactions, by parts.
fn told_plan(alloc: Global, contract: u32, transactions: Value) -> Result<Value, OutOfMemory>
    ensures { IfOk result (λ v. view v ≡ object
        (member (codes "contract") (number (unsigned contract)) (member (codes "transactions") (view transactions) no_members))) }
{
    json!(in alloc; {"contract": contract, "transactions": transactions})
}

/// A contract's number and its transactions.
pub(crate) fn plan_value(
    alloc: Global,
    contract: u32,
    values: Vec<Value>,
) -> Result<Value, OutOfMemory>
    ensures { (texts : List (List ℕ)) → map seen (map view values.items) ≡ map plain texts
        → IfOk result (λ v. seen (view v) ≡ plain (spec.object
        ((codes "contract", decimal contract) ∷ ((codes "transactions", spec.bracketed texts) ∷ [])))) }
{
    let transactions = list_value(values);
    told_plan(alloc, contract, transactions)
}

/// The text of a value without floats.
pub(crate) fn text_of(alloc: Global, value: &Value) -> Result<Vec<u8>, OutOfMemory>
    ensures { IfOk result (λ text. (t : List ℕ) → seen (view value.now) ≡ plain t → text.items ≡ t) }
{
    Ok(value.to_string(alloc)?.into_bytes())
}
