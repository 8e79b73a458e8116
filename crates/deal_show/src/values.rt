//! Values of JSON.

ghost use Rattle.std.specs.Prelude.{◌≡◌, map, option_map, Some, IfOk};
ghost use Rattle.serde_json.specs.View.{view};
ghost use Rattle.spec_data.specs.Digits.{hex_text};
ghost use Rattle.spec_bitcoin.specs.Keys.{path_text};
ghost use Rattle.spec_json.specs.Values as spec;
ghost use Rattle.spec_show.specs.Objects.{text_or_null};
ghost use Rattle.spec_show.specs.ShownDeal.{address_data, txid_data};

use bm_keys::put_path;
use bm_text::put_hex;
use deal_address::address;
use serde_json::Value;
use spec_data::{Name, OutOfMemory};
use spec_terms::PathStep;
use std::alloc::Global;

/// A text; what isn't UTF-8 is replaced.
pub(crate) fn text_value(alloc: Global, text: &[u8]) -> Result<Value, OutOfMemory>
    ensures { IfOk result (λ v. view v ≡ spec.text_value text.now) }
{
    Ok(Value::from(String::from_utf8_lossy(alloc, text)?))
}

/// These values in order.
pub(crate) fn list_value(values: Vec<Value>) -> Value
    ensures { view result ≡ spec.list_value (map view values.items) }
{
    Value::from(values)
}

/// Bytes as hexadecimal digits.
pub(crate) fn hex_value(alloc: Global, bytes: &[u8]) -> Result<Value, OutOfMemory>
    ensures { IfOk result (λ v. view v ≡ spec.text_value (hex_text bytes.now)) }
{
    let mut text = Vec::new(alloc);
    put_hex(alloc, &mut text, bytes)?;
    text_value(alloc, &text)
}

/// A txid as wallets show it, the last byte first.
pub(crate) fn txid_value(alloc: Global, txid: &[u8; 32]) -> Result<Value, OutOfMemory>
    ensures { IfOk result (λ v. view v ≡ txid_data txid.now) }
{
    let mut shown = *txid;
    shown.reverse();
    hex_value(alloc, &shown)
}

/// A path.
pub(crate) fn path_value(alloc: Global, steps: &[PathStep]) -> Result<Value, OutOfMemory>
    ensures { IfOk result (λ v. view v ≡ spec.text_value (path_text steps.now)) }
{
    let mut text = Vec::new(alloc);
    put_path(alloc, &mut text, steps)?;
    text_value(alloc, &text)
}

/// A name, or null where there is none.
pub(crate) fn optional_name(alloc: Global, name: Option<&Name>) -> Result<Value, OutOfMemory>
    ensures { IfOk result (λ v. view v ≡ text_or_null (option_map (λ n. n.now) name.entry)) }
{
    match name {
        Some(name) => text_value(alloc, name.bytes()),
        None => Ok(Value::Null),
    }
}

// The address of a script on this network, null where it has none.
fn address_on(alloc: Global, hrp: &[u8], script: &[u8]) -> Result<Value, OutOfMemory>
    ensures { IfOk result (λ v. view v ≡ address_data (Some hrp.now) script.now) }
{
    match address(alloc, hrp, script)? {
        Some(text) => text_value(alloc, text.as_slice()),
        None => Ok(Value::Null),
    }
}

/// The address of an output script, null where no network is named or the script has none.
pub(crate) fn address_value(
    alloc: Global,
    network: &Option<Name>,
    script: &[u8],
) -> Result<Value, OutOfMemory>
    ensures { IfOk result (λ v. view v ≡ address_data network.now script.now) }
{
    match network {
        Some(hrp) => address_on(alloc, hrp.bytes(), script),
        None => Ok(Value::Null),
    }
}
