//! Texts, numbers and lists as values of JSON.

ghost use Rattle.std.specs.Prelude.{◌≡◌, map, option_map, string_bytes, None, IfOk};
ghost use Rattle.std.specs.Str.Lossy.{utf8_lossy};
ghost use Rattle.serde_json.specs.Data.{string};
ghost use Rattle.serde_json.specs.View.{view};
ghost use Rattle.spec_json.specs.Values as spec;

use serde_json::Value;
use spec_data::OutOfMemory;
use std::alloc::Global;

fn string_of(alloc: Global, text: &[u8]) -> Result<String, OutOfMemory>
    ensures { IfOk result (λ s. string_bytes s ≡ utf8_lossy text.now) }
{
    String::from_utf8_lossy(alloc, text)
}

fn string_value(text: String) -> Value
    ensures { view result ≡ string (string_bytes text) }
{
    Value::from(text)
}

/// A text; what isn't UTF-8 is replaced.
pub fn text_value(alloc: Global, text: &[u8]) -> Result<Value, OutOfMemory>
    ensures { IfOk result (λ v. view v ≡ spec.text_value text.now) }
{
    let text = string_of(alloc, text)?;
    Ok(string_value(text))
}

fn null_value() -> Value
    ensures { view result ≡ spec.optional_value None }
{
    Value::from(())
}

/// A text, or `null`.
pub fn text_or_null(alloc: Global, text: Option<&[u8]>) -> Result<Value, OutOfMemory>
    ensures { IfOk result (λ v. view v ≡ spec.optional_value (option_map spec.text_value (option_map (λ t. t.now) text.entry))) }
{
    match text {
        None => Ok(null_value()),
        Some(text) => text_value(alloc, text),
    }
}

fn number_value(number: u64) -> Value
    ensures { view result ≡ spec.number_value number }
{
    Value::from(number)
}

/// A number, or `null`.
pub fn number_or_null(number: Option<u64>) -> Value
    ensures { view result ≡ spec.optional_value (option_map spec.number_value number) }
{
    match number {
        None => null_value(),
        Some(number) => number_value(number),
    }
}

/// These in order.
pub fn list_value(values: Vec<Value>) -> Value
    ensures { view result ≡ spec.list_value (map view values.items) }
{
    Value::from(values)
}
