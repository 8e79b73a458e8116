//! Names and paths as values of JSON.

ghost use Rattle.std.specs.Prelude.{◌≡◌, map, option_map, IfOk};
ghost use Rattle.serde_json.specs.View.{view};
ghost use Rattle.spec_bitcoin.specs.Keys.{path_text};
ghost use Rattle.spec_json.specs.Values.{text_value as text_of};
ghost use Rattle.spec_next.specs.JsonForm as spec;

use bm_keys::put_path;
use json_text::{text_or_null, text_value};
use serde_json::Value;
use spec_data::{Name, OutOfMemory};
use spec_terms::PathStep;
use std::alloc::Global;

/// A name, or `null`.
pub(crate) fn name_value(alloc: Global, name: Option<&Name>) -> Result<Value, OutOfMemory>
    ensures { IfOk result (λ v. view v ≡ spec.name_value (option_map (λ n. n.now) name.entry)) }
{
    match name {
        None => text_or_null(alloc, None),
        Some(name) => text_value(alloc, name.bytes()),
    }
}

/// Each of these names.
pub(crate) fn name_values(alloc: Global, names: &[Name]) -> Result<Vec<Value>, OutOfMemory>
    ensures { IfOk result (λ vs. map view vs.items ≡ map text_of names.now) }
{
    let mut values = Vec::new(alloc);
    for name in names {
        values.push(text_value(alloc, name.bytes())?)?;
    }
    Ok(values)
}

/// A path.
pub(crate) fn path_value(alloc: Global, path: &[PathStep]) -> Result<Value, OutOfMemory>
    ensures { IfOk result (λ v. view v ≡ text_of (path_text path.now)) }
{
    let mut text = Vec::new(alloc);
    put_path(alloc, &mut text, path)?;
    text_value(alloc, &text)
}
