//! A value on a line of its own.

ghost use Rattle.std.specs.Prelude.{◌≡◌, ◌≤◌, false, string_bytes, Some, IfOk};
ghost use Rattle.serde_json.specs.Data.{depth};
ghost use Rattle.serde_json.specs.Read.{max_depth, read};
ghost use Rattle.serde_json.specs.View.{view};
ghost use Rattle.serde_json.specs.Written.{has_float, compact_text};
ghost use Rattle.spec_json.specs.Values as spec;

use serde_json::Value;
use spec_data::OutOfMemory;
use std::alloc::Global;

// The text of a value without floats.
fn text_of(alloc: Global, value: &Value) -> Result<Vec<u8>, OutOfMemory>
    ensures text { IfOk result (λ text. has_float (view value.now) ≡ false → text.items ≡ compact_text (view value.now)) }
    ensures reads { IfOk result (λ text. depth (view value.now) ≤ max_depth → read text.items ≡ Some (view value.now)) }
{
    Ok(value.to_string(alloc)?.into_bytes())
}

/// The line of a value without floats. Without its line feed it reads back as the value.
pub fn line_of(alloc: Global, value: &Value) -> Result<Vec<u8>, OutOfMemory>
    ensures line { IfOk result (λ line. has_float (view value.now) ≡ false → line.items ≡ spec.json_line (view value.now)) }
    ensures reads { IfOk result (λ _. has_float (view value.now) ≡ false → depth (view value.now) ≤ max_depth
        → read (compact_text (view value.now)) ≡ Some (view value.now)) }
{
    let mut line = text_of(alloc, value)?;
    line.push(b'\n')?;
    Ok(line)
}
