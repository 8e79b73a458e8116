//! Bytes as Base64.

ghost use Rattle.std.specs.Prelude.{◌≡◌, IfOk, string_bytes};
ghost use Rattle.base64.specs.Engines.{standard};
ghost use Rattle.base64.specs.GeneralPurpose.{encode_of};
ghost use Rattle.spec_tool.specs.Base64 as spec;

use base64::engine::general_purpose::STANDARD;
use spec_data::OutOfMemory;
use std::alloc::Global;

fn encoded(alloc: Global, bytes: &[u8]) -> Result<String, OutOfMemory>
    ensures { IfOk result (λ text. string_bytes text ≡ encode_of standard bytes.now) }
{
    STANDARD.encode(alloc, bytes)
}

/// The text of bytes, with padding, as one line without its end.
pub fn base64_text(alloc: Global, bytes: &[u8]) -> Result<Vec<u8>, OutOfMemory>
    ensures { IfOk result (λ text. text.items ≡ spec.base64_text bytes.now) }
{
    let text = encoded(alloc, bytes)?;
    Ok(text.into_bytes())
}
