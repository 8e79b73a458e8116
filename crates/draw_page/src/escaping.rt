//! Texts and values as they stand in HTML.

ghost use Rattle.std.specs.Prelude.{◌≡◌, ◌==◌, ◌||◌, ◌&&◌, ◌++◌, nat_le, OnOk};
ghost use Rattle.spec_page.specs.Html as spec;

use bm_text::put;
use spec_data::OutOfMemory;

// A line feed, or what ASCII prints.
fn is_printed(byte: u8) -> bool
    ensures { result ≡ (byte == 10 || nat_le 32 byte && nat_le byte 126) }
{
    byte == b'\n' || (byte >= b' ' && byte <= b'~')
}

// A byte as it stands in a text or a value.
fn put_byte(out: &mut Vec<u8>, byte: u8) -> Result<(), OutOfMemory>
    ensures { OnOk result (out.new.items ≡ out.old.items ++ spec.escape byte) }
{
    if byte == b'<' {
        return put(out, b"&lt;");
    }
    if byte == b'>' {
        return put(out, b"&gt;");
    }
    if byte == b'&' {
        return put(out, b"&amp;");
    }
    if byte == b'"' {
        return put(out, b"&quot;");
    }
    if is_printed(byte) {
        return put(out, &[byte]);
    }
    put(out, b"?")
}

/// Bytes as they stand in a text or a value.
pub(crate) fn put_escaped(out: &mut Vec<u8>, bytes: &[u8]) -> Result<(), OutOfMemory>
    ensures { OnOk result (out.new.items ≡ out.old.items ++ spec.escaped bytes.now) }
{
    for byte in bytes {
        put_byte(out, *byte)?;
    }
    Ok(())
}
