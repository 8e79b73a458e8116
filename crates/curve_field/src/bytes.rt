//! Numbers that bytes spell, the highest byte first.

ghost use Rattle.std.specs.Prelude.{◌≡◌, ◌+◌, ◌*◌, ◌^◌, ◌<◌, ◌≤◌, length};
ghost use Rattle.spec_curve.specs.Key.{number_of};
ghost use Rattle.curve_field.specs.Value.{value};

use crate::words::{Words, lower, row_of, small};

// The number with one byte behind it.
fn with_byte(number: Words, byte: u8) -> Words
    requires { value number < 2 ^ 248 }
    ensures { value result ≡ value number * 256 + byte }
{
    lower(row_of(number, 256, small(byte as u64)))
}

/// The number that at most 32 bytes spell, the highest first.
pub fn from_bytes(bytes: &[u8]) -> Words
    requires { length bytes.now ≤ 32 }
    ensures { value result ≡ number_of bytes.now }
{
    let mut number = small(0);
    for byte in bytes {
        number = with_byte(number, *byte);
    }
    number
}
