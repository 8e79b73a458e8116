//! Bytes as hexadecimal digits.

ghost use Rattle.std.specs.Prelude.{◌≡◌, ◌≢◌, ◌<◌, ◌++◌, length, IfOk, OnOk, OnErr, Some, None, Err};
ghost use Rattle.hex.specs.declared.error.FromHexError.TheVariants.{OutOfMemory};
ghost use Rattle.spec_data.specs.Digits.{hex_text, read_hex};

use hex::FromHexError;
use spec_data::OutOfMemory;
use std::alloc::Global;

/// Why a word gave no bytes.
#[derive(Clone, Copy, Debug, PartialEq, Eq)]
pub enum HexError {
    /// It isn't an even number of digits, of which there are at least two.
    Bad,
    /// Out of memory.
    Memory,
}

/// The bytes that a word spells by two digits for each, in either case.
pub fn read_hex(alloc: Global, word: &[u8]) -> Result<Vec<u8>, HexError>
    ensures ok { IfOk result (λ v. read_hex word.now ≡ Some v.items) }
    ensures bad { result ≡ Err HexError.Bad → read_hex word.now ≡ None }
{
    if word.is_empty() {
        return Err(HexError::Bad);
    }
    match hex::decode(alloc, word) {
        Ok(bytes) => Ok(bytes),
        Err(error) => Err(error_of(error)),
    }
}

fn error_of(error: FromHexError) -> HexError
    ensures { result ≡ HexError.Bad → error ≢ OutOfMemory }
{
    match error {
        FromHexError::OutOfMemory => HexError::Memory,
        FromHexError::OddLength => HexError::Bad,
        FromHexError::InvalidStringLength => HexError::Bad,
        FromHexError::InvalidHexCharacter { .. } => HexError::Bad,
    }
}

/// Writes bytes as hexadecimal digits in lower case, two for each.
pub fn put_hex(alloc: Global, out: &mut Vec<u8>, bytes: &[u8]) -> Result<(), OutOfMemory>
    ensures ok { OnOk result (out.new.items ≡ out.old.items ++ hex_text bytes.now) }
    ensures err { OnErr result (out.new.items ≡ out.old.items) }
{
    let text = hex::encode(alloc, bytes)?;
    out.extend_from_slice(text.as_bytes())?;
    Ok(())
}

/// What is written of bytes reads as those bytes, where there is at least one.
pub fn hexadecimal_reads_back(bytes: &[u8])
    requires { 0 < length bytes.now }
    ensures { read_hex (hex_text bytes.now) ≡ Some bytes.now }
{}
