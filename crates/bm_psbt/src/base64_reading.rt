//! Bytes from Base64.

ghost use Rattle.std.specs.Prelude.{◌≡◌, IfOk, Some, None, Err};
ghost use Rattle.spec_tool.specs.Base64 as spec;

use base64::DecodeAllocError;
use base64::engine::general_purpose::STANDARD;
use std::alloc::Global;

/// Why a text gave no bytes.
#[derive(Clone, Copy, Debug, PartialEq, Eq)]
pub enum Base64Error {
    /// It is no text of bytes: it has another symbol, other padding or bits left over.
    Bad,
    /// Out of memory.
    Memory,
}

/// The bytes that a text is of, with nothing between its symbols.
pub fn read_base64(alloc: Global, text: &[u8]) -> Result<Vec<u8>, Base64Error>
    ensures ok { IfOk result (λ bytes. spec.base64_bytes text.now ≡ Some bytes.items) }
    ensures bad { result ≡ Err Base64Error.Bad → spec.base64_bytes text.now ≡ None }
{
    match STANDARD.decode(alloc, text) {
        Ok(bytes) => Ok(bytes),
        Err(DecodeAllocError::DecodeError(_)) => Err(Base64Error::Bad),
        Err(DecodeAllocError::OutOfMemory) => Err(Base64Error::Memory),
    }
}
