//! A partially signed transaction from the text of a file.

ghost use Rattle.std.specs.Prelude.{◌≡◌, option_map, Option, Some, IfOk};
ghost use Rattle.spec_tool.specs.PsbtText as spec;
ghost use Rattle.bm_psbt_text.specs.Refusals.{judged};

use bm_psbt::{Base64Error, Psbt, PsbtError, decode, read_base64};
use spec_data::OutOfMemory;
use std::alloc::{AllocError, Global};

/// Why a file is refused.
#[derive(Clone, Copy, Debug, PartialEq, Eq)]
pub enum FileRefusal {
    /// It has too many bytes.
    Size,
    /// It isn't Base64.
    Base64,
    /// Its bytes spell no partially signed transaction.
    Form,
}

// The text without a line feed at its end.
#[tactic(auto, using(crate::proofs::Feeds::feed_cut, crate::proofs::Feeds::feed_stays, crate::proofs::Feeds::nothing_stays))]
fn without_feed(text: &[u8]) -> &[u8]
    ensures { result.now ≡ spec.without_feed text.now }
{
    match text.last() {
        None => text,
        Some(last) => {
            if *last == b'\n' {
                &text[..text.len() - 1]
            } else {
                text
            }
        }
    }
}

// What bytes spell.
fn formed(alloc: Global, bytes: &[u8]) -> Result<Result<Psbt, FileRefusal>, OutOfMemory>
    ensures { IfOk result (λ r. judged r ≡ spec.decoded (Some bytes.now)) }
{
    match decode(alloc, bytes) {
        Ok(psbt) => Ok(Ok(psbt)),
        Err(PsbtError::BadPsbt) => Ok(Err(FileRefusal::Form)),
        Err(PsbtError::Memory) => Err(AllocError),
    }
}

// What a text says.
fn decoded(alloc: Global, text: &[u8]) -> Result<Result<Psbt, FileRefusal>, OutOfMemory>
    ensures { IfOk result (λ r. judged r ≡ spec.psbt_in (Some text.now)) }
{
    match read_base64(alloc, without_feed(text)) {
        Ok(bytes) => formed(alloc, &bytes),
        Err(Base64Error::Bad) => Ok(Err(FileRefusal::Base64)),
        Err(Base64Error::Memory) => Err(AllocError),
    }
}

/// What a file says, or why it is refused. A file that has too many bytes is given as `None`.
pub fn psbt_in(alloc: Global, text: Option<&[u8]>) -> Result<Result<Psbt, FileRefusal>, OutOfMemory>
    ensures { IfOk result (λ r. judged r ≡ spec.psbt_in (option_map (λ t. t.now) text.entry)) }
{
    match text {
        None => Ok(Err(FileRefusal::Size)),
        Some(text) => decoded(alloc, text),
    }
}
