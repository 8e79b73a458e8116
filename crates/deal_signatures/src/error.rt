//! Why signatures aren't taken.

ghost use Rattle.std.specs.Prelude.{◌≡◌};
ghost use Rattle.deal_signatures.specs.declared.error.SignatureError.TheVariants as files;
ghost use Rattle.deal_signatures.specs.declared.error.LineError.TheVariants as lines;

use spec_deal::{SignatureFault, SignatureReason};
use std::alloc::{AllocError, AllocFailed};

/// Why a text gives no signatures.
#[derive(Clone, Copy, Debug, PartialEq, Eq)]
pub enum SignatureError {
    /// It is refused for this.
    Refused(SignatureFault),
    /// Out of memory.
    Memory,
}

/// Why a line doesn't count.
#[derive(Clone, Copy, Debug, PartialEq, Eq)]
pub(crate) enum LineError {
    Bad(SignatureReason),
    Memory,
}

impl From<AllocError> for SignatureError {
    ghost from_gives = { λ _ e. e ≡ files.Memory };

    fn from(_error: AllocError) -> SignatureError {
        SignatureError::Memory
    }
}

impl From<AllocError> for LineError {
    ghost from_gives = { λ _ e. e ≡ lines.Memory };

    fn from(_error: AllocError) -> LineError {
        LineError::Memory
    }
}

impl<T: Drop> From<AllocFailed<T>> for LineError {
    ghost from_gives = { λ _ e. e ≡ lines.Memory };

    fn from(_error: AllocFailed<T>) -> LineError {
        LineError::Memory
    }
}
