//! Why strings aren't taken.

ghost use Rattle.std.specs.Prelude.{◌≡◌};
ghost use Rattle.bm_hash.specs.declared.messages.TrailError.TheVariants as trails;
ghost use Rattle.deal_secrets.specs.declared.error.LineError.TheVariants as lines;
ghost use Rattle.deal_secrets.specs.declared.error.SecretsError.TheVariants as files;

use bm_hash::TrailError;
use spec_deal::{SecretFault, SecretReason};
use std::alloc::{AllocError, AllocFailed};

/// Why a text gives no strings.
#[derive(Clone, Copy, Debug, PartialEq, Eq)]
pub enum SecretsError {
    /// It is refused for this.
    Refused(SecretFault),
    /// A string and an earlier one that was hashed have one digest; the trail has both.
    Collided,
    /// Out of memory.
    Memory,
}

/// Why a line doesn't count.
#[derive(Clone, Copy, Debug, PartialEq, Eq)]
pub(crate) enum LineError {
    Bad(SecretReason),
    Collided,
    Memory,
}

impl From<AllocError> for LineError {
    ghost from_gives = { λ _ e. e ≡ lines.Memory };

    fn from(_error: AllocError) -> LineError {
        LineError::Memory
    }
}

impl<T: Drop> From<AllocFailed<T>> for LineError {
    ghost from_gives = { λ _ e. e ≡ lines.Memory };

    fn from(_error: AllocFailed<T>) -> LineError {
        LineError::Memory
    }
}
