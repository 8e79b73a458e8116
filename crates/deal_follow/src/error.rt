//! Why a chain isn't followed.

ghost use Rattle.std.specs.Prelude.{◌≡◌};
ghost use Rattle.bm_hash.specs.declared.messages.TrailError.{TrailError as Trails};
ghost use Rattle.deal_follow.specs.declared.error.ChainError.TheVariants as chains;
ghost use Rattle.deal_follow.specs.Seen.{error_of};

use bm_hash::TrailError;
use spec_chain::ChainFault;
use std::alloc::{AllocError, AllocFailed};

/// Why a chain isn't followed to its end.
#[derive(Clone, Copy, Debug, PartialEq, Eq)]
pub enum ChainError {
    /// The file is refused for this.
    Refused(ChainFault),
    /// Two strings that were hashed have one digest; the trail has both.
    Collided,
    /// Out of memory.
    Memory,
}

impl From<AllocError> for ChainError {
    ghost from_gives = { λ _ e. e ≡ chains.Memory };

    fn from(_error: AllocError) -> ChainError {
        ChainError::Memory
    }
}

impl<T: Drop> From<AllocFailed<T>> for ChainError {
    ghost from_gives = { λ _ e. e ≡ chains.Memory };

    fn from(_error: AllocFailed<T>) -> ChainError {
        ChainError::Memory
    }
}

impl From<TrailError> for ChainError {
    ghost from_gives = { λ t e. e ≡ error_of t };

    fn from(error: TrailError) -> ChainError {
        match error {
            TrailError::Collided => ChainError::Collided,
            TrailError::Memory => ChainError::Memory,
        }
    }
}
