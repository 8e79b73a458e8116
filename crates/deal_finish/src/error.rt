//! Why a transaction isn't finished.

ghost use Rattle.std.specs.Prelude.{◌≡◌};
ghost use Rattle.deal_finish.specs.declared.error.FinishError.TheVariants as finishes;

use spec_deal::FinishRefusal;
use std::alloc::{AllocError, AllocFailed};

/// Why a transaction isn't finished.
pub enum FinishError {
    /// It is refused for this.
    Refused(FinishRefusal),
    /// Out of memory.
    Memory,
}

impl Drop for FinishError {
    fn drop(self) {
        match self {
            FinishError::Refused(_) | FinishError::Memory => {}
        }
    }
}

impl From<AllocError> for FinishError {
    ghost from_gives = { λ _ e. e ≡ finishes.Memory };

    fn from(_error: AllocError) -> FinishError {
        FinishError::Memory
    }
}

impl<T: Drop> From<AllocFailed<T>> for FinishError {
    ghost from_gives = { λ _ e. e ≡ finishes.Memory };

    fn from(_error: AllocFailed<T>) -> FinishError {
        FinishError::Memory
    }
}
