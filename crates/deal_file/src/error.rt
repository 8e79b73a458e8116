//! Why a deal isn't taken.

ghost use Rattle.std.specs.Prelude.{◌≡◌};
ghost use Rattle.deal_file.specs.declared.error.DealError.TheVariants as deals;
ghost use Rattle.deal_file.specs.declared.error.LineError.TheVariants as lines;

use spec_deal::{DealFault, DealReason};
use std::alloc::{AllocError, AllocFailed};

/// Why a text gives no deal.
pub enum DealError {
    /// It is refused for this.
    Refused(DealFault),
    /// Out of memory.
    Memory,
}

impl Drop for DealError {
    fn drop(self) {
        match self {
            DealError::Refused(_) | DealError::Memory => {}
        }
    }
}

/// Why a line doesn't count.
#[derive(Clone, Copy, Debug, PartialEq, Eq)]
pub(crate) enum LineError {
    Bad(DealReason),
    Memory,
}

impl From<AllocError> for DealError {
    ghost from_gives = { λ _ e. e ≡ deals.Memory };

    fn from(_error: AllocError) -> DealError {
        DealError::Memory
    }
}

impl<T: Drop> From<AllocFailed<T>> for DealError {
    ghost from_gives = { λ _ e. e ≡ deals.Memory };

    fn from(_error: AllocFailed<T>) -> DealError {
        DealError::Memory
    }
}

impl From<AllocError> for LineError {
    ghost from_gives = { λ _ e. e ≡ lines.Memory };

    fn from(_error: AllocError) -> LineError {
        LineError::Memory
    }
}

impl<T: Drop> From<AllocFailed<T>> for LineError {
    ghost from_gives = { λ _ e. e ≡ lines.Memory };

    fn from(_error: AllocFailed<T>) -> LineError {
        LineError::Memory
    }
}
