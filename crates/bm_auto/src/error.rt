//! Why a text is no strategy.

ghost use Rattle.std.specs.Prelude.{◌≡◌};
ghost use Rattle.bm_auto.specs.declared.error.LineError.TheVariants as lines;
ghost use Rattle.bm_auto.specs.Gives.{of_line};

use bm_runfile::WordError;
use std::alloc::{AllocError, AllocFailed};

/// Why a text is no strategy. Lines are counted from 1.
#[derive(Clone, Copy, Debug, PartialEq, Eq)]
pub enum StrategyError {
    /// The first line that spells no rule.
    BadLine(u32),
    /// The first line that is one rule too many.
    Limit(u32),
    /// Out of memory.
    Memory,
}

/// Why a line doesn't count.
#[derive(Clone, Copy, Debug, PartialEq, Eq)]
pub(crate) enum LineError {
    Bad,
    Over,
    Memory,
}

impl From<AllocError> for LineError {
    ghost from_gives = { λ _ e. e ≡ lines.Memory };

    fn from(_error: AllocError) -> LineError {
        LineError::Memory
    }
}

impl<T: Drop> From<AllocFailed<T>> for LineError {
    ghost from_gives = { λ _ e. e ≡ lines.Memory };

    fn from(_error: AllocFailed<T>) -> LineError {
        LineError::Memory
    }
}

impl From<WordError> for LineError {
    ghost from_gives = { λ error e. e ≡ of_line error };

    fn from(error: WordError) -> LineError {
        match error {
            WordError::Bad => LineError::Bad,
            WordError::Memory => LineError::Memory,
        }
    }
}
