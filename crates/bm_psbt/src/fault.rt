//! Why bytes were not read.

ghost use Rattle.std.specs.Prelude.{◌≡◌};
ghost use Rattle.bm_psbt.specs.declared.fault.PsbtError.TheVariants.{Memory};
ghost use Rattle.bm_psbt.specs.declared.fault.CombineError.TheVariants as CombineError;

use std::alloc::{AllocError, AllocFailed};

/// Why a partially signed transaction was not decoded.
#[derive(Clone, Copy, Debug, PartialEq, Eq)]
pub enum PsbtError {
    /// The bytes spell none.
    BadPsbt,
    Memory,
}

impl From<AllocError> for PsbtError {
    ghost from_gives = { λ _ e. e ≡ Memory };

    fn from(_error: AllocError) -> PsbtError {
        PsbtError::Memory
    }
}

impl<T: Drop> From<AllocFailed<T>> for PsbtError {
    ghost from_gives = { λ _ e. e ≡ Memory };

    fn from(_error: AllocFailed<T>) -> PsbtError {
        PsbtError::Memory
    }
}

/// Why two partially signed transactions were not combined.
#[derive(Clone, Copy, Debug, PartialEq, Eq)]
pub enum CombineError {
    /// They are of different transactions.
    OtherTx,
    /// Of this input, counted from 0, both have a record of one key with different values.
    Conflict(usize),
    Memory,
}

impl From<AllocError> for CombineError {
    ghost from_gives = { λ _ e. e ≡ CombineError.Memory };

    fn from(_error: AllocError) -> CombineError {
        CombineError::Memory
    }
}
