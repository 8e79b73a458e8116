//! Why bytes were not read.

ghost use Rattle.std.specs.Prelude.{◌≡◌};
ghost use Rattle.bm_tx.specs.declared.fault.ReadError.TheVariants.{Memory, Bad};

use std::alloc::{AllocError, AllocFailed};

/// Why a transaction was not decoded.
#[derive(Clone, Copy, Debug, PartialEq, Eq)]
pub enum TxError {
    /// The bytes spell no transaction; the length of their longest prefix that begins a spelling.
    BadTx(usize),
    Memory,
}

/// Why a part was not read.
#[derive(Clone, Copy, Debug, PartialEq, Eq)]
pub enum ReadError {
    Memory,
    /// How many bytes are left at the fault.
    Bad(usize),
}

impl From<usize> for ReadError {
    ghost from_gives = { λ left e. e ≡ Bad left };

    fn from(left: usize) -> ReadError {
        ReadError::Bad(left)
    }
}

impl From<AllocError> for ReadError {
    ghost from_gives = { λ _ e. e ≡ Memory };

    fn from(_error: AllocError) -> ReadError {
        ReadError::Memory
    }
}

impl<T: Drop> From<AllocFailed<T>> for ReadError {
    ghost from_gives = { λ _ e. e ≡ Memory };

    fn from(_error: AllocFailed<T>) -> ReadError {
        ReadError::Memory
    }
}
