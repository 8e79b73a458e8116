//! Why a file isn't taken.

use spec_data::Bytes;
use std::alloc::{AllocError, AllocFailed};

/// Why a run or a contract isn't taken.
#[derive(Drop)]
pub enum JudgeError {
    /// It is refused for this, in words.
    Refused(Bytes),
    Memory,
}

/// Why contracts aren't all taken.
#[derive(Drop)]
pub enum ContractsError {
    /// The first that is refused, by its number, and why, in words.
    Refused(usize, Bytes),
    Memory,
}

impl From<AllocError> for JudgeError {
    ghost use Rattle.std.specs.Prelude.{◌≡◌};
    ghost use Rattle.tool_command.specs.declared.error.JudgeError.TheVariants.{Memory};

    ghost from_gives = { λ _ e. e ≡ Memory };

    fn from(_: AllocError) -> JudgeError {
        JudgeError::Memory
    }
}

impl<T: Drop> From<AllocFailed<T>> for ContractsError {
    ghost use Rattle.std.specs.Prelude.{◌≡◌};
    ghost use Rattle.tool_command.specs.declared.error.ContractsError.TheVariants.{Memory};

    ghost from_gives = { λ _ e. e ≡ Memory };

    fn from(_: AllocFailed<T>) -> ContractsError {
        ContractsError::Memory
    }
}
