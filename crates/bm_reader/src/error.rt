//! Why a text is no contract.

ghost use Rattle.std.specs.Prelude.{◌≡◌};
ghost use Rattle.bm_reader.specs.Refusals.{unlexed};
ghost use Rattle.bm_reader.specs.declared.error.ReaderError.TheVariants as readers;
ghost use Rattle.bm_reader.specs.declared.error.ReadError.TheVariants as reads;

use bm_lex::LexError;
use spec_terms::Limit;
use spec_text::Stop;
use std::alloc::{AllocError, AllocFailed};

/// Why a text is no contract, with the place in bytes. A token that is missing at the end has the text's length.
#[derive(Debug, Drop)]
pub enum ReaderError {
    /// This byte begins no token.
    BadByte(usize),
    /// No contract goes on with the token at this place.
    Syntax(usize),
    /// The quantity is exceeded with the token at this place.
    Limit(Limit, usize),
    Memory,
}

/// What a reader of a part answers.
#[derive(Debug, Drop)]
pub enum ReadError {
    Memory,
    Stop(Stop),
}

impl From<AllocError> for ReadError {
    ghost from_gives = { λ _ e. e ≡ reads.Memory };

    fn from(_error: AllocError) -> ReadError {
        ReadError::Memory
    }
}

impl<T: Drop> From<AllocFailed<T>> for ReadError {
    ghost from_gives = { λ _ e. e ≡ reads.Memory };

    fn from(_error: AllocFailed<T>) -> ReadError {
        ReadError::Memory
    }
}

impl From<LexError> for ReaderError {
    ghost from_gives = { λ error e. e ≡ unlexed error };

    fn from(error: LexError) -> ReaderError {
        match error {
            LexError::BadByte(place) => ReaderError::BadByte(place),
            LexError::Memory => ReaderError::Memory,
        }
    }
}

impl From<AllocError> for ReaderError {
    ghost from_gives = { λ _ e. e ≡ readers.Memory };

    fn from(_error: AllocError) -> ReaderError {
        ReaderError::Memory
    }
}

impl<T: Drop> From<AllocFailed<T>> for ReaderError {
    ghost from_gives = { λ _ e. e ≡ readers.Memory };

    fn from(_error: AllocFailed<T>) -> ReaderError {
        ReaderError::Memory
    }
}
