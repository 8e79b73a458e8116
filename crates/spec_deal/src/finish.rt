//! Signatures that transactions need, and why a transaction can't be finished.

ghost use Rattle.std.specs.Prelude.{◌≡◌, IfOk};

use spec_bitcoin::Label;
use spec_data::{Name, OutOfMemory};
use spec_terms::Path;
use std::alloc::Global;

/// What a signature is for, by the event of a run that would make it.
#[derive(Clone, Copy, Debug, PartialEq, Eq)]
pub enum Verb {
    /// It starts the contract.
    Init,
    /// Someone whom the branch asks agrees to take it.
    Authorise,
    /// It is given before the contract starts.
    Endorse,
}

/// Why a transaction isn't finished.
pub enum FinishRefusal {
    /// The contract can't be started, since the endorsement of this path by this party is missing.
    Endorsement(Path, Name),
    /// The signature of this input, counted from 0, by the key of this label is missing.
    Signature(u32, Label),
    /// The witness of this input by the wallet of this deposit is missing.
    Wallet(u32, Name),
    /// The secret of this name is missing.
    Secret(Name),
    /// The predicate is false of the secrets' lengths.
    Predicate,
}

impl Drop for FinishRefusal {
    fn drop(self) {
        match self {
            FinishRefusal::Endorsement(_, _)
            | FinishRefusal::Signature(_, _)
            | FinishRefusal::Wallet(_, _)
            | FinishRefusal::Secret(_)
            | FinishRefusal::Predicate => {}
        }
    }
}

impl FinishRefusal {
    /// An equal one.
    pub fn copy(&self, alloc: Global) -> Result<FinishRefusal, OutOfMemory>
        ensures { IfOk result (λ refusal. refusal ≡ self.now) }
    {
        Ok(match self {
            FinishRefusal::Endorsement(path, party) => {
                FinishRefusal::Endorsement(path.copy(alloc)?, *party)
            }
            FinishRefusal::Signature(input, label) => {
                FinishRefusal::Signature(*input, label.copy(alloc)?)
            }
            FinishRefusal::Wallet(input, deposit) => FinishRefusal::Wallet(*input, *deposit),
            FinishRefusal::Secret(name) => FinishRefusal::Secret(*name),
            FinishRefusal::Predicate => FinishRefusal::Predicate,
        })
    }
}
