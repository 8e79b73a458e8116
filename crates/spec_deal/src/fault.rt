//! Why the files of a deal are refused. Lines are counted from 1, inputs from 0.

ghost use Rattle.std.specs.Prelude.{◌≡◌, IfOk};

use crate::deal::Needed;
use spec_data::{Name, OutOfMemory};
use std::alloc::Global;

/// Why a line of a deal file is bad.
#[derive(Clone, Copy, Debug, PartialEq, Eq)]
pub enum DealReason {
    /// Its words are no line of a deal.
    Form,
    /// The contract needs no such label, deposit or secret, or has no such participant.
    Foreign,
    /// The words behind it spell no key that is a point, no place, no hash, no network, or no script that may be paid.
    Value,
    /// This line has given the same label, deposit or secret, a script of the same participant, or a network.
    Repeated(u32),
    /// This line has given the same key, place or hash to another.
    Shared(u32),
}

/// Why a deal file is refused.
pub enum DealFault {
    /// It has too many bytes.
    Size,
    /// This line is the first bad one.
    Line(u32, DealReason),
    /// This is the first that no line gives.
    Missing(Needed),
    /// This deposit would be made by one of the deal's own transactions, or this participant be paid at one of the
    /// deal's own positions.
    Circular(Name),
}

impl Drop for DealFault {
    fn drop(self) {
        match self {
            DealFault::Size
            | DealFault::Line(_, _)
            | DealFault::Missing(_)
            | DealFault::Circular(_) => {}
        }
    }
}

impl DealFault {
    /// An equal one.
    pub fn copy(&self, alloc: Global) -> Result<DealFault, OutOfMemory>
        ensures { IfOk result (λ fault. fault ≡ self.now) }
    {
        Ok(match self {
            DealFault::Size => DealFault::Size,
            DealFault::Line(line, reason) => DealFault::Line(*line, *reason),
            DealFault::Missing(needed) => DealFault::Missing(needed.copy(alloc)?),
            DealFault::Circular(name) => DealFault::Circular(*name),
        })
    }
}

/// Why a line of a file of signatures is bad.
#[derive(Clone, Copy, Debug, PartialEq, Eq)]
pub enum SignatureReason {
    /// It isn't one word of base64.
    Base64,
    /// Its bytes are no partially signed transaction.
    Form,
    /// Its transaction is none of the deal's.
    Foreign,
    /// The output that it says this input spends is another.
    Spent(u32),
    /// The script that it says this input has is another.
    Script(u32),
    /// The final witness of this input is no signature with the script of one key, or can't be that of its wallet's output.
    Witness(u32),
    /// A signature is by a key that this input doesn't need.
    Key(u32),
    /// A signature of this input hasn't the right shape.
    Signature(u32),
    /// A signature of this input doesn't verify under its key.
    Invalid(u32),
    /// An earlier signature of this input by the same key, or an earlier witness of it by the same wallet, has other bytes.
    Conflict(u32),
}

/// Why a file of signatures is refused.
#[derive(Clone, Copy, Debug, PartialEq, Eq)]
pub enum SignatureFault {
    /// It has too many bytes.
    Size,
    /// This line is the first bad one.
    Line(u32, SignatureReason),
}

/// Why a line of a file of secrets is bad.
#[derive(Clone, Copy, Debug, PartialEq, Eq)]
pub enum SecretReason {
    /// Its words are no line of secrets.
    Form,
    /// The contract has no such secret.
    Foreign,
    /// The last word isn't hexadecimal.
    Value,
    /// This line has given the same secret.
    Repeated(u32),
    /// It has too few or too many bytes for a secret.
    Length,
    /// Its hash isn't the deal's.
    Hash,
}

/// Why a file of secrets is refused.
#[derive(Clone, Copy, Debug, PartialEq, Eq)]
pub enum SecretFault {
    /// It has too many bytes.
    Size,
    /// This line is the first bad one.
    Line(u32, SecretReason),
}
