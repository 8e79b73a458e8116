//! What the lines of a deal's files give. Lines are counted from 1.

ghost use Rattle.std.specs.Prelude.{◌≡◌, IfOk};

use crate::deal::Needed;
use spec_bitcoin::OutPoint;
use spec_data::{Bytes, Name, OutOfMemory};
use std::alloc::Global;

/// What a line of a deal file gives.
pub enum Value {
    /// A compressed public key.
    Key([u8; 33]),
    /// Where a deposit lies.
    Place(OutPoint),
    /// Where a deposit of a wallet lies, and its output script.
    Wallet(OutPoint, Bytes),
    /// The hash of a secret.
    Hash([u8; 32]),
    /// The human-readable part of a network's addresses (BIP 173).
    Network(Name),
    /// An output script.
    Script(Bytes),
}

impl Drop for Value {
    fn drop(self) {
        match self {
            Value::Key(_)
            | Value::Place(_)
            | Value::Wallet(_, _)
            | Value::Hash(_)
            | Value::Network(_)
            | Value::Script(_) => {}
        }
    }
}

impl Value {
    /// An equal one.
    pub fn copy(&self, alloc: Global) -> Result<Value, OutOfMemory>
        ensures { IfOk result (λ value. value ≡ self.now) }
    {
        Ok(match self {
            Value::Key(key) => Value::Key(*key),
            Value::Place(outpoint) => Value::Place(*outpoint),
            Value::Wallet(outpoint, script) => Value::Wallet(*outpoint, script.copy(alloc)?),
            Value::Hash(digest) => Value::Hash(*digest),
            Value::Network(hrp) => Value::Network(*hrp),
            Value::Script(script) => Value::Script(script.copy(alloc)?),
        })
    }
}

/// What the line of this number of a deal file gives, and to what.
pub struct Entry {
    pub line: u32,
    pub needed: Needed,
    pub value: Value,
}

impl Drop for Entry {
    fn drop(self) {
        let Entry {
            line: _,
            needed: _,
            value: _,
        } = self;
    }
}

/// The string that the line of this number of a file of secrets gives to a secret.
pub struct Shown {
    pub line: u32,
    pub name: Name,
    pub bytes: Bytes,
}

impl Drop for Shown {
    fn drop(self) {
        let Shown {
            line: _,
            name: _,
            bytes: _,
        } = self;
    }
}
