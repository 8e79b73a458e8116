//! Signatures that wallets gave.

ghost use Rattle.std.specs.Prelude.{◌≡◌, IfOk};

use spec_bitcoin::tx::copy_items;
use spec_data::{Bytes, OutOfMemory, Seq};
use std::alloc::Global;

/// A signature, the key that it is by, and what it signs: an input, counted from 0, of the transaction that has these
/// bytes without witnesses. Of an input that a wallet finished there is a witness, by no key, and without a signature.
pub struct Signed {
    pub tx: Bytes,
    pub input: u32,
    pub key: [u8; 33],
    pub signature: Bytes,
    pub witness: Seq<Bytes>,
}

impl Drop for Signed {
    fn drop(self) {
        let Signed {
            tx: _,
            input: _,
            key: _,
            signature: _,
            witness: _,
        } = self;
    }
}

impl Signed {
    /// An equal one.
    pub fn copy(&self, alloc: Global) -> Result<Signed, OutOfMemory>
        ensures { IfOk result (λ signed. signed ≡ self.now) }
    {
        Ok(Signed {
            tx: self.tx.copy(alloc)?,
            input: self.input,
            key: self.key,
            signature: self.signature.copy(alloc)?,
            witness: copy_items(alloc, self.witness.as_slice())?,
        })
    }
}
