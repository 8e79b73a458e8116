//! Transactions that are ready to be signed.

ghost use Rattle.std.specs.Prelude.{◌≡◌, IfOk};

use spec_bitcoin::Tx;
use spec_data::{OutOfMemory, Seq};
use std::alloc::Global;

/// A transaction without witnesses, with its id, and for each input the digest that its signatures are of.
pub struct Prepared {
    pub tx: Tx,
    pub txid: [u8; 32],
    pub digests: Seq<[u8; 32]>,
}

impl Drop for Prepared {
    fn drop(self) {
        let Prepared {
            tx: _,
            txid: _,
            digests: _,
        } = self;
    }
}

impl Prepared {
    /// An equal one.
    pub fn copy(&self, alloc: Global) -> Result<Prepared, OutOfMemory>
        ensures { IfOk result (λ prepared. prepared ≡ self.now) }
    {
        Ok(Prepared {
            tx: self.tx.copy(alloc)?,
            txid: self.txid,
            digests: self.digests.copy(alloc)?,
        })
    }
}
