//! Transactions before they are signed.

ghost use Rattle.std.specs.Prelude.{◌≡◌, IfOk};

use spec_bitcoin::tx::copy_outputs;
use spec_bitcoin::{OutPoint, TxOut};
use spec_data::{Bytes, OutOfMemory, Seq};
use std::alloc::Global;

/// An output that a transaction spends: where it lies, the script that its spender shows, and its value in satoshi.
pub struct Spent {
    pub outpoint: OutPoint,
    pub script: Bytes,
    pub value: u64,
}

impl Drop for Spent {
    fn drop(self) {
        let Spent {
            outpoint: _,
            script: _,
            value: _,
        } = self;
    }
}

/// A transaction without witnesses, by what it spends, what it makes and its lock.
pub struct Unsigned {
    pub spends: Seq<Spent>,
    pub outputs: Seq<TxOut>,
    pub lock: u32,
}

impl Drop for Unsigned {
    fn drop(self) {
        let Unsigned {
            spends: _,
            outputs: _,
            lock: _,
        } = self;
    }
}

impl Spent {
    /// An equal one.
    pub fn copy(&self, alloc: Global) -> Result<Spent, OutOfMemory>
        ensures { IfOk result (λ spent. spent ≡ self.now) }
    {
        Ok(Spent {
            outpoint: self.outpoint,
            script: self.script.copy(alloc)?,
            value: self.value,
        })
    }
}

impl Unsigned {
    /// An equal one.
    pub fn copy(&self, alloc: Global) -> Result<Unsigned, OutOfMemory>
        ensures { IfOk result (λ unsigned. unsigned ≡ self.now) }
    {
        Ok(Unsigned {
            spends: copy_spends(alloc, self.spends.as_slice())?,
            outputs: copy_outputs(alloc, self.outputs.as_slice())?,
            lock: self.lock,
        })
    }
}

/// Equal ones, in the same order.
pub fn copy_spends(alloc: Global, spends: &[Spent]) -> Result<Seq<Spent>, OutOfMemory>
    ensures { IfOk result (λ new. new ≡ spends.now) }
{
    let mut copies = Seq::new(alloc);
    for spent in spends {
        copies.push(spent.copy(alloc)?)?;
    }
    Ok(copies)
}
