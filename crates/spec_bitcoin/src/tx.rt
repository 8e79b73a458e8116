//! Transactions, as BIP 144 has them.

ghost use Rattle.std.specs.Prelude.{◌≡◌, ◌∷◌, [], ℕ, List, IfOk};
ghost use Rattle.std.specs.Cmp.Rules.{hashing};
ghost use Rattle.std.specs.Int.{to_le_bytes, w32};
ghost use Rattle.std.proofs.Common.{rules};

use spec_data::{Bytes, OutOfMemory, Seq};
use std::alloc::Global;
use std::hash::{Hash, Hasher};

/// The place of an output: the transaction that made it, and which of its outputs it is. A table's hasher is fed with the txid at once,
/// and not byte by byte, as with an array.
#[derive(Clone, Copy, Debug, PartialEq, Eq, PartialOrd, Ord)]
pub struct OutPoint {
    pub txid: [u8; 32],
    pub vout: u32,
}

impl Hash for OutPoint {
    ghost hash_input = { λ p. p.txid ∷ to_le_bytes w32 p.vout ∷ [] };

    ghost respects_eq = { Prim.search (hashing, rules) };

    fn hash<H: Hasher>(&self, state: &mut H) {
        state.write(&self.txid);
        state.write(&self.vout.to_le_bytes());
    }
}

/// An input: the output that it spends, and what entitles it to.
pub struct TxIn {
    pub prev: OutPoint,
    pub script_sig: Bytes,
    pub sequence: u32,
    pub witness: Seq<Bytes>,
}

impl Drop for TxIn {
    fn drop(self) {
        let TxIn {
            prev: _,
            script_sig: _,
            sequence: _,
            witness: _,
        } = self;
    }
}

/// An output: a value in satoshi, and the script that guards it.
pub struct TxOut {
    pub value: u64,
    pub script: Bytes,
}

impl Drop for TxOut {
    fn drop(self) {
        let TxOut {
            value: _,
            script: _,
        } = self;
    }
}

/// A transaction.
pub struct Tx {
    pub version: u32,
    pub inputs: Seq<TxIn>,
    pub outputs: Seq<TxOut>,
    pub lock: u32,
}

impl Drop for Tx {
    fn drop(self) {
        let Tx {
            version: _,
            inputs: _,
            outputs: _,
            lock: _,
        } = self;
    }
}

impl TxIn {
    /// An equal input.
    pub fn copy(&self, alloc: Global) -> Result<TxIn, OutOfMemory>
        ensures { IfOk result (λ input. input ≡ self.now) }
    {
        Ok(TxIn {
            prev: self.prev,
            script_sig: self.script_sig.copy(alloc)?,
            sequence: self.sequence,
            witness: copy_items(alloc, self.witness.as_slice())?,
        })
    }
}

impl TxOut {
    /// An equal output.
    pub fn copy(&self, alloc: Global) -> Result<TxOut, OutOfMemory>
        ensures { IfOk result (λ output. output ≡ self.now) }
    {
        Ok(TxOut {
            value: self.value,
            script: self.script.copy(alloc)?,
        })
    }
}

impl Tx {
    /// An equal transaction.
    pub fn copy(&self, alloc: Global) -> Result<Tx, OutOfMemory>
        ensures { IfOk result (λ tx. tx ≡ self.now) }
    {
        Ok(Tx {
            version: self.version,
            inputs: copy_inputs(alloc, self.inputs.as_slice())?,
            outputs: copy_outputs(alloc, self.outputs.as_slice())?,
            lock: self.lock,
        })
    }

    /// The same transaction with these inputs in place of its own.
    pub fn with_inputs(self, inputs: Seq<TxIn>) -> Tx
        ensures { result ≡ record self { inputs = inputs } }
    {
        let Tx {
            version,
            inputs: _,
            outputs,
            lock,
        } = self;
        Tx {
            version,
            inputs,
            outputs,
            lock,
        }
    }
}

/// Equal byte strings, in the same order.
pub fn copy_items(alloc: Global, items: &[Bytes]) -> Result<Seq<Bytes>, OutOfMemory>
    ensures { IfOk result (λ new. new ≡ items.now) }
{
    let mut copies = Vec::with_capacity(alloc, items.len())?;
    for item in items {
        copies.push(item.copy(alloc)?)?;
    }
    Ok(Seq::of(copies))
}

fn copy_inputs(alloc: Global, inputs: &[TxIn]) -> Result<Seq<TxIn>, OutOfMemory>
    ensures { IfOk result (λ new. new ≡ inputs.now) }
{
    let mut copies = Vec::with_capacity(alloc, inputs.len())?;
    for input in inputs {
        copies.push(input.copy(alloc)?)?;
    }
    Ok(Seq::of(copies))
}

/// Equal outputs, in the same order.
pub fn copy_outputs(alloc: Global, outputs: &[TxOut]) -> Result<Seq<TxOut>, OutOfMemory>
    ensures { IfOk result (λ new. new ≡ outputs.now) }
{
    let mut copies = Vec::with_capacity(alloc, outputs.len())?;
    for output in outputs {
        copies.push(output.copy(alloc)?)?;
    }
    Ok(Seq::of(copies))
}
