//! The inputs of a partially signed transaction, by BIP 174.

ghost use Rattle.std.specs.Prelude.{◌≡◌, ℕ, List, Option, Some, None, IfOk};

use spec_bitcoin::TxOut;
use spec_bitcoin::tx::copy_items;
use spec_data::{Bytes, OutOfMemory, Seq};
use std::alloc::Global;

/// What is known of an input.
pub struct PsbtInput {
    /// The output that it spends.
    pub spent: Option<TxOut>,
    /// The signatures, each with its key, in ascending order of the keys.
    pub partial: Seq<([u8; 33], Bytes)>,
    /// Whether the signature hash type is said to be ALL.
    pub all: bool,
    /// The script whose hash the spent output pays to.
    pub script: Option<Bytes>,
    /// The final witness.
    pub witness: Option<Seq<Bytes>>,
}

impl Drop for PsbtInput {
    fn drop(self) {
        let PsbtInput {
            spent: _,
            partial: _,
            all: _,
            script: _,
            witness: _,
        } = self;
    }
}

impl PsbtInput {
    /// An equal one.
    pub fn copy(&self, alloc: Global) -> Result<PsbtInput, OutOfMemory>
        ensures { IfOk result (λ input. input ≡ self.now) }
    {
        Ok(PsbtInput {
            spent: copy_output(alloc, &self.spent)?,
            partial: copy_signatures(alloc, self.partial.as_slice())?,
            all: self.all,
            script: copy_script(alloc, &self.script)?,
            witness: copy_witness(alloc, &self.witness)?,
        })
    }
}

fn copy_output(alloc: Global, output: &Option<TxOut>) -> Result<Option<TxOut>, OutOfMemory>
    ensures { IfOk result (λ new. new ≡ output.now) }
{
    match output {
        None => Ok(None),
        Some(output) => Ok(Some(output.copy(alloc)?)),
    }
}

fn copy_script(alloc: Global, script: &Option<Bytes>) -> Result<Option<Bytes>, OutOfMemory>
    ensures { IfOk result (λ new. new ≡ script.now) }
{
    match script {
        None => Ok(None),
        Some(script) => Ok(Some(script.copy(alloc)?)),
    }
}

fn copy_witness(
    alloc: Global,
    witness: &Option<Seq<Bytes>>,
) -> Result<Option<Seq<Bytes>>, OutOfMemory>
    ensures { IfOk result (λ new. new ≡ witness.now) }
{
    match witness {
        None => Ok(None),
        Some(items) => Ok(Some(copy_items(alloc, items.as_slice())?)),
    }
}

fn copy_signatures(
    alloc: Global,
    pairs: &[([u8; 33], Bytes)],
) -> Result<Seq<([u8; 33], Bytes)>, OutOfMemory>
    ensures { IfOk result (λ new. new ≡ pairs.now) }
{
    let mut copies = Seq::new(alloc);
    for (key, signature) in pairs {
        copies.push((*key, signature.copy(alloc)?))?;
    }
    Ok(copies)
}
