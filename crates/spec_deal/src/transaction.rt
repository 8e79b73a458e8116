//! A transaction of a deal, with all that is asked of it.

ghost use Rattle.std.specs.Prelude.{◌≡◌, IfOk};

use crate::finish::Verb;
use spec_bitcoin::{Label, Tx, TxOut};
use spec_compiler::Spent;
use spec_data::{Bytes, Name, OutOfMemory, Seq};
use spec_tool::Which;
use std::alloc::Global;

/// Who signs an input: the label of the key, the key that was given for it, and what the signature is for.
pub struct Signer {
    pub label: Label,
    pub key: [u8; 33],
    pub verb: Verb,
}

impl Drop for Signer {
    fn drop(self) {
        let Signer {
            label: _,
            key: _,
            verb: _,
        } = self;
    }
}

/// The wallet that brings the deposit of this name, whose output has this script.
pub struct Wallet {
    pub deposit: Name,
    pub script: Bytes,
}

impl Drop for Wallet {
    fn drop(self) {
        let Wallet {
            deposit: _,
            script: _,
        } = self;
    }
}

/// An input: what it spends, the output that this is, the digest that its signatures are of, if it has one, who signs
/// it, in order, and the wallet that does, if one does.
pub struct Input {
    pub spent: Spent,
    pub output: TxOut,
    pub digest: [u8; 32],
    pub signers: Seq<Signer>,
    pub wallet: Option<Wallet>,
}

impl Drop for Input {
    fn drop(self) {
        let Input {
            spent: _,
            output: _,
            digest: _,
            signers: _,
            wallet: _,
        } = self;
    }
}

/// A transaction under its name, without witnesses, with its id, its bytes and its inputs.
pub struct Transaction {
    pub which: Which,
    pub tx: Tx,
    pub txid: [u8; 32],
    pub bytes: Bytes,
    pub inputs: Seq<Input>,
}

impl Drop for Transaction {
    fn drop(self) {
        let Transaction {
            which: _,
            tx: _,
            txid: _,
            bytes: _,
            inputs: _,
        } = self;
    }
}

impl Wallet {
    /// An equal one.
    pub fn copy(&self, alloc: Global) -> Result<Wallet, OutOfMemory>
        ensures { IfOk result (λ wallet. wallet ≡ self.now) }
    {
        Ok(Wallet {
            deposit: self.deposit,
            script: self.script.copy(alloc)?,
        })
    }
}

impl Signer {
    /// An equal one.
    pub fn copy(&self, alloc: Global) -> Result<Signer, OutOfMemory>
        ensures { IfOk result (λ signer. signer ≡ self.now) }
    {
        Ok(Signer {
            label: self.label.copy(alloc)?,
            key: self.key,
            verb: self.verb,
        })
    }
}
