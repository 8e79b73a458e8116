//! An output that was made.

ghost use Rattle.std.specs.Prelude.{◌≡◌, false, true, Some, None, IfOk};
ghost use Rattle.std.specs.Option.{option_copied};
ghost use Rattle.spec_run.specs.World.{is_deposit, live_position};

use crate::positions::HeldPosition;
use spec_bitcoin::{OutPoint, TxOut};
use spec_data::{Boxed, Bytes, OutOfMemory};
use std::alloc::Global;
use std::marker::Model;

/// An output that was made, spent or not. Contracts see it as the world's `Output`.
pub struct MadeOutput {
    outpoint: OutPoint,
    live: bool,
    value: u64,
    script: Bytes,
    holds: Option<Boxed<HeldPosition>>,
}

impl Model for MadeOutput {
    ghost use Rattle.spec_run.specs.World.{Output};

    ghost Value = { Output };

    ghost view = { λ o. record { outpoint = o.outpoint; value = o.value; script = o.script; live = o.live; holds = o.holds } };
}

impl Drop for MadeOutput {
    fn drop(self) {
        let MadeOutput {
            outpoint: _,
            value: _,
            script: _,
            live: _,
            holds: _,
        } = self;
    }
}

impl MadeOutput {
    /// A live output of the transaction of this txid.
    pub fn new(
        alloc: Global,
        txid: &[u8; 32],
        vout: u32,
        output: &TxOut,
        holds: Option<Boxed<HeldPosition>>,
    ) -> Result<MadeOutput, OutOfMemory>
        ensures { IfOk result (λ o. o ≡ record { outpoint = record { txid = txid.now; vout = vout }; value = output.now.value; script = output.now.script; live = true; holds = holds }) }
    {
        Ok(MadeOutput {
            outpoint: OutPoint { txid: *txid, vout },
            value: output.value,
            script: output.script.copy(alloc)?,
            live: true,
            holds,
        })
    }

    /// Whether it is a live output and no contract's.
    pub fn is_deposit(&self) -> bool
        ensures { result ≡ is_deposit (Some self.now) }
    {
        self.live && self.holds.is_none()
    }

    // What it stands for, where it is or was a contract's.
    fn held(&self) -> Option<&HeldPosition>
        ensures { option_copied result ≡ self.now.holds }
    {
        match &self.holds {
            Some(held) => Some(held.value()),
            None => None,
        }
    }

    /// What it stands for, where it is live and a contract's.
    pub fn live_position(&self) -> Option<&HeldPosition>
        ensures { option_copied result ≡ live_position (Some self.now) }
    {
        if self.live { self.held() } else { None }
    }

    /// Where it lies.
    pub fn outpoint(&self) -> OutPoint
        ensures { result ≡ self.now.outpoint }
    {
        self.outpoint
    }

    /// Its value in satoshi.
    pub fn value(&self) -> u64
        ensures { result ≡ self.now.value }
    {
        self.value
    }

    /// The script that it pays to.
    pub fn script(&self) -> &[u8]
        ensures { result.now ≡ self.now.script }
    {
        self.script.as_slice()
    }

    /// It is spent.
    pub fn spend(&mut self)
        ensures { self.new ≡ record self.old { live = false } }
    {
        self.live = false;
    }
}
