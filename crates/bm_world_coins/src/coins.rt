//! The ledger, and all outputs that were made by their birth number.

ghost use Rattle.std.specs.Prelude.{◌≡◌, ℕ, List, ◌∷◌, [], ◌++◌, ◌+◌, ◌<◌, ◌≤◌, ◌^◌, length, map, true, None, slice_get, IfOk, OnOk, OnErr};
ghost use Rattle.std.specs.Option.{option_copied};
ghost use Rattle.spec_data.specs.Lists.{first_reason};
ghost use Rattle.spec_data.specs.Ranges.{last_height};
ghost use Rattle.bm_hash.specs.Trails.{Hashes};
ghost use Rattle.spec_bitcoin.specs.Digests as digests;
ghost use Rattle.spec_bitcoin.specs.declared.tx.TxOut.{TxOut as Out};
ghost use Rattle.spec_bitcoin.specs.Live.{born, IsNewTxid};
ghost use Rattle.spec_bitcoin.specs.Verdict as spec;
ghost use Rattle.spec_run.specs.World.{live_position};
ghost use Rattle.spec_run.specs.Event.{holds_nothing};
ghost use Rattle.spec_run.specs.Ledger.{live_from, spend_from, made_from};
ghost use Rattle.bm_world_coins.specs.Coined.{chain, spend_one, position_by};

use crate::made::MadeOutput;
use crate::positions::{HeldPosition, NewPositions};
use bm_book::Book;
use bm_hash::{Hash32, Trail, TrailError};
use bm_ledger::{Judged, Ledger};
use spec_bitcoin::{Tx, TxOut};
use spec_data::OutOfMemory;
use std::alloc::Global;
use std::marker::Model;

/// The ledger, and all outputs that were made, spent ones too, each at its birth number.
pub struct Coins {
    alloc: Global,
    ledger: Ledger,
    outputs: Vec<MadeOutput>,
}

impl Model for Coins {
    ghost use Rattle.std.specs.Prelude.{◌≡◌};
    ghost use Rattle.bm_world_coins.specs.Coined.{Coined, chain};

    ghost Value = { Coined };

    ghost view = { λ c. record { tip = c.ledger.tip; outputs = c.outputs.items } };

    ghost invariant = { λ c. c.ledger ≡ chain (record { tip = c.ledger.tip; outputs = c.outputs.items }) };
}

impl Drop for Coins {
    fn drop(self) {
        let Coins {
            alloc: _,
            ledger: _,
            outputs: _,
        } = self;
    }
}

// The txid of the transaction that made a ledger's first output; any bytes where there is none.
fn first_txid(ledger: &Ledger) -> [u8; 32]
    ensures { (id : List ℕ) (outputs : List Out) → ledger.now.live ≡ born 0 id 0 outputs → made_from holds_nothing result 0 outputs ≡ made_from holds_nothing id 0 outputs }
{
    match ledger.place(0) {
        Some(place) => place.txid,
        None => [0; 32],
    }
}

impl Coins {
    /// The coins of a run's opening: the opening transaction makes these outputs of nothing. It hashes that transaction, and its hash.
    #[tactic(auto, using(bm_hash::proofs::HashesLemmas::stops_late))]
    pub fn opening<H: Hash32 + Drop>(
        alloc: Global,
        trail: &mut Trail<H>,
        outputs: &[TxOut],
    ) -> Result<Coins, TrailError>
        requires { length outputs.now < 2 ^ 32 }
        ensures opened { IfOk result (λ c. c ≡ record { tip = 0; outputs = made_from holds_nothing (digests.txid (H.digest_of trail.old.hasher) (digests.opening_transaction outputs.now)) 0 outputs.now }) }
        ensures trail { Hashes H.digest_of trail.old trail.new (digests.txid_strings (H.digest_of trail.old.hasher) (digests.opening_transaction outputs.now)) result }
    {
        let ledger = Ledger::opening(alloc, trail, outputs)?;
        let txid = first_txid(&ledger);
        let made = first_outputs(alloc, &txid, outputs)?;
        Ok(Coins {
            alloc,
            ledger,
            outputs: made,
        })
    }

    /// The height, in blocks.
    pub fn tip(&self) -> u32
        ensures { result ≡ self.now.tip }
    {
        self.ledger.tip()
    }

    /// The ledger.
    pub fn ledger(&self) -> &Ledger
        ensures { result.now ≡ chain self.now }
    {
        &self.ledger
    }

    /// The output of a birth number, spent or not.
    pub fn output(&self, number: u32) -> Option<&MadeOutput>
        ensures { option_copied result ≡ slice_get self.now.outputs number }
    {
        self.outputs.get(number as usize)
    }

    /// What the output of this number stands for, if it is live and a contract's.
    pub fn held_at(&self, number: u32) -> Option<&HeldPosition>
        ensures { option_copied result ≡ live_position (slice_get self.now.outputs number) }
    {
        match self.output(number) {
            Some(output) => output.live_position(),
            None => None,
        }
    }

    /// So many blocks come; it takes no memory.
    pub fn mine(&mut self, blocks: u32)
        requires { self.old.tip + blocks ≤ last_height }
        ensures { self.new ≡ record self.old { tip = self.old.tip + blocks } }
    {
        self.ledger.mine(blocks);
    }

    /// The txid of a transaction, and why it would be refused, if it would. It hashes the strings of the transaction, whatever the answer.
    pub fn examine<H: Hash32 + Drop>(
        &self,
        trail: &mut Trail<H>,
        book: &Book,
        tx: &Tx,
    ) -> Result<Judged, TrailError>
        requires few { length tx.now.inputs < 2 ^ 32 }
        ensures id { IfOk result (λ j. j.txid ≡ digests.txid (H.digest_of trail.old.hasher) tx.now) }
        ensures refusal { IfOk result (λ j. j.refusal ≡ spec.refusal_of (H.digest_of trail.old.hasher) book.now self.now.tip (live_from 0 self.now.outputs) tx.now) }
        ensures trail { Hashes H.digest_of trail.old trail.new (spec.transaction_strings (H.digest_of trail.old.hasher) (live_from 0 self.now.outputs) tx.now) result }
    {
        self.ledger.examine(trail, book, tx)
    }

    /// Appends a transaction that is accepted and spends the outputs of these numbers; its own stand for what is said. After an error nothing has changed.
    pub fn append(
        &mut self,
        txid: &[u8; 32],
        tx: &Tx,
        spent: &[u32],
        positions: &NewPositions,
    ) -> Result<(), OutOfMemory>
        requires room { length self.old.outputs + length tx.now.outputs < 2 ^ 32 }
        requires passed { first_reason (spec.whole_row self.old.tip (live_from 0 self.old.outputs) tx.now) ≡ None }
        requires new { IsNewTxid (live_from 0 self.old.outputs) txid.now }
        requires numbers { spent.now ≡ map (spec.spent_number (live_from 0 self.old.outputs)) tx.now.inputs }
        ensures ok { OnOk result (self.new ≡ record self.old { outputs = spend_from 0 spent.now self.old.outputs ++ made_from (position_by positions.now) txid.now 0 tx.now.outputs }) }
        ensures err { OnErr result (self.new ≡ self.old) }
    {
        let count = self.outputs.len();
        add_outputs(
            self.alloc,
            &mut self.outputs,
            txid,
            tx.outputs.as_slice(),
            positions,
        )?;
        if let Err(error) = self.ledger.spend(txid, tx) {
            self.outputs.truncate(count);
            return Err(error);
        }
        spend_outputs(&mut self.outputs, spent);
        Ok(())
    }
}

// The outputs of the opening transaction.
fn first_outputs(
    alloc: Global,
    txid: &[u8; 32],
    outputs: &[TxOut],
) -> Result<Vec<MadeOutput>, OutOfMemory>
    requires few { length outputs.now < 2 ^ 32 }
    ensures { IfOk result (λ made. made.items ≡ made_from holds_nothing txid.now 0 outputs.now) }
{
    let mut made = Vec::new(alloc);
    add_outputs(alloc, &mut made, txid, outputs, &NewPositions::Deposits)?;
    Ok(made)
}

// Adds the outputs of a transaction at the end. Where memory is refused for one of them, those before it are cut off again.
fn add_outputs(
    alloc: Global,
    outputs: &mut Vec<MadeOutput>,
    txid: &[u8; 32],
    new: &[TxOut],
    positions: &NewPositions,
) -> Result<(), OutOfMemory>
    requires few { length new.now < 2 ^ 32 }
    ensures ok { OnOk result (outputs.new.items ≡ outputs.old.items ++ made_from (position_by positions.now) txid.now 0 new.now) }
    ensures err { OnErr result (outputs.new.items ≡ outputs.old.items) }
{
    let count = outputs.len();
    for (k, output) in new.iter().enumerate() {
        if let Err(error) = add_output(alloc, outputs, txid, k as u32, output, positions) {
            outputs.truncate(count);
            return Err(error);
        }
    }
    Ok(())
}

fn add_output(
    alloc: Global,
    outputs: &mut Vec<MadeOutput>,
    txid: &[u8; 32],
    vout: u32,
    output: &TxOut,
    positions: &NewPositions,
) -> Result<(), OutOfMemory>
    ensures ok { OnOk result (outputs.new.items ≡ outputs.old.items ++ record { outpoint = record { txid = txid.now; vout = vout }; value = output.now.value; script = output.now.script; live = true; holds = position_by positions.now vout } ∷ []) }
    ensures err { OnErr result (outputs.new.items ≡ outputs.old.items) }
{
    let holds = positions.of_output(alloc, vout)?;
    let made = MadeOutput::new(alloc, txid, vout, output, holds)?;
    outputs.push(made)?;
    Ok(())
}

// The output of this number is spent, where there is one.
fn spend_output(outputs: &mut Vec<MadeOutput>, number: u32)
    ensures { outputs.new.items ≡ spend_one number outputs.old.items }
{
    let place = number as usize;
    if place < outputs.len() {
        outputs[place].spend();
    }
}

// The outputs of these numbers are spent; it takes no memory.
fn spend_outputs(outputs: &mut Vec<MadeOutput>, spent: &[u32])
    ensures { outputs.new.items ≡ spend_from 0 spent.now outputs.old.items }
{
    for number in spent {
        spend_output(outputs, *number);
    }
}
