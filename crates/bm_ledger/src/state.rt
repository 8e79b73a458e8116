//! The ledger's state, and what it is asked.

ghost use Rattle.std.specs.Prelude.{◌≡◌, ◌+◌, ◌<◌, ◌≤◌, ◌^◌, ◌↔◌, length, None, slice_get, IsTrue, IfOk, OnOk, OnErr};
ghost use Rattle.std.specs.Option.{option_map, option_copied};
ghost use Rattle.spec_data.specs.Lists.{first_reason};
ghost use Rattle.spec_data.specs.Ranges.{last_height};
ghost use Rattle.bm_hash.specs.Trails.{Hashes};
ghost use Rattle.spec_bitcoin.specs.Digests as digests;
ghost use Rattle.spec_bitcoin.specs.Live.{at_place, opening_chain, after_transaction, IsNewTxid};
ghost use Rattle.spec_bitcoin.specs.Verdict as spec;
ghost use Rattle.bm_ledger.specs.Judging.{after_verdict, after_blocks};
ghost use Rattle.bm_ledger.specs.Ordered.{numbered};

use crate::judging::{Judged, examine};
use crate::opening::{first_outputs, opening_txid};
use crate::outputs::{Entry, Live, made_numbers, replace_spent, spent_numbers};
use bm_book::Book;
use bm_hash::{Hash32, Trail, TrailError};
use spec_bitcoin::{OutPoint, Refusal, Tx, TxIn, TxOut, Verdict};
use spec_data::OutOfMemory;
use std::alloc::Global;
use std::marker::Model;

/// The live outputs and the height. An output's birth number says how many outputs were made before it.
pub struct Ledger {
    alloc: Global,
    tip: u32,
    births: u32,
    outputs: Live,
}

impl Model for Ledger {
    ghost use Rattle.std.specs.Prelude.{◌<◌, ◌^◌};
    ghost use Rattle.spec_bitcoin.specs.Live.{Chain};
    ghost use Rattle.bm_ledger.specs.Ordered.{AreInOrder};

    ghost Value = { Chain };

    ghost view = { λ l. record { tip = l.tip; births = l.births; live = l.outputs } };

    ghost invariant = { λ l. AreInOrder 0 l.births l.outputs × (l.births < 2 ^ 32) };
}

impl Drop for Ledger {
    fn drop(self) {
        let Ledger {
            alloc: _,
            tip: _,
            births: _,
            outputs: _,
        } = self;
    }
}

impl Ledger {
    /// The ledger whose only transaction is the opening one, which makes these outputs of nothing.
    /// It hashes the opening transaction, and its hash.
    #[tactic(auto, using(bm_hash::proofs::HashesLemmas::stops_late))]
    pub fn opening<H: Hash32 + Drop>(
        alloc: Global,
        trail: &mut Trail<H>,
        outputs: &[TxOut],
    ) -> Result<Ledger, TrailError>
        requires { length outputs.now < 2 ^ 32 }
        ensures opened { IfOk result (λ ledger. ledger
            ≡ opening_chain (digests.txid (H.digest_of trail.old.hasher) (digests.opening_transaction outputs.now)) outputs.now) }
        ensures trail { Hashes H.digest_of trail.old trail.new
            (digests.txid_strings (H.digest_of trail.old.hasher) (digests.opening_transaction outputs.now)) result }
    {
        let txid = opening_txid(alloc, trail, outputs)?;
        let live = first_outputs(alloc, &txid, outputs)?;
        Ok(Ledger {
            alloc,
            tip: 0,
            births: outputs.len() as u32,
            outputs: live,
        })
    }

    /// The height, in blocks.
    pub fn tip(&self) -> u32
        ensures { result ≡ self.now.tip }
    {
        self.tip
    }

    /// The birth number that the next output will have.
    pub fn births(&self) -> u32
        ensures { result ≡ self.now.births }
    {
        self.births
    }

    // The live output of a birth number, with its place.
    fn entry(&self, number: u32) -> Option<&Entry>
        ensures { option_copied result ≡ numbered self.now.live number }
    {
        self.outputs.find_number(number)
    }

    /// The live output of this birth number.
    pub fn live(&self, number: u32) -> Option<&TxOut>
        ensures { option_copied result ≡ option_map (λ e. e.1.1) (numbered self.now.live number) }
    {
        match self.entry(number) {
            Some(entry) => Some(&entry.1.1),
            None => None,
        }
    }

    /// The place of the live output of this birth number.
    pub fn place(&self, number: u32) -> Option<OutPoint>
        ensures { result ≡ option_map (λ e. e.0) (numbered self.now.live number) }
    {
        match self.entry(number) {
            Some(entry) => Some(entry.0),
            None => None,
        }
    }

    /// The birth number of the live output at a place.
    pub fn number(&self, place: &OutPoint) -> Option<u32>
        ensures { result ≡ option_map (λ p. p.0) (at_place self.now.live place.now) }
    {
        match self.outputs.find(place) {
            Some(entry) => Some(entry.0),
            None => None,
        }
    }

    /// The birth number of the output that an input spends, 0 where it isn't live.
    pub fn spent_number(&self, input: &TxIn) -> u32
        ensures { result ≡ spec.spent_number self.now.live input.now }
    {
        match self.number(&input.prev) {
            Some(number) => number,
            None => 0,
        }
    }

    /// The live output at this index of the list of live outputs in order of birth, with its birth number.
    pub fn live_at(&self, index: usize) -> Option<(u32, &TxOut)>
        ensures { option_map (λ p. (p.0, p.1.now)) result ≡ option_map (λ e. e.1) (slice_get self.now.live index) }
    {
        match self.outputs.get(index) {
            Some(entry) => Some((entry.1.0, &entry.1.1)),
            None => None,
        }
    }

    /// Whether no live output was made by a transaction of this txid. It looks at each of them.
    pub fn is_new(&self, txid: &[u8; 32]) -> bool
        ensures { IsTrue result ↔ IsNewTxid self.now.live txid.now }
    {
        self.outputs.is_new(txid)
    }

    /// So many blocks come; it takes no memory.
    pub fn mine(&mut self, blocks: u32)
        requires { self.old.tip + blocks ≤ last_height }
        ensures { self.new ≡ after_blocks self.old blocks }
    {
        self.tip += blocks;
    }

    /// Why `try_append` would refuse a transaction, if it would. It hashes the strings of the transaction, whatever the answer.
    pub fn judge<H: Hash32 + Drop>(
        &self,
        trail: &mut Trail<H>,
        book: &Book,
        tx: &Tx,
    ) -> Result<Option<Refusal>, TrailError>
        requires few { length tx.now.inputs < 2 ^ 32 }
        ensures refusal { IfOk result (λ r. r ≡ spec.refusal_of (H.digest_of trail.old.hasher) book.now self.now.tip self.now.live tx.now) }
        ensures trail { Hashes H.digest_of trail.old trail.new
            (spec.transaction_strings (H.digest_of trail.old.hasher) self.now.live tx.now) result }
    {
        let judged = self.examine(trail, book, tx)?;
        Ok(judged.refusal)
    }

    /// The txid of a transaction, and why `try_append` would refuse it, if it would. It hashes the strings of the transaction,
    /// whatever the answer.
    pub fn examine<H: Hash32 + Drop>(
        &self,
        trail: &mut Trail<H>,
        book: &Book,
        tx: &Tx,
    ) -> Result<Judged, TrailError>
        requires few { length tx.now.inputs < 2 ^ 32 }
        ensures id { IfOk result (λ j. j.txid ≡ digests.txid (H.digest_of trail.old.hasher) tx.now) }
        ensures refusal { IfOk result (λ j. j.refusal
            ≡ spec.refusal_of (H.digest_of trail.old.hasher) book.now self.now.tip self.now.live tx.now) }
        ensures trail { Hashes H.digest_of trail.old trail.new
            (spec.transaction_strings (H.digest_of trail.old.hasher) self.now.live tx.now) result }
    {
        examine(self.alloc, trail, book, self.tip, &self.outputs, tx)
    }

    /// Puts the new outputs of a transaction that is accepted in place of the spent ones. After an error the ledger is as before.
    pub fn spend(&mut self, txid: &[u8; 32], tx: &Tx) -> Result<(), OutOfMemory>
        requires room { self.old.births + length tx.now.outputs < 2 ^ 32 }
        requires passed { first_reason (spec.whole_row self.old.tip self.old.live tx.now) ≡ None }
        requires new { IsNewTxid self.old.live txid.now }
        ensures ok { OnOk result (self.new ≡ after_transaction self.old txid.now tx.now) }
        ensures err { OnErr result (self.new ≡ self.old) }
    {
        replace_spent(self.alloc, &mut self.outputs, self.births, txid, tx)?;
        self.births += tx.outputs.len() as u32;
        Ok(())
    }

    /// Appends a transaction, unless it is refused. After an error the ledger is as before.
    /// It hashes the strings of the transaction, whatever the verdict.
    #[tactic(auto, using(bm_hash::proofs::HashesLemmas::stops_late))]
    pub fn try_append<H: Hash32 + Drop>(
        &mut self,
        trail: &mut Trail<H>,
        book: &Book,
        tx: &Tx,
    ) -> Result<Verdict, TrailError>
        requires few { length tx.now.inputs < 2 ^ 32 }
        requires room { self.old.births + length tx.now.outputs < 2 ^ 32 }
        requires new { spec.refusal_of (H.digest_of trail.old.hasher) book.now self.old.tip self.old.live tx.now
            ≡ None → IsNewTxid self.old.live (digests.txid (H.digest_of trail.old.hasher) tx.now) }
        ensures verdict { IfOk result (λ v. v ≡ spec.verdict (H.digest_of trail.old.hasher) book.now self.old tx.now) }
        ensures chain { IfOk result (λ v. self.new ≡ after_verdict (H.digest_of trail.old.hasher) self.old tx.now v) }
        ensures same { OnErr result (self.new ≡ self.old) }
        ensures trail { Hashes H.digest_of trail.old trail.new
            (spec.transaction_strings (H.digest_of trail.old.hasher) self.old.live tx.now) result }
    {
        let judged = self.examine(trail, book, tx)?;
        if let Some(refusal) = judged.refusal {
            return Ok(Verdict::Refused(refusal));
        }
        let spent = spent_numbers(self.alloc, &self.outputs, tx.inputs.as_slice())?;
        let made = made_numbers(self.alloc, self.births, tx.outputs.as_slice())?;
        self.spend(&judged.txid, tx)?;
        Ok(Verdict::Accepted { spent, made })
    }
}
