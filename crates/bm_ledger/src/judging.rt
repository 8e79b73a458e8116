//! The verdict on a transaction.

ghost use Rattle.std.specs.Prelude.{◌≡◌, ◌<◌, ◌^◌, length, None, IfOk};
ghost use Rattle.std.specs.List.{flat_map};
ghost use Rattle.std.specs.Option.{option_and_then};
ghost use Rattle.spec_data.specs.Lists.{or_else};
ghost use Rattle.bm_hash.specs.Messages.{evidence_of};
ghost use Rattle.bm_hash.specs.Trails.{Hashes};
ghost use Rattle.bm_sighash.specs.Shared.{hashes_of};
ghost use Rattle.spec_bitcoin.specs.Digests as digests;
ghost use Rattle.spec_bitcoin.specs.Live.{at_place};
ghost use Rattle.spec_bitcoin.specs.Verdict.{inputs_refusal, refusal_of, input_strings, transaction_strings};
ghost use Rattle.bm_ledger.specs.Judging.{spending_refusal};

use crate::hashes::{InputHashes, hash_input};
use crate::inputs::refused_input;
use crate::outputs::Live;
use crate::whole::whole_refusal;
use bm_book::Book;
use bm_hash::{Hash32, Trail, TrailError};
use bm_sighash::{ListHashes, shared};
use bm_tx::txid;
use spec_bitcoin::{Refusal, Tx, TxIn};
use spec_data::OutOfMemory;
use std::alloc::Global;

/// A transaction's txid, and why it is refused, if it is.
#[derive(Clone, Copy)]
pub struct Judged {
    pub txid: [u8; 32],
    pub refusal: Option<Refusal>,
}

// The refusal so far, or that of input k.
fn or_refused<H: Hash32>(
    alloc: Global,
    first: Option<Refusal>,
    hasher: &H,
    book: &Book,
    live: &Live,
    k: u32,
    input: &TxIn,
    hashes: &Option<InputHashes>,
) -> Result<Option<Refusal>, OutOfMemory>
    ensures { IfOk result (λ r. r ≡ or_else first
        (option_and_then (λ p. spending_refusal (H.digest_of hasher.now) book.now k input.now hashes.now p.1)
        (at_place live.now input.now.prev))) }
{
    if let Some(refusal) = first {
        return Ok(Some(refusal));
    }
    refused_input(alloc, hasher, book, live, k, input, hashes)
}

// The first refusal, where this is that of the whole transaction. It hashes the strings of each input.
fn judge_inputs<H: Hash32 + Drop>(
    alloc: Global,
    trail: &mut Trail<H>,
    book: &Book,
    live: &Live,
    tx: &Tx,
    lists: &ListHashes,
    whole: Option<Refusal>,
) -> Result<Option<Refusal>, TrailError>
    requires few { length tx.now.inputs < 2 ^ 32 }
    requires lists { lists.now ≡ hashes_of (H.digest_of trail.old.hasher) tx.now }
    requires clear { evidence_of (H.digest_of trail.old.hasher) trail.old.messages ≡ None }
    ensures first { IfOk result (λ r. r
        ≡ or_else whole (inputs_refusal (H.digest_of trail.old.hasher) book.now live.now tx.now 0 tx.now.inputs)) }
    ensures trail { Hashes H.digest_of trail.old trail.new
        (flat_map (input_strings (H.digest_of trail.old.hasher) live.now tx.now) tx.now.inputs) result }
{
    let inputs = tx.inputs.as_slice();
    let mut first = whole;
    for (k, input) in inputs.iter().enumerate() {
        let hashes = hash_input(alloc, trail, tx, lists, live, input)?;
        first = or_refused(
            alloc,
            first,
            trail.hasher(),
            book,
            live,
            k as u32,
            input,
            &hashes,
        )?;
    }
    Ok(first)
}

/// The txid of a transaction, and the first condition of acceptance that it fails. It hashes the strings of the transaction,
/// whatever the answer.
pub(crate) fn examine<H: Hash32 + Drop>(
    alloc: Global,
    trail: &mut Trail<H>,
    book: &Book,
    tip: u32,
    live: &Live,
    tx: &Tx,
) -> Result<Judged, TrailError>
    requires few { length tx.now.inputs < 2 ^ 32 }
    ensures id { IfOk result (λ judged. judged.txid ≡ digests.txid (H.digest_of trail.old.hasher) tx.now) }
    ensures refusal { IfOk result (λ judged. judged.refusal
        ≡ refusal_of (H.digest_of trail.old.hasher) book.now tip live.now tx.now) }
    ensures trail { Hashes H.digest_of trail.old trail.new
        (transaction_strings (H.digest_of trail.old.hasher) live.now tx.now) result }
{
    let id = txid(alloc, trail, tx)?;
    let lists = shared(alloc, trail, tx)?;
    let whole = whole_refusal(alloc, tip, live, tx);
    let refusal = judge_inputs(alloc, trail, book, live, tx, &lists, whole)?;
    Ok(Judged { txid: id, refusal })
}
