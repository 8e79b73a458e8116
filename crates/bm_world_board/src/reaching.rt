//! Transactions that reach the ledger.

ghost use Rattle.std.specs.Prelude.{◌≡◌, ◌<◌, ◌+◌, ◌^◌, ◌++◌, ℕ, List, length, map, take, None, IfOk, IfErr, OnOk};
ghost use Rattle.std.specs.List.{flat_map};
ghost use Rattle.bm_hash.specs.Messages.{evidence_of};
ghost use Rattle.bm_hash.specs.Trails.{Hashes, StopsAlong};
ghost use Rattle.spec_bitcoin.specs.Verdict as spec;
ghost use Rattle.spec_run.specs.Ledger as run;
ghost use Rattle.spec_run.specs.declared.outcome.Outcome.TheVariants as outcomes;
ghost use Rattle.bm_world_board.specs.Prepares.{setup_of, world_of, Prepares};
ghost use Rattle.bm_world_board.specs.Reaching.{IsAcceptedPending, IsReadyIf, IsPurpose, IsFresh, reaches_in};

use crate::board::Board;
use crate::pending_change::{Appending, Change, PendingChange, Purpose};
use bm_hash::{Hash32, Trail, TrailError, hash_all};
use bm_ledger::Ledger;
use spec_bitcoin::{Tx, TxIn, TxOut};
use spec_data::{Boxed, Bytes, OutOfMemory, Seq};
use spec_run::{Outcome, Reason};
use std::alloc::Global;

/// The birth numbers of the outputs that are spent, in the order of the inputs.
pub fn spent_numbers(
    alloc: Global,
    ledger: &Ledger,
    inputs: &[TxIn],
) -> Result<Seq<u32>, OutOfMemory>
    ensures { IfOk result (λ numbers. numbers ≡ map (spec.spent_number ledger.now.live) inputs.now) }
{
    let mut numbers = Seq::new(alloc);
    for input in inputs {
        numbers.push(ledger.spent_number(input))?;
    }
    Ok(numbers)
}

// The numbers of new outputs, of which this is the first one's, each with its value.
fn made_numbers(
    alloc: Global,
    births: u32,
    outputs: &[TxOut],
) -> Result<Seq<(u32, u64)>, OutOfMemory>
    requires { births + length outputs.now < 2 ^ 32 }
    ensures { IfOk result (λ made. made ≡ run.made_with_values births outputs.now) }
{
    let mut made = Seq::new(alloc);
    let mut next = births;
    for output in outputs {
        made.push((next, output.value))?;
        next += 1;
    }
    Ok(made)
}

fn put_items(alloc: Global, items: &mut Seq<Bytes>, witness: &[Bytes]) -> Result<(), OutOfMemory>
    ensures { OnOk result (items.new ≡ items.old ++ witness.now) }
{
    for item in witness {
        items.push(item.copy(alloc)?)?;
    }
    Ok(())
}

// Every item of every witness, input by input.
fn items_of(alloc: Global, inputs: &[TxIn]) -> Result<Seq<Bytes>, OutOfMemory>
    ensures { IfOk result (λ items. items ≡ flat_map (λ i. i.witness) inputs.now) }
{
    let mut items = Seq::new(alloc);
    for input in inputs {
        put_items(alloc, &mut items, input.witness.as_slice())?;
    }
    Ok(items)
}

// The outcome of a transaction that spends and makes these.
fn accepted(
    alloc: Global,
    spent: &Seq<u32>,
    made: Seq<(u32, u64)>,
    lock: u32,
) -> Result<Outcome, OutOfMemory>
    ensures { IfOk result (λ outcome. outcome ≡ outcomes.Accepted spent.now made lock) }
{
    Ok(Outcome::Accepted {
        spent: Boxed::new(alloc, spent.copy(alloc)?)?,
        made: Boxed::new(alloc, made)?,
        lock,
    })
}

// The pending effect of a transaction that the ledger accepts, whose strings are hashed.
fn pending_accepted(
    alloc: Global,
    board: &Board,
    tx: Tx,
    txid: [u8; 32],
    purpose: Purpose,
    posts: Seq<Bytes>,
) -> Result<PendingChange, OutOfMemory>
    requires room { length board.now.coins.outputs + length tx.outputs < 2 ^ 32 }
    requires posts { posts ≡ run.items_of tx }
    ensures pending { IfOk result (λ d. (hash : List ℕ → List ℕ) (messages : List (List ℕ)) → IsAcceptedPending hash (setup_of hash board.now) (world_of board.now messages) tx txid purpose d) }
    ensures ready { IfOk result (λ d. (hash : List ℕ → List ℕ) (messages : List (List ℕ)) → IsReadyIf hash (world_of board.now messages) tx txid d.change) }
{
    let spent = spent_numbers(alloc, board.coins.ledger(), tx.inputs.as_slice())?;
    let made = made_numbers(alloc, board.coins.ledger().births(), tx.outputs.as_slice())?;
    let outcome = accepted(alloc, &spent, made, tx.lock)?;
    let appending = Appending {
        tx: Boxed::new(alloc, tx)?,
        txid,
        spent,
        purpose,
    };
    Ok(PendingChange {
        outcome,
        posts,
        allowed: None,
        change: Change::Append(Boxed::new(alloc, appending)?),
    })
}

// The pending effect of a transaction that the ledger accepts; its items are hashed.
#[tactic(auto, using(bm_hash::proofs::HashesLemmas::stops_early, bm_hash::proofs::HashesLemmas::stops_late))]
fn accept<H: Hash32 + Drop>(
    alloc: Global,
    trail: &mut Trail<H>,
    board: &Board,
    tx: Tx,
    txid: [u8; 32],
    purpose: Purpose,
) -> Result<PendingChange, TrailError>
    requires clear { evidence_of (H.digest_of trail.old.hasher) trail.old.messages ≡ None }
    requires room { length board.now.coins.outputs + length tx.outputs < 2 ^ 32 }
    ensures pending { IfOk result (λ d. (hash : List ℕ → List ℕ) (messages : List (List ℕ)) → IsAcceptedPending hash (setup_of hash board.now) (world_of board.now messages) tx txid purpose d) }
    ensures ready { IfOk result (λ d. (hash : List ℕ → List ℕ) (messages : List (List ℕ)) → IsReadyIf hash (world_of board.now messages) tx txid d.change) }
    ensures trail { Hashes H.digest_of trail.old trail.new (run.items_of tx) result }
{
    let posts = items_of(alloc, tx.inputs.as_slice())?;
    hash_all(trail, posts.as_slice())?;
    let pending_change = pending_accepted(alloc, board, tx, txid, purpose, posts)?;
    Ok(pending_change)
}

/// The pending effect of a transaction that reaches the ledger, where this is what it is to the contracts.
pub fn reach<H: Hash32 + Drop>(
    alloc: Global,
    trail: &mut Trail<H>,
    board: &Board,
    tx: Tx,
    purpose: Purpose,
) -> Result<PendingChange, TrailError>
    requires few { length tx.inputs < 2 ^ 32 }
    requires room { length board.now.coins.outputs + length tx.outputs < 2 ^ 32 }
    requires clear { evidence_of (H.digest_of trail.old.hasher) trail.old.messages ≡ None }
    requires fresh { IsFresh (setup_of (H.digest_of trail.old.hasher) board.now) (world_of board.now trail.old.messages) tx }
    requires purpose { IsPurpose (setup_of (H.digest_of trail.old.hasher) board.now) (world_of board.now trail.old.messages) tx purpose }
    ensures hasher { trail.new.hasher ≡ trail.old.hasher }
    ensures ok { IfOk result (Prepares (H.digest_of trail.old.hasher) (world_of board.now trail.old.messages) trail.old.messages trail.new.messages (reaches_in (setup_of (H.digest_of trail.old.hasher) board.now) (world_of board.now trail.old.messages) tx)) }
    ensures err { IfErr result (StopsAlong H.digest_of trail.old trail.new ((reaches_in (setup_of (H.digest_of trail.old.hasher) board.now) (world_of board.now trail.old.messages) tx).hashes)) }
{
    let judged = board.coins.examine(trail, &board.book, &tx)?;
    if let Some(refusal) = judged.refusal {
        return Ok(PendingChange::refused(alloc, Reason::Ledger(refusal)));
    }
    let pending_change = accept(alloc, trail, board, tx, judged.txid, purpose)?;
    Ok(pending_change)
}
