//! A ledger of half a million outputs, of which a few are spent. A search from the prefix would compare some hundred
//! thousand million places.

use bm_book::Book;
use bm_hash::{Hash32, Sha, Trail, TrailError};
use bm_keys::{deposit_script, pay_to, signature};
use bm_ledger::{Ledger, OutPoint, Tx, TxIn, TxOut, Verdict};
use bm_sighash::{digest, shared};
use bm_tx::txid;
use spec_data::{Bytes, OutOfMemory, Seq};
use std::alloc::Global;
use std::test::Fail;

const KEY: [u8; 33] = [2; 33];

const COUNT: u32 = 500_000;

// A deposit of 1, which the hash of its script locks.
fn deposit(alloc: Global) -> Result<TxOut, OutOfMemory> {
    let program = Sha.hash32(&deposit_script(&KEY));
    Ok(TxOut {
        value: 1,
        script: Bytes::from_slice(alloc, &pay_to(&program))?,
    })
}

fn deposits(alloc: Global, count: u32) -> Result<Seq<TxOut>, OutOfMemory> {
    let first = deposit(alloc)?;
    let mut outputs = Seq::new(alloc);
    for _ in 0..count {
        outputs.push(first.copy(alloc)?)?;
    }
    Ok(outputs)
}

// A transaction that spends the deposit at a place and makes another one.
fn transaction(alloc: Global, place: &OutPoint, witness: Seq<Bytes>) -> Result<Tx, OutOfMemory> {
    let mut inputs = Seq::new(alloc);
    inputs.push(TxIn {
        prev: *place,
        script_sig: Bytes::of(Vec::new(alloc)),
        sequence: 0xffff_ffff,
        witness,
    })?;
    Ok(Tx {
        version: 2,
        inputs,
        outputs: deposits(alloc, 1)?,
        lock: 0,
    })
}

// What the first input of a transaction signs.
fn signed_digest(alloc: Global, trail: &mut Trail<Sha>, tx: &Tx) -> Result<[u8; 32], TrailError> {
    if tx.inputs.is_empty() {
        return Ok([0; 32]);
    }
    let lists = shared(alloc, trail, tx)?;
    digest(alloc, trail, tx, &lists, 0, &deposit_script(&KEY), 1)
}

// The signature that the script of a deposit asks for, and the script.
fn witness(alloc: Global, digest: &[u8; 32]) -> Result<Seq<Bytes>, OutOfMemory> {
    let mut witness = Seq::new(alloc);
    witness.push(Bytes::from_slice(alloc, &signature(&KEY, digest))?)?;
    witness.push(Bytes::from_slice(alloc, &deposit_script(&KEY))?)?;
    Ok(witness)
}

// The same with the signature, once the book has it.
fn signed(
    alloc: Global,
    trail: &mut Trail<Sha>,
    book: &mut Book,
    place: &OutPoint,
) -> Result<Tx, TrailError> {
    let unsigned = transaction(alloc, place, Seq::new(alloc))?;
    let digest = signed_digest(alloc, trail, &unsigned)?;
    book.sign(KEY, digest)?;
    Ok(transaction(alloc, place, witness(alloc, &digest)?)?)
}

fn opened(alloc: Global, trail: &mut Trail<Sha>, outputs: &[TxOut]) -> Result<Ledger, Fail> {
    if outputs.len() > 500_000 {
        return Err(Fail::from("many"));
    }
    let ledger = Ledger::opening(alloc, trail, outputs).ok().ok_or("opened")?;
    Ok(ledger)
}

// Whether a small transaction of a new txid isn't refused, asked and appended.
fn is_accepted(
    alloc: Global,
    ledger: &mut Ledger,
    trail: &mut Trail<Sha>,
    book: &Book,
    tx: &Tx,
) -> Result<bool, TrailError> {
    let id = txid(alloc, trail, tx)?;
    if !ledger.is_new(&id) || ledger.births() > 1_000_000 {
        return Ok(false);
    }
    if tx.inputs.len() > 1 || tx.outputs.len() > 1 {
        return Ok(false);
    }
    if ledger.judge(trail, book, tx)?.is_some() {
        return Ok(false);
    }
    let verdict = ledger.try_append(trail, book, tx)?;
    Ok(matches!(verdict, Verdict::Accepted { .. }))
}

// Whether the deposit of this number can be spent.
fn is_spent(
    alloc: Global,
    ledger: &mut Ledger,
    trail: &mut Trail<Sha>,
    book: &mut Book,
    number: u32,
) -> Result<bool, TrailError> {
    let Some(place) = ledger.place(number) else {
        return Ok(false);
    };
    let tx = signed(alloc, trail, book, &place)?;
    is_accepted(alloc, ledger, trail, book, &tx)
}

// Whether the outputs of the opening have their places in it as numbers.
fn has_numbers(ledger: &Ledger, txid: &[u8; 32]) -> bool {
    for vout in 0..COUNT {
        let place = OutPoint { txid: *txid, vout };
        if ledger.number(&place) != Some(vout) {
            return false;
        }
    }
    true
}

#[test]
fn half_a_million_outputs_take_no_search(rt: HostRuntime) -> Result<(), Fail> {
    let alloc = rt.alloc();
    let mut trail = Trail::new(alloc, Sha);
    let mut book = Book::new(alloc);
    let outputs = deposits(alloc, COUNT)?;
    let mut ledger = opened(alloc, &mut trail, outputs.as_slice())?;
    let first = ledger.place(0).ok_or("place")?;
    assert!(rt; has_numbers(&ledger, &first.txid));
    for number in [0, 250_000, 499_999] {
        let is_spent = is_spent(alloc, &mut ledger, &mut trail, &mut book, number);
        assert!(rt; is_spent == Ok(true), "{number}");
    }
    Ok(())
}
