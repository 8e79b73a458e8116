//! Copies of the plain data of transactions and runs. That they are equal is proved, and not that there is ever one.

use spec_bitcoin::tx::{copy_items, copy_outputs};
use spec_bitcoin::{Label, Op, OutPoint, Tx, TxIn, TxOut, Verdict};
use spec_calculus::{Move, Owner};
use spec_compiler::Prepared;
use spec_data::{Boxed, Bytes, Name, OutOfMemory, Seq};
use spec_run::{Event, Header, HeldSecret};
use spec_terms::{Path, PathStep, Place};
use std::alloc::Global;
use std::test::Fail;

fn bytes(alloc: Global) -> Result<Bytes, OutOfMemory> {
    Bytes::from_slice(alloc, &[1, 2, 3])
}

fn one<T: Drop>(alloc: Global, item: T) -> Result<Seq<T>, OutOfMemory> {
    let mut list = Seq::new(alloc);
    list.push(item)?;
    Ok(list)
}

fn path(alloc: Global) -> Result<Path, OutOfMemory> {
    Ok(Path::of(Vec::from_slice(alloc, &[PathStep::Part(7)])?))
}

fn input(alloc: Global) -> Result<TxIn, OutOfMemory> {
    Ok(TxIn {
        prev: OutPoint {
            txid: [7; 32],
            vout: 1,
        },
        script_sig: bytes(alloc)?,
        sequence: 0,
        witness: one(alloc, bytes(alloc)?)?,
    })
}

fn output(alloc: Global) -> Result<TxOut, OutOfMemory> {
    Ok(TxOut {
        value: 5,
        script: bytes(alloc)?,
    })
}

fn transaction(alloc: Global) -> Result<Tx, OutOfMemory> {
    Ok(Tx {
        version: 2,
        inputs: one(alloc, input(alloc)?)?,
        outputs: one(alloc, output(alloc)?)?,
        lock: 0,
    })
}

fn secret(alloc: Global, party: Name) -> Result<HeldSecret, OutOfMemory> {
    Ok(HeldSecret {
        party,
        name: party,
        bytes: bytes(alloc)?,
    })
}

fn header(alloc: Global, party: Name) -> Result<Header, OutOfMemory> {
    Ok(Header {
        parties: one(alloc, party)?,
        honest: one(alloc, party)?,
        secrets: one(alloc, secret(alloc, party)?)?,
        deposits: one(alloc, (party, 100))?,
    })
}

fn label(alloc: Global, party: Name) -> Result<Label, OutOfMemory> {
    Ok(Label::Branch {
        contract: 0,
        path: path(alloc)?,
        party,
    })
}

fn signing(alloc: Global, party: Name) -> Result<Event, OutOfMemory> {
    Ok(Event::Sign {
        party,
        label: Boxed::new(alloc, label(alloc, party)?)?,
        digest: [7; 32],
    })
}

fn verdict(alloc: Global) -> Result<Verdict, OutOfMemory> {
    Ok(Verdict::Accepted {
        spent: one(alloc, 0)?,
        made: one(alloc, 1)?,
    })
}

fn prepared(alloc: Global) -> Result<Prepared, OutOfMemory> {
    Ok(Prepared {
        tx: transaction(alloc)?,
        txid: [7; 32],
        digests: one(alloc, [8; 32])?,
    })
}

fn action(alloc: Global, party: Name) -> Result<Move, OutOfMemory> {
    Ok(Move {
        inputs: one(alloc, 0)?,
        outputs: one(alloc, (Owner::Party(party), 5))?,
    })
}

// Whether a part of a contract or of a script is copied. Each row has one value.
fn term_is_copied(alloc: Global, party: Name, row: u32) -> Result<bool, OutOfMemory> {
    match row {
        0 => Ok(path(alloc)?.copy(alloc).is_ok()),
        1 => Ok(Place::Branch(path(alloc)?).copy(alloc).is_ok()),
        2 => Ok(label(alloc, party)?.copy(alloc).is_ok()),
        _ => Ok(Op::Push(bytes(alloc)?).copy(alloc).is_ok()),
    }
}

// The same of a transaction and its parts.
fn transaction_is_copied(alloc: Global, row: u32) -> Result<bool, OutOfMemory> {
    match row {
        0 => Ok(copy_items(alloc, &[bytes(alloc)?]).is_ok()),
        1 => Ok(input(alloc)?.copy(alloc).is_ok()),
        2 => Ok(copy_outputs(alloc, &[output(alloc)?]).is_ok()),
        3 => Ok(transaction(alloc)?.copy(alloc).is_ok()),
        _ => Ok(prepared(alloc)?.copy(alloc).is_ok()),
    }
}

// The same of what stands in a run.
fn line_is_copied(alloc: Global, party: Name, row: u32) -> Result<bool, OutOfMemory> {
    match row {
        0 => Ok(verdict(alloc)?.copy(alloc).is_ok()),
        1 => Ok(secret(alloc, party)?.copy(alloc).is_ok()),
        2 => Ok(header(alloc, party)?.copy(alloc).is_ok()),
        3 => Ok(signing(alloc, party)?.copy(alloc).is_ok()),
        _ => Ok(action(alloc, party)?.copy(alloc).is_ok()),
    }
}

#[test]
fn plain_data_is_copied(rt: HostRuntime) -> Result<(), Fail> {
    let alloc = rt.alloc();
    let party = Name::new(b"A").ok_or("no name")?;
    for row in 0..5 {
        assert!(rt; term_is_copied(alloc, party, row)?, "term {row}");
        assert!(rt; transaction_is_copied(alloc, row)?, "transaction {row}");
        assert!(rt; line_is_copied(alloc, party, row)?, "line {row}");
    }
    Ok(())
}
