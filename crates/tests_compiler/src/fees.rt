//! Each transaction leaves the fee to the miner.

use crate::contracts::{made, path_of};
use bm_compile::{Compiled, Prepared};
use bm_syntax::{Path, PathStep};
use spec_bitcoin::TxOut;
use std::alloc::Global;

const TEXT: &[u8] = b"{A:! 10 @ x} fee 1 split [5 -> withdraw A, 3 -> withdraw A]";

const FIRST: PathStep = PathStep::Branch(0);

// Whether the outputs pay these values, in satoshi.
fn are_paid(outputs: &[TxOut], values: &[u64]) -> bool {
    for (output, value) in outputs.iter().zip(values) {
        if output.value != *value {
            return false;
        }
    }
    outputs.len() == values.len()
}

// Whether a transaction pays them.
fn pays(made: &Prepared, values: &[u64]) -> bool {
    are_paid(made.tx.outputs.as_slice(), values)
}

// Whether the transaction of the branch at this path does.
fn pays_at(whole: &Compiled, path: &Path, values: &[u64]) -> bool {
    match whole.transaction_at(path) {
        Some(made) => pays(made, values),
        None => false,
    }
}

// The same, by the steps of the path.
fn pays_by(alloc: Global, whole: &Compiled, steps: &[PathStep], values: &[u64]) -> bool {
    match path_of(alloc, steps) {
        Ok(path) => pays_at(whole, &path, values),
        Err(_) => false,
    }
}

// Whether each transaction leaves one satoshi of what it spends.
fn leave_one(alloc: Global, whole: &Compiled) -> bool {
    pays(whole.init(), &[9])
        && pays_by(alloc, whole, &[FIRST], &[5, 3])
        && pays_by(alloc, whole, &[FIRST, PathStep::Part(0), FIRST], &[4])
        && pays_by(alloc, whole, &[FIRST, PathStep::Part(1), FIRST], &[2])
}

fn is_right(alloc: Global) -> bool {
    match made(alloc, TEXT) {
        Some(made) => leave_one(alloc, &made.whole),
        None => false,
    }
}

#[test]
fn each_transaction_leaves_the_fee(rt: HostRuntime) {
    assert!(rt; is_right(rt.alloc()));
}
