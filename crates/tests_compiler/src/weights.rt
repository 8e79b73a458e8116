//! The weights of two contracts' transactions, and of the way to each path.

use crate::contracts::{Example, REVEALED, made};
use bm_plan::{Weight, weigh};
use std::alloc::Global;

// Whether these are the least and the greatest of the weight and of the total.
fn is_weight(found: &(Weight, Weight), required: &[u64; 4]) -> bool {
    let (own, total) = found;
    [own.least, own.most, total.least, total.most] == *required
}

// Whether each entry is as expected.
fn are_weights(found: &[(Weight, Weight)], required: &[[u64; 4]]) -> bool {
    for (entry, weights) in found.iter().zip(required) {
        if !is_weight(entry, weights) {
            return false;
        }
    }
    found.len() == required.len()
}

// Whether the transactions of a contract weigh as expected.
fn weigh_as(alloc: Global, made: &Example, required: &[[u64; 4]]) -> bool {
    match weigh(alloc, &made.checked, &made.whole) {
        Ok(found) => are_weights(&found, required),
        Err(_) => false,
    }
}

// The same, of the contract's text.
fn weighs(alloc: Global, text: &[u8], required: &[[u64; 4]]) -> bool {
    match made(alloc, text) {
        Some(made) => weigh_as(alloc, &made, required),
        None => false,
    }
}

#[test]
fn transactions_weigh_as_calculated(rt: HostRuntime) {
    let plain = [[482, 482, 482, 482], [482, 482, 964, 964]];
    assert!(rt; weighs(rt.alloc(), b"{A:! 10 @ x} withdraw A", &plain));
    let revealed = [
        [482, 482, 482, 482],
        [547, 1053, 1029, 1535],
        [482, 482, 1511, 2017],
    ];
    assert!(rt; weighs(rt.alloc(), REVEALED, &revealed));
}
