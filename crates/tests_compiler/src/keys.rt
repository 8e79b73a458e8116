//! Two branches that are alike in all but their paths have one transaction, and keys of their own.

use crate::contracts::made;
use bm_compile::{Compiled, Prepared};
use std::alloc::Global;

const TEXT: &[u8] = b"{A:! 10 @ x | B:! 0 @ y} (A : withdraw B + B : withdraw B)";

// Whether two transactions are one.
fn are_one(first: &Prepared, second: &Prepared) -> bool {
    first.txid == second.txid && first.digests.as_slice() == second.digests.as_slice()
}

// Whether the branches at the root have one transaction.
fn have_one(whole: &Compiled) -> bool {
    match (whole.transaction(1), whole.transaction(2)) {
        (Some(first), Some(second)) => are_one(first, second),
        _ => false,
    }
}

// The bytes of a script from this place on that may be a key.
fn key(script: &[u8], place: usize) -> Option<&[u8]> {
    match script.get(place..) {
        Some(rest) => rest.get(..33),
        None => None,
    }
}

// Whether keys stand at these places and differ.
fn differ(script: &[u8], one: usize, other: usize) -> bool {
    match (key(script, one), key(script, other)) {
        (Some(first), Some(second)) => first != second,
        _ => false,
    }
}

// IF, two pushed keys with CHECKSIGVERIFY and CHECKSIG, ELSE, two more, ENDIF.
fn has_four_keys(script: &[u8]) -> bool {
    let pairs = [(2, 37), (2, 73), (2, 108), (37, 73), (37, 108), (73, 108)];
    for (one, other) in pairs {
        if !differ(script, one, other) {
            return false;
        }
    }
    script.len() == 143
}

// Whether the root's script has four keys.
fn root_has_four_keys(whole: &Compiled) -> bool {
    match whole.script(0) {
        Some(script) => has_four_keys(script.as_slice()),
        None => false,
    }
}

// Whether the branches have one transaction, and keys of their own.
fn is_right(alloc: Global) -> bool {
    match made(alloc, TEXT) {
        Some(made) => root_has_four_keys(&made.whole) && have_one(&made.whole),
        None => false,
    }
}

#[test]
fn equal_branches_have_keys_of_their_own(rt: HostRuntime) {
    assert!(rt; is_right(rt.alloc()));
}
