//! What opens a branch.

use bm_branch::{prefix_script, witness};
use bm_syntax::Pred;
use spec_bitcoin::Op;
use spec_data::{Bytes, OutOfMemory};
use std::alloc::Global;

// Whether a witness of one signature ends in a true item, an empty one and the script.
fn chooses_the_second(items: &[Bytes], script: &[u8]) -> bool {
    match items {
        [_, last, first, shown] => {
            last.as_slice() == [1].as_slice()
                && first.as_slice().is_empty()
                && shown.as_slice() == script
        }
        _ => false,
    }
}

// Whether the witness for the second of three branches does.
fn is_second_of_three(alloc: Global, script: &[u8]) -> Result<bool, OutOfMemory> {
    let items = witness(alloc, &[[9; 66]], &[], 1, 3, script)?;
    Ok(chooses_the_second(&items, script))
}

fn pushes(op: &Op, bytes: &[u8]) -> bool {
    match op {
        Op::Push(pushed) => pushed.as_slice() == bytes,
        _ => false,
    }
}

fn is_checksig(op: &Op) -> bool {
    match op {
        Op::Code(code) => *code == 0xac,
        _ => false,
    }
}

// Whether the operations are a push of the key and CHECKSIG.
fn asks_a_signature(ops: &[Op], key: &[u8]) -> bool {
    match ops {
        [first, second] => pushes(first, key) && is_checksig(second),
        _ => false,
    }
}

// Whether those of a branch without secrets are.
fn is_a_signature(alloc: Global) -> Result<bool, OutOfMemory> {
    let key = [0x33; 33];
    let ops = prefix_script(alloc, &[], &Pred::True, &[key], &[])?;
    Ok(asks_a_signature(&ops, &key))
}

#[test]
fn selectors_stand_before_the_script(rt: HostRuntime) {
    assert!(rt; is_second_of_three(rt.alloc(), &[0x51, 0x52]) == Ok(true));
}

#[test]
fn a_branch_without_secrets_asks_a_signature(rt: HostRuntime) {
    assert!(rt; is_a_signature(rt.alloc()) == Ok(true));
}
