//! The live outputs of a run without contracts, in order of birth.

use crate::worlds::left_alone;
use bm_ledger::Ledger;
use std::alloc::Global;

const RUN: &[u8] =
    b"party A\nhonest A\ndeposit A 100\n--\ngive A #0 -> A 60 A 30\ngive A #1 -> A 50 A 10\n";

// The number and the value of the live output at an index.
fn output_at(ledger: &Ledger, index: usize) -> Option<(u32, u64)> {
    match ledger.live_at(index) {
        Some((number, output)) => Some((number, output.value)),
        None => None,
    }
}

fn are_listed(ledger: &Ledger) -> bool {
    let outputs = [Some((2, 30)), Some((3, 50)), Some((4, 10)), None];
    for (index, required) in outputs.iter().enumerate() {
        if output_at(ledger, index) != *required {
            return false;
        }
    }
    true
}

fn are_left(alloc: Global) -> bool {
    match left_alone(alloc, RUN) {
        Some(world) => are_listed(world.ledger()),
        None => false,
    }
}

#[test]
fn live_outputs_come_in_order_of_birth(rt: HostRuntime) {
    assert!(rt; are_left(rt.alloc()));
}
