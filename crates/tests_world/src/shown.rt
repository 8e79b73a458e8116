//! What a world shows of its run.

use crate::worlds::{SHOWN, left};
use bm_hash::Sha;
use bm_world::World;
use std::alloc::Global;

// Ten events were recorded. Each party has signed for three branches and one deposit; four items were posted by the initial
// transaction, then the secret, and five by the branch.
fn has_told(world: &World<Sha>) -> bool {
    world.trace().len() == 10 && world.book().count() == 8 && world.exchange().posts() == 10
}

// The one contract is compiled.
fn has_contract(world: &World<Sha>) -> bool {
    world.contracts().len() == 1 && world.compiled(0).is_some() && world.compiled(1).is_none()
}

// Two deposits and two contract outputs were made; no blocks have come, and no two messages have one digest.
fn has_outputs(world: &World<Sha>) -> bool {
    world.header().deposits.len() == 2
        && world.ledger().births() == 4
        && world.ledger().tip() == 0
        && !world.trail().has_collided()
}

fn is_shown(alloc: Global) -> bool {
    match left(alloc, SHOWN) {
        Some(world) => has_told(&world) && has_contract(&world) && has_outputs(&world),
        None => false,
    }
}

#[test]
fn a_world_shows_its_run(rt: HostRuntime) {
    assert!(rt; is_shown(rt.alloc()));
}

// The node of an output: the deposits and the output that the branch has spent have none.
const NODES: [(u32, Option<(u32, u32)>); 5] = [
    (0, None),
    (1, None),
    (2, None),
    (3, Some((0, 2))),
    (4, None),
];

fn has_nodes(world: &World<Sha>) -> bool {
    for (output, node) in NODES {
        if world.node(output) != node {
            return false;
        }
    }
    true
}

fn stands(alloc: Global) -> bool {
    match left(alloc, SHOWN) {
        Some(world) => has_nodes(&world),
        None => false,
    }
}

#[test]
fn a_contract_output_stands_at_its_node(rt: HostRuntime) {
    assert!(rt; stands(rt.alloc()));
}
