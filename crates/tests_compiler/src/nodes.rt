//! The nodes of a compiled contract, counted by hand: 0 is the choice at the root, with the branches 1 and 4; below branch 1 the
//! choice 2 has branch 3.

use crate::contracts::{TIMED, made, path_of};
use bm_compile::Compiled;
use bm_syntax::{Path, PathStep};
use std::alloc::Global;

const FIRST: PathStep = PathStep::Branch(0);

// Whether these are the numbers of the branch at a path and of the choice at a position.
fn is_found_at(whole: &Compiled, path: &Path, branch: Option<u32>, choice: Option<u32>) -> bool {
    whole.arena().find(path) == branch && whole.arena().find_choice(path) == choice
}

// The same, by the steps of the path.
fn is_found(
    alloc: Global,
    whole: &Compiled,
    steps: &[PathStep],
    branch: Option<u32>,
    choice: Option<u32>,
) -> bool {
    match path_of(alloc, steps) {
        Ok(path) => is_found_at(whole, &path, branch, choice),
        Err(_) => false,
    }
}

// Whether the paths lead to the nodes that were counted.
fn are_found(alloc: Global, whole: &Compiled) -> bool {
    is_found(alloc, whole, &[], None, Some(0))
        && is_found(alloc, whole, &[FIRST], Some(1), Some(2))
        && is_found(alloc, whole, &[FIRST, FIRST], Some(3), None)
        && is_found(alloc, whole, &[PathStep::Branch(1)], Some(4), None)
        && is_found(alloc, whole, &[PathStep::Branch(2)], None, None)
}

// Whether the transaction of this node has this lock.
fn is_locked(whole: &Compiled, number: u32, lock: u32) -> bool {
    match whole.transaction(number) {
        Some(made) => made.tx.lock == lock,
        None => false,
    }
}

// Whether each path and each position is listed, and this position has its script.
fn are_listed(whole: &Compiled, position: &Path) -> bool {
    whole.paths().len() == 3 && whole.scripts().len() == 2 && whole.script_at(position).is_some()
}

// Whether it is so, of the position of these steps.
fn are_listed_by(alloc: Global, whole: &Compiled, steps: &[PathStep]) -> bool {
    match path_of(alloc, steps) {
        Ok(position) => are_listed(whole, &position),
        Err(_) => false,
    }
}

// Whether the nodes of the compiled contract are those of its text.
fn are_right(alloc: Global, whole: &Compiled) -> bool {
    whole.arena().len() == 5
        && are_found(alloc, whole)
        && is_locked(whole, 4, 1000)
        && are_listed_by(alloc, whole, &[FIRST])
}

fn is_right(alloc: Global) -> bool {
    match made(alloc, TIMED) {
        Some(made) => are_right(alloc, &made.whole),
        None => false,
    }
}

#[test]
fn paths_lead_to_the_nodes_of_the_text(rt: HostRuntime) {
    assert!(rt; is_right(rt.alloc()));
}
