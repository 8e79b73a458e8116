//! A checked contract as numbered nodes, counted by hand.

use crate::terms::checked;
use bm_arena::{Arena, Core, Node, Path, PathStep};
use bm_wellformed::Checked;
use std::alloc::{AllocError, Global};
use std::test::Fail;
use theory_nodes::few_nodes;

// Node 0 is the choice at the root, with the branches 1 and 4; below branch 1 the choice 2 has branch 3.
const TEXT: &[u8] =
    b"{A:! 1 @ x | A: secret a} (reveal a . withdraw A + after 1000 : A : A : withdraw A)";

fn nodes(alloc: Global, contract: &Checked) -> Result<Arena, AllocError> {
    // There are few enough for numbers of 32 bits.
    few_nodes();
    Arena::of(alloc, &contract.advert().root)
}

fn path(alloc: Global, branches: &[u32]) -> Result<Path, Fail> {
    let mut steps = Vec::new(alloc);
    for i in branches {
        steps.push(PathStep::Branch(*i))?;
    }
    Ok(Path::of(steps))
}

#[test]
fn nodes_follow_the_text(rt: HostRuntime) -> Result<(), Fail> {
    let alloc = rt.alloc();
    let contract = checked(alloc, TEXT).ok_or("refused")?;
    let arena = nodes(alloc, &contract)?;
    assert_eq!(rt; arena.len(), 5);
    let found = [
        arena.find(&path(alloc, &[0])?),
        arena.find(&path(alloc, &[0, 0])?),
        arena.find(&path(alloc, &[1])?),
    ];
    assert!(rt; found == [Some(1), Some(3), Some(4)]);
    let last = arena.node(4).ok_or("no node")?;
    assert!(rt;
        matches!(
            last,
            Node::Branch {
                lock: 1000,
                core: Core::Withdraw { .. },
                ..
            }
        )
    );
    Ok(())
}
