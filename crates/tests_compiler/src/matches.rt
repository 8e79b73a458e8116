//! What transactions are to a compiled contract.

ghost use Rattle.std.specs.Prelude.{◌<◌, ◌^◌, length};

use crate::contracts::{TIMED, made, path_of};
use bm_compile::Compiled;
use bm_match::{Active, Match, find, find_among, first_initial, is_initial};
use bm_syntax::Path;
use spec_bitcoin::Tx;
use std::alloc::Global;

// The contract's second branch, taken at output 5. A witness without a selector chooses the last branch.
fn second(contract: u32) -> Match {
    Match::Branch {
        contract,
        output: 5,
        branch: 1,
    }
}

// Whether a transaction is the second branch where output 5 stands at the root, and a move where nothing stands there.
fn is_second(whole: &Compiled, root: &Path, tx: &Tx) -> bool {
    find(7, whole, Some((5, root)), tx) == second(7) && find(7, whole, None, tx) == Match::Move
}

// Whether the initial transaction alone is seen as that, and the transaction of node 4 as the second branch.
fn is_told(alloc: Global, whole: &Compiled) -> bool {
    match (path_of(alloc, &[]), whole.transaction(4)) {
        (Ok(root), Some(late)) => {
            is_initial(whole, &whole.init().tx)
                && !is_initial(whole, &late.tx)
                && is_second(whole, &root, &late.tx)
        }
        _ => false,
    }
}

// Whether a transaction is the initial one of the second contract.
fn begins(all: &[Option<Compiled>], tx: &Tx) -> bool
    requires { length all.now < 2 ^ 32 }
{
    first_initial(all, tx) == Some(1) && find_among(all, None, tx) == Match::Init(1)
}

// Whether it is the second contract's second branch where output 5 stands at its root.
fn goes_on(all: &[Option<Compiled>], tx: &Tx) -> bool
    requires { length all.now < 2 ^ 32 }
{
    let active = Active {
        contract: 1,
        output: 5,
        node: 0,
    };
    first_initial(all, tx).is_none() && find_among(all, Some(active), tx) == second(1)
}

// Whether the transaction of its node 4 is.
fn goes_on_late(all: &[Option<Compiled>], whole: &Compiled) -> bool
    requires { length all.now < 2 ^ 32 }
{
    match whole.transaction(4) {
        Some(late) => goes_on(all, &late.tx),
        None => false,
    }
}

// Whether the transactions of the second contract are found among all.
fn are_found(all: &[Option<Compiled>]) -> bool
    requires { length all.now < 2 ^ 32 }
{
    match all {
        [_, Some(whole)] => begins(all, &whole.init().tx) && goes_on_late(all, whole),
        _ => false,
    }
}

// Whether the transactions are found where the first contract isn't compiled.
fn are_found_second(whole: Compiled) -> bool {
    are_found(&[None, Some(whole)])
}

// Whether the transactions of the contract are found, alone and among all.
fn is_right(alloc: Global) -> bool {
    match made(alloc, TIMED) {
        Some(made) => is_told(alloc, &made.whole) && are_found_second(made.whole),
        None => false,
    }
}

#[test]
fn transactions_of_a_contract_are_found(rt: HostRuntime) {
    assert!(rt; is_right(rt.alloc()));
}
