//! How large the scripts of two contracts are.

use crate::contracts::{REVEALED, TIMED, made};
use bm_compile::Compiled;
use bm_ops::decode_script;
use spec_bitcoin::Op;
use spec_data::Bytes;
use std::alloc::Global;

// How many of these operations count against Bitcoin's limit.
fn counted(ops: &[Op]) -> usize {
    let mut count = 0usize;
    for op in ops {
        if matches!(op, Op::Code(code) if *code > 0x60) {
            count = count.saturating_add(1);
        }
    }
    count
}

// The bytes and the counted operations of a script.
fn size(alloc: Global, script: &Bytes) -> Option<(usize, usize)> {
    match decode_script(alloc, script.as_slice()) {
        Ok(ops) => Some((script.as_slice().len(), counted(&ops))),
        Err(_) => None,
    }
}

// The same of the root's script.
fn root_size(alloc: Global, whole: &Compiled) -> Option<(usize, usize)> {
    size(alloc, whole.script(0)?)
}

// The same, of a contract's text.
fn size_of_text(alloc: Global, text: &[u8]) -> Option<(usize, usize)> {
    match made(alloc, text) {
        Some(made) => root_size(alloc, &made.whole),
        None => None,
    }
}

#[test]
fn scripts_are_as_large_as_calculated(rt: HostRuntime) {
    assert!(rt; size_of_text(rt.alloc(), REVEALED) == Some((83, 11)));
    assert!(rt; size_of_text(rt.alloc(), TIMED) == Some((191, 17)));
}
