//! The witness that opens a branch.

ghost use Rattle.std.specs.Prelude.{◌≡◌, ◌<◌, [], ◌∷◌, ◌++◌, OnOk, IfOk, replicate, reverse};
ghost use Rattle.spec_compiler.specs.Witness.{selectors, witness_of};

use spec_data::{Bytes, OutOfMemory};
use std::alloc::Global;

// One item.
fn put_item(alloc: Global, stack: &mut Vec<Bytes>, bytes: &[u8]) -> Result<(), OutOfMemory>
    ensures { OnOk result (stack.new.items ≡ stack.old.items ++ bytes.now ∷ []) }
{
    stack.push(Bytes::from_slice(alloc, bytes)?)?;
    Ok(())
}

// So many empty items.
fn put_empty(alloc: Global, stack: &mut Vec<Bytes>, count: u32) -> Result<(), OutOfMemory>
    ensures { OnOk result (stack.new.items ≡ stack.old.items ++ replicate count []) }
{
    for _ in 0..count {
        put_item(alloc, stack, &[])?;
    }
    Ok(())
}

// The signatures, the last one first.
fn put_signatures(
    alloc: Global,
    stack: &mut Vec<Bytes>,
    signatures: &[[u8; 66]],
) -> Result<(), OutOfMemory>
    ensures { OnOk result (stack.new.items ≡ stack.old.items ++ reverse signatures.now) }
{
    let mut rest = signatures;
    while let Some((signature, others)) = rest.split_last() {
        put_item(alloc, stack, signature)?;
        rest = others;
    }
    Ok(())
}

// The secrets, the last one first.
fn put_secrets(alloc: Global, stack: &mut Vec<Bytes>, secrets: &[Bytes]) -> Result<(), OutOfMemory>
    ensures { OnOk result (stack.new.items ≡ stack.old.items ++ reverse secrets.now) }
{
    let mut rest = secrets;
    while let Some((secret, others)) = rest.split_last() {
        put_item(alloc, stack, secret.as_slice())?;
        rest = others;
    }
    Ok(())
}

// The selectors of a branch, the one that is consumed last first.
#[tactic(auto, using(crate::proofs::Emitted::selectors_last, crate::proofs::Emitted::selectors_none))]
fn put_selectors(
    alloc: Global,
    stack: &mut Vec<Bytes>,
    branch: u32,
    branches: u32,
) -> Result<(), OutOfMemory>
    requires { branch < branches }
    ensures { OnOk result (stack.new.items ≡ stack.old.items ++ reverse (selectors branch branches)) }
{
    if branch + 1 < branches {
        put_item(alloc, stack, &[1])?;
        return put_empty(alloc, stack, branch);
    }
    put_empty(alloc, stack, branch)
}

/// The witness (BIP 141) that opens a branch of a position which has so many. The signatures are handed in by participant,
/// the secrets in the order of the reveals; the script is that of the position. Branches are counted from 0.
pub fn witness(
    alloc: Global,
    signatures: &[[u8; 66]],
    secrets: &[Bytes],
    branch: u32,
    branches: u32,
    script: &[u8],
) -> Result<Vec<Bytes>, OutOfMemory>
    requires { branch < branches }
    ensures { IfOk result (λ stack. stack.items ≡ witness_of signatures.now secrets.now branch branches script.now) }
{
    let mut stack = Vec::new(alloc);
    put_signatures(alloc, &mut stack, signatures)?;
    put_secrets(alloc, &mut stack, secrets)?;
    put_selectors(alloc, &mut stack, branch, branches)?;
    put_item(alloc, &mut stack, script)?;
    Ok(stack)
}
