//! Scripts of branches and positions.

ghost use Rattle.std.specs.Prelude.{◌≡◌, ◌<◌, ◌≤◌, ◌^◌, [], ◌∷◌, ◌++◌, OnOk, IfOk, length, map, true, replicate};
ghost use Rattle.std.specs.List.{list_all};
ghost use Rattle.bm_syntax.specs.View.{guarded, test};
ghost use Rattle.spec_terms.specs.Core as spec_core;
ghost use Rattle.spec_terms.specs.Cost.{reveals_size};
ghost use Rattle.spec_bitcoin.specs.declared.script.Op.TheVariants.{Code, Push};
ghost use Rattle.spec_bitcoin.specs.Meaning.{is_short_push};
ghost use Rattle.spec_bitcoin.specs.Scripts.{encode};
ghost use Rattle.spec_compiler.specs.Scripts as spec;
ghost use Rattle.bm_branch.specs.Short.{is_short_item};

use crate::codes;
use crate::predicates::{put, put_test};
use bm_ops::encode_script;
use bm_syntax::{Guarded, Name, Pred, core};
use spec_bitcoin::Op;
use spec_data::{Bytes, OutOfMemory};
use std::alloc::Global;

// The push of these bytes.
fn put_bytes(alloc: Global, ops: &mut Vec<Op>, bytes: &[u8]) -> Result<(), OutOfMemory>
    ensures { OnOk result (ops.new.items ≡ ops.old.items ++ Push bytes.now ∷ []) }
{
    put(ops, Op::Push(Bytes::from_slice(alloc, bytes)?))
}

// An opcode so many times.
fn put_copies(ops: &mut Vec<Op>, code: u8, count: usize) -> Result<(), OutOfMemory>
    ensures { OnOk result (ops.new.items ≡ ops.old.items ++ replicate count (Code code)) }
{
    for _ in 0..count {
        put(ops, Op::Code(code))?;
    }
    Ok(())
}

// For each key in order, a signature by it.
fn put_signed(alloc: Global, ops: &mut Vec<Op>, keys: &[[u8; 33]]) -> Result<(), OutOfMemory>
    ensures put { OnOk result (ops.new.items ≡ ops.old.items ++ spec.signed_ops keys.now) }
    ensures short { OnOk result (list_all is_short_item keys.now ≡ true) }
{
    let mut rest = keys;
    while let Some((key, others)) = rest.split_first() {
        put_bytes(alloc, ops, key)?;
        let code = if others.is_empty() {
            codes::CHECKSIG
        } else {
            codes::CHECKSIGVERIFY
        };
        put(ops, Op::Code(code))?;
        rest = others;
    }
    Ok(())
}

// The committed digest of a secret, empty where there is none.
fn digest_of<'a>(hashes: &'a [(Name, [u8; 32])], name: &Name) -> &'a [u8]
    ensures value { result.now ≡ spec.digest_of hashes.now name.now }
    ensures short { length result.now ≤ 32 }
{
    for (known, digest) in hashes {
        if *known == *name {
            return digest;
        }
    }
    &[]
}

// The secret on top has 16 to 520 bytes and this digest; its byte count goes to the other stack.
fn put_reveal(alloc: Global, ops: &mut Vec<Op>, digest: &[u8]) -> Result<(), OutOfMemory>
    ensures { OnOk result (ops.new.items ≡ ops.old.items ++ spec.reveal_ops digest.now) }
{
    put(ops, Op::Code(codes::SIZE))?;
    put(ops, Op::Code(codes::DUP))?;
    put(ops, Op::Code(codes::SIXTEEN))?;
    put_bytes(alloc, ops, &[9, 2])?;
    put(ops, Op::Code(codes::WITHIN))?;
    put(ops, Op::Code(codes::VERIFY))?;
    put(ops, Op::Code(codes::TOALTSTACK))?;
    put(ops, Op::Code(codes::SHA256))?;
    put_bytes(alloc, ops, digest)?;
    put(ops, Op::Code(codes::EQUALVERIFY))
}

// The secrets of these names, in order.
fn put_reveals(
    alloc: Global,
    ops: &mut Vec<Op>,
    names: &[Name],
    hashes: &[(Name, [u8; 32])],
) -> Result<(), OutOfMemory>
    ensures put { OnOk result (ops.new.items ≡ ops.old.items ++ spec.reveals_ops (map (spec.digest_of hashes.now) names.now)) }
    ensures short { OnOk result (list_all is_short_item (map (spec.digest_of hashes.now) names.now) ≡ true) }
{
    for name in names {
        put_reveal(alloc, ops, digest_of(hashes, name))?;
    }
    Ok(())
}

// The secrets of these names, and the predicate of their lengths; nothing where there is no name.
fn put_secrets(
    alloc: Global,
    ops: &mut Vec<Op>,
    names: &[Name],
    hashes: &[(Name, [u8; 32])],
    pred: &Pred,
) -> Result<(), OutOfMemory>
    requires { (reveals_size names.now (test pred.now)).operations < 2 ^ 62 }
    ensures put { let digests = map (spec.digest_of hashes.now) names.now in
        OnOk result (ops.new.items ≡ ops.old.items ++ spec.secrets_ops names.now digests (test pred.now)) }
    ensures short { OnOk result (list_all is_short_item (map (spec.digest_of hashes.now) names.now) ≡ true) }
{
    if names.is_empty() {
        return Ok(());
    }
    put_reveals(alloc, ops, names, hashes)?;
    put_copies(ops, codes::FROMALTSTACK, names.len())?;
    put_test(alloc, ops, names, 0, pred)?;
    put(ops, Op::Code(codes::VERIFY))?;
    put_copies(ops, codes::DROP, names.len())
}

/// The operations of a branch whose core reveals these secrets under this predicate, without secrets the signatures alone.
/// The keys are those of the participants in order; the digests are the committed SHA-256 hashes of the secrets. What a
/// checked contract reveals counts at most 201 operations.
#[tactic(auto, using(crate::proofs::Shortness::short_made))]
pub fn prefix_script(
    alloc: Global,
    reveals: &[Name],
    pred: &Pred,
    keys: &[[u8; 33]],
    hashes: &[(Name, [u8; 32])],
) -> Result<Vec<Op>, OutOfMemory>
    requires { (reveals_size reveals.now (test pred.now)).operations < 2 ^ 62 }
    ensures operations { let demands = spec.demands reveals.now (test pred.now) keys.now hashes.now in
        IfOk result (λ ops. ops.items ≡ spec.branch_ops demands) }
    ensures short { IfOk result (λ ops. list_all is_short_push ops.items ≡ true) }
{
    // two operations for each key, and some sixteen for each secret
    let most = keys
        .len()
        .saturating_mul(2)
        .saturating_add(reveals.len().saturating_mul(16));
    let mut ops = Vec::with_capacity(alloc, most)?;
    put_secrets(alloc, &mut ops, reveals, hashes, pred)?;
    put_signed(alloc, &mut ops, keys)?;
    Ok(ops)
}

/// The operations of a branch, with the keys of the participants in order and the committed digest of each secret.
pub fn branch_script(
    alloc: Global,
    branch: &Guarded,
    keys: &[[u8; 33]],
    hashes: &[(Name, [u8; 32])],
) -> Result<Vec<Op>, OutOfMemory>
    requires { let core = spec_core.core (guarded branch.now) in
        (reveals_size (spec_core.reveals_of core) (spec_core.test_of core)).operations < 2 ^ 62 }
    ensures operations { let core = spec_core.core (guarded branch.now) in
        IfOk result (λ ops. ops.items ≡ spec.branch_ops (spec.demands_of core keys.now hashes.now)) }
    ensures short { IfOk result (λ ops. list_all is_short_push ops.items ≡ true) }
{
    match core(branch) {
        Guarded::PutReveal { reveals, test, .. } => prefix_script(
            alloc, reveals, test, keys, hashes,
        ),
        _ => prefix_script(alloc, &[], &Pred::True, keys, hashes),
    }
}

fn put_byte(bytes: &mut Vec<u8>, byte: u8) -> Result<(), OutOfMemory>
    ensures { OnOk result (bytes.new.items ≡ bytes.old.items ++ byte ∷ []) }
{
    bytes.push(byte)?;
    Ok(())
}

// The bytes of these operations.
fn put_ops(alloc: Global, bytes: &mut Vec<u8>, ops: &[Op]) -> Result<(), OutOfMemory>
    requires { list_all is_short_push ops.now ≡ true }
    ensures { OnOk result (bytes.new.items ≡ bytes.old.items ++ encode ops.now) }
{
    let written = encode_script(alloc, ops)?;
    bytes.extend_from_slice(&written)?;
    Ok(())
}

// One of several lists of operations, chosen by the items on top.
fn put_choice(alloc: Global, bytes: &mut Vec<u8>, branches: &[Vec<Op>]) -> Result<(), OutOfMemory>
    requires { list_all (λ ops. list_all is_short_push ops.items) branches.now ≡ true }
    ensures { OnOk result (bytes.new.items ≡ bytes.old.items ++ encode (spec.choice_ops (map (λ ops. ops.items) branches.now))) }
{
    let Some((ops, others)) = branches.split_first() else {
        return Ok(());
    };
    if others.is_empty() {
        return put_ops(alloc, bytes, ops.as_slice());
    }
    put_byte(bytes, codes::IF)?;
    put_ops(alloc, bytes, ops.as_slice())?;
    put_byte(bytes, codes::ELSE)?;
    put_choice(alloc, bytes, others)?;
    put_byte(bytes, codes::ENDIF)
}

/// The witness script (BIP 141) of a position whose branches have these operations, as `branch_script` gives them.
pub fn output_script(alloc: Global, branches: &[Vec<Op>]) -> Result<Bytes, OutOfMemory>
    requires { list_all (λ ops. list_all is_short_push ops.items) branches.now ≡ true }
    ensures { IfOk result (λ bytes. bytes ≡ encode (spec.choice_ops (map (λ ops. ops.items) branches.now))) }
{
    let mut bytes = Vec::new(alloc);
    put_choice(alloc, &mut bytes, branches)?;
    Ok(Bytes::of(bytes))
}
