//! What `missing` and `held` print.

ghost use Rattle.std.specs.Prelude.{◌≡◌, ◌++◌, ℕ, List, map, flat_map, IfOk, OnOk};
ghost use Rattle.spec_compiler.specs.Keyed.Instance.{Instance};
ghost use Rattle.spec_compiler.specs.Keyed.Keys.{Keys};
ghost use Rattle.spec_deal.specs.DealText as texts;
ghost use Rattle.spec_deal.specs.Transactions.{transactions as transactions_of};
ghost use Rattle.deal_missing.specs.Required as spec;

use crate::lines::{put_gate, put_held, put_missing, put_unverified};
use crate::looking::{
    any_unverified, first_without, is_there, is_wallets, signature_of, witness_of,
};
use crate::requirements::{Wanted, all_requirements};
use crate::witness_lines::put_witness;
use deal_signatures::Given;
use spec_data::OutOfMemory;
use spec_deal::{Transaction, Wallet};
use std::alloc::Global;

// ---- lines

// The line of one that is there, if it is an endorsement by a wallet.
fn put_if_wallets(alloc: Global, out: &mut Vec<u8>, requirement: &Wanted) -> Result<(), OutOfMemory>
    ensures { let w = spec.wanted_in requirement.now in
        OnOk result (out.new.items ≡ out.old.items ++ spec.line_if_unverified w (spec.is_wallets w)) }
{
    if !is_wallets(requirement) {
        return Ok(());
    }
    put_unverified(alloc, out, requirement)
}

// The line of one that isn't there, or isn't verified.
fn put_if_unsettled(
    alloc: Global,
    out: &mut Vec<u8>,
    given: &Given,
    requirement: &Wanted,
) -> Result<(), OutOfMemory>
    ensures { OnOk result (out.new.items ≡ out.old.items ++ spec.told_if_unsettled given.now (spec.wanted_in requirement.now)) }
{
    if is_there(alloc, given, requirement)? {
        return put_if_wallets(alloc, out, requirement);
    }
    put_missing(alloc, out, requirement)
}

// The line of a signature by a key that is there.
fn put_if_signed(
    alloc: Global,
    out: &mut Vec<u8>,
    given: &Given,
    requirement: &Wanted,
) -> Result<(), OutOfMemory>
    ensures { let w = spec.wanted_in requirement.now in
        OnOk result (out.new.items ≡ out.old.items ++ spec.line_if_held w (spec.signature_of given.now w)) }
{
    match signature_of(alloc, given, requirement)? {
        Some(signature) => {
            let key = &requirement.signer.key;
            put_held(alloc, out, requirement, key, signature.as_slice())
        }
        None => Ok(()),
    }
}

// The line of a wallet's witness that is there.
fn put_if_witnessed(
    alloc: Global,
    out: &mut Vec<u8>,
    given: &Given,
    requirement: &Wanted,
    wallet: &Wallet,
) -> Result<(), OutOfMemory>
    ensures { let w = spec.wanted_in requirement.now in
        OnOk result (out.new.items ≡ out.old.items ++ spec.line_if_witnessed w wallet.now (spec.witness_of given.now w)) }
{
    match witness_of(alloc, given, requirement)? {
        Some(items) => put_witness(alloc, out, requirement, wallet, items.as_slice()),
        None => Ok(()),
    }
}

// The line of one that is there.
fn put_if_held(
    alloc: Global,
    out: &mut Vec<u8>,
    given: &Given,
    requirement: &Wanted,
) -> Result<(), OutOfMemory>
    ensures { OnOk result (out.new.items ≡ out.old.items ++ spec.told_if_held given.now (spec.wanted_in requirement.now)) }
{
    match &requirement.input.wallet {
        None => put_if_signed(alloc, out, given, requirement),
        Some(wallet) => put_if_witnessed(alloc, out, given, requirement, wallet),
    }
}

// ---- texts

#[tactic(auto, using(std::proofs::Common::append_assoc))]
fn put_all_unsettled(
    alloc: Global,
    out: &mut Vec<u8>,
    given: &Given,
    requirements: &[Wanted],
) -> Result<(), OutOfMemory>
    ensures { OnOk result (out.new.items ≡ out.old.items ++ flat_map (spec.told_if_unsettled given.now) (map spec.wanted_in requirements.now)) }
{
    for requirement in requirements {
        put_if_unsettled(alloc, out, given, requirement)?;
    }
    Ok(())
}

#[tactic(auto, using(std::proofs::Common::append_assoc))]
fn put_all_held(
    alloc: Global,
    out: &mut Vec<u8>,
    given: &Given,
    requirements: &[Wanted],
) -> Result<(), OutOfMemory>
    ensures { OnOk result (out.new.items ≡ out.old.items ++ flat_map (spec.told_if_held given.now) (map spec.wanted_in requirements.now)) }
{
    for requirement in requirements {
        put_if_held(alloc, out, given, requirement)?;
    }
    Ok(())
}

/// Whether the initial transaction may be signed, by all that is needed.
pub(crate) fn put_gate_of(
    alloc: Global,
    out: &mut Vec<u8>,
    given: &Given,
    requirements: &[Wanted],
) -> Result<(), OutOfMemory>
    ensures { OnOk result (out.new.items ≡ out.old.items ++ spec.gate_by given.now (map spec.wanted_in requirements.now)) }
{
    let unverified = any_unverified(alloc, given, requirements)?;
    put_gate(
        alloc,
        out,
        unverified,
        first_without(alloc, given, requirements)?,
    )
}

// What isn't there or isn't verified of all that is needed, and whether the initial transaction may be signed.
fn missing_of(
    alloc: Global,
    transactions: &[Transaction],
    given: &Given,
) -> Result<Vec<u8>, OutOfMemory>
    ensures { IfOk result (λ text. text.items ≡ spec.missing_by given.now (spec.required transactions.now)) }
{
    let requirements = all_requirements(alloc, transactions)?;
    let mut out = Vec::new(alloc);
    put_all_unsettled(alloc, &mut out, given, &requirements)?;
    put_gate_of(alloc, &mut out, given, &requirements)?;
    Ok(out)
}

// What is there of all that is needed.
fn held_of(
    alloc: Global,
    transactions: &[Transaction],
    given: &Given,
) -> Result<Vec<u8>, OutOfMemory>
    ensures { IfOk result (λ text. text.items ≡ spec.held_by given.now (spec.required transactions.now)) }
{
    let requirements = all_requirements(alloc, transactions)?;
    let mut out = Vec::new(alloc);
    put_all_held(alloc, &mut out, given, &requirements)?;
    Ok(out)
}

/// The signatures that the transactions of a deal need and that aren't there, and the endorsements by wallets that are there and so
/// aren't verified, a line each in order, and a last line which says whether the initial transaction may be signed, or whose endorsement
/// is missing.
pub fn missing_text(
    alloc: Global,
    transactions: &[Transaction],
    given: &Given,
) -> Result<Vec<u8>, OutOfMemory>
    ensures { (hash : List ℕ → List ℕ) (keys : Keys) (s : Instance) → transactions.now ≡ transactions_of hash keys s
        → IfOk result (λ text. text.items ≡ texts.missing_text hash keys s given.now) }
{
    missing_of(alloc, transactions, given)
}

/// The signatures that are there, a line each in order, with key, digest and signature, so that any verifier can check it; of a wallet's
/// script that names no key's hash the items of the witness.
pub fn held_text(
    alloc: Global,
    transactions: &[Transaction],
    given: &Given,
) -> Result<Vec<u8>, OutOfMemory>
    ensures { (hash : List ℕ → List ℕ) (keys : Keys) (s : Instance) → transactions.now ≡ transactions_of hash keys s
        → IfOk result (λ text. text.items ≡ texts.held_text hash keys s given.now) }
{
    held_of(alloc, transactions, given)
}
