//! Whether the initial transaction may be signed, and what has to be checked before.

ghost use Rattle.std.specs.Prelude.{◌≡◌, ◌++◌, ℕ, List, map, flat_map, IfOk, OnOk};
ghost use Rattle.spec_compiler.specs.Keyed.Instance.{Instance};
ghost use Rattle.spec_compiler.specs.Keyed.Keys.{Keys};
ghost use Rattle.spec_deal.specs.declared.entry.Shown.{Shown};
ghost use Rattle.spec_deal.specs.ReadyText as ready;
ghost use Rattle.spec_deal.specs.Transactions.{transactions as transactions_of};
ghost use Rattle.spec_deal.specs.WarnText.{warn_text};
ghost use Rattle.deal_missing.specs.Required as spec;

use crate::lines::put_unverified;
use crate::looking::{any_unverified, first_without, is_unverified};
use crate::requirements::{Wanted, all_requirements};
use crate::texts::put_gate_of;
use deal_signatures::Given;
use spec_data::OutOfMemory;
use spec_deal::Transaction;
use std::alloc::Global;

// The line of an endorsement that is there and isn't verified.
fn put_if_unverified(
    alloc: Global,
    out: &mut Vec<u8>,
    given: &Given,
    requirement: &Wanted,
) -> Result<(), OutOfMemory>
    ensures { OnOk result (out.new.items ≡ out.old.items ++ spec.told_if_unverified given.now (spec.wanted_in requirement.now)) }
{
    if !is_unverified(alloc, given, requirement)? {
        return Ok(());
    }
    put_unverified(alloc, out, requirement)
}

#[tactic(auto, using(std::proofs::Common::append_assoc))]
fn put_all_unverified(
    alloc: Global,
    out: &mut Vec<u8>,
    given: &Given,
    requirements: &[Wanted],
) -> Result<(), OutOfMemory>
    ensures { OnOk result (out.new.items ≡ out.old.items ++ flat_map (spec.told_if_unverified given.now) (map spec.wanted_in requirements.now)) }
{
    for requirement in requirements {
        put_if_unverified(alloc, out, given, requirement)?;
    }
    Ok(())
}

// What isn't verified of all that is needed, and whether the initial transaction may be signed, behind these lines.
#[tactic(auto, using(std::proofs::Common::append_assoc))]
fn ready_of(
    alloc: Global,
    warnings: &[u8],
    transactions: &[Transaction],
    given: &Given,
) -> Result<Vec<u8>, OutOfMemory>
    ensures { IfOk result (λ text. text.items ≡ warnings.now ++ spec.ready_by given.now (spec.required transactions.now)) }
{
    let requirements = all_requirements(alloc, transactions)?;
    let mut out = Vec::from_slice(alloc, warnings)?;
    put_all_unverified(alloc, &mut out, given, &requirements)?;
    put_gate_of(alloc, &mut out, given, &requirements)?;
    Ok(out)
}

// Whether no endorsement is missing, and none is unverified.
fn starts_of(
    alloc: Global,
    transactions: &[Transaction],
    given: &Given,
) -> Result<bool, OutOfMemory>
    ensures { IfOk result (λ b. b ≡ spec.starts_by given.now (spec.required transactions.now)) }
{
    let requirements = all_requirements(alloc, transactions)?;
    if first_without(alloc, given, &requirements)?.is_some() {
        return Ok(false);
    }
    Ok(!any_unverified(alloc, given, &requirements)?)
}

/// The warnings of a deal, which the caller has, then each endorsement that is there and isn't verified, a line each in order, and a last
/// line which says whether the initial transaction may be signed, or whose endorsement is missing.
pub fn ready_text(
    alloc: Global,
    warnings: &[u8],
    transactions: &[Transaction],
    given: &Given,
) -> Result<Vec<u8>, OutOfMemory>
    ensures { (hash : List ℕ → List ℕ) (keys : Keys) (s : Instance) (strings : List Shown)
        → warnings.now ≡ warn_text hash keys s strings → transactions.now ≡ transactions_of hash keys s
        → IfOk result (λ text. text.items ≡ ready.ready_text hash keys s given.now strings) }
{
    ready_of(alloc, warnings, transactions, given)
}

/// Whether all endorsements are there, and all of them are verified.
pub fn is_ready(
    alloc: Global,
    transactions: &[Transaction],
    given: &Given,
) -> Result<bool, OutOfMemory>
    ensures { (hash : List ℕ → List ℕ) (keys : Keys) (s : Instance) → transactions.now ≡ transactions_of hash keys s
        → IfOk result (λ b. b ≡ ready.is_ready hash keys s given.now) }
{
    starts_of(alloc, transactions, given)
}
