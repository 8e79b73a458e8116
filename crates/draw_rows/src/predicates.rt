//! Whether the predicate of a branch is decided, and how.

ghost use Rattle.std.specs.Prelude.{◌≡◌, ◌≤◌, All, true, option_map, IfOk};
ghost use Rattle.spec_data.specs.Lists.{look_up};
ghost use Rattle.spec_data.specs.Ranges.{most_item_bytes};
ghost use Rattle.spec_terms.specs.Core.{core as core_of, reveals_of, test_of};
ghost use Rattle.spec_terms.specs.Precondition.{secrets};
ghost use Rattle.spec_terms.specs.Value.{holds};
ghost use Rattle.spec_calculus.specs.Branches as branches;
ghost use Rattle.bm_syntax.specs.View.{guarded, test as test_view};
ghost use Rattle.spec_page.specs.Statuses as spec;

use bm_calculus::Config;
use bm_pred::{is_bounded, value};
use bm_syntax::{Advert, Guarded, Name, Pre, Pred, core, reveals};
use spec_data::{MOST_ITEM_BYTES, OutOfMemory};
use spec_page::Status;
use std::alloc::{AllocError, Global};
use std::marker::Model;

// The party of a precondition's secret.
fn owner_of(pre: &[Pre], secret: &Name) -> Option<Name>
    ensures { result ≡ look_up secret.now (secrets pre.now) }
{
    for entry in pre {
        if let Pre::Secret { party, name } = entry
            && *name == *secret
        {
            return Some(*party);
        }
    }
    None
}

// The length that a party has committed for its secret, 0 where none is known.
fn committed_length(config: &Config, contract: u32, party: &Name, secret: &Name) -> u32
    ensures { result ≡ branches.known_length (branches.length_at config.now.committed contract party.now secret.now) }
{
    match config.secret(contract, party, secret) {
        None => 0,
        Some((None, _)) => 0,
        Some((Some(length), _)) => length,
    }
}

fn secret_length(config: &Config, contract: u32, pre: &[Pre], secret: &Name) -> u32
    ensures { result ≡ branches.secret_length config.now.committed contract pre.now secret.now }
{
    match owner_of(pre, secret) {
        None => 0,
        Some(party) => committed_length(config, contract, &party, secret),
    }
}

// The lengths of these secrets. No run commits one of more than 520, which counts as out of memory.
fn lengths_of(
    alloc: Global,
    config: &Config,
    contract: u32,
    pre: &[Pre],
    names: &[Name],
) -> Result<Vec<(Name, u32)>, OutOfMemory>
    ensures lengths { IfOk result (λ v. v.items ≡ branches.secret_lengths config.now.committed contract pre.now names.now) }
    ensures short { IfOk result (λ v. All (λ entry. entry.1 ≤ most_item_bytes) v.items) }
{
    let mut lengths = Vec::new(alloc);
    for name in names {
        let length = secret_length(config, contract, pre, name);
        if length > MOST_ITEM_BYTES as u32 {
            return Err(AllocError);
        }
        lengths.push((*name, length))?;
    }
    Ok(lengths)
}

// Whether all these secrets are revealed.
fn are_revealed(config: &Config, contract: u32, pre: &[Pre], names: &[Name]) -> bool
    ensures { result ≡ branches.are_revealed config.now.revealed contract pre.now names.now }
{
    for name in names {
        if !config.is_revealed(contract, pre, name) {
            return false;
        }
    }
    true
}

// Whether a predicate is true of these lengths. No contract that passed the check has one that isn't bounded, which counts as out of
// memory.
fn holds_of(test: &Pred, lengths: &[(Name, u32)]) -> Result<bool, OutOfMemory>
    requires { All (λ entry. entry.1 ≤ most_item_bytes) lengths.now }
    ensures { IfOk result (λ b. b ≡ holds lengths.now (test_view test.now)) }
{
    if !is_bounded(test) {
        return Err(AllocError);
    }
    Ok(value(test, lengths))
}

// Whether the predicate of a core is true of these lengths.
fn core_holds(core: &Guarded, lengths: &[(Name, u32)]) -> Result<bool, OutOfMemory>
    requires { All (λ entry. entry.1 ≤ most_item_bytes) lengths.now }
    ensures { IfOk result (λ b. b ≡ holds lengths.now (test_of (guarded core.now))) }
{
    match core {
        Guarded::PutReveal { test, .. } => holds_of(test, lengths),
        _ => Ok(true),
    }
}

fn decided(revealed: bool, holds: bool) -> Status
    ensures { result ≡ spec.decided revealed holds }
{
    if !revealed {
        Status::Open
    } else if holds {
        Status::Met
    } else {
        Status::Gone
    }
}

fn branch_status(
    alloc: Global,
    config: &Config,
    contract: u32,
    pre: &[Pre],
    branch: &Guarded,
) -> Result<Status, OutOfMemory>
    ensures { IfOk result (λ s. s ≡ spec.decided
        (branches.are_revealed config.now.revealed contract pre.now (reveals_of (core_of (guarded branch.now))))
        (holds (branches.secret_lengths config.now.committed contract pre.now (reveals_of (core_of (guarded branch.now))))
        (test_of (core_of (guarded branch.now))))) }
{
    let names = reveals(branch);
    let revealed = are_revealed(config, contract, pre, names);
    let lengths = lengths_of(alloc, config, contract, pre, names)?;
    let held = core_holds(core(branch), &lengths)?;
    Ok(decided(revealed, held))
}

/// Where the predicate of a branch stands.
pub(crate) fn test_status(
    alloc: Global,
    config: &Config,
    contract: u32,
    advert: &Advert,
    branch: Option<&Guarded>,
) -> Result<Status, OutOfMemory>
    ensures { IfOk result (λ s. s ≡ spec.test_status config.now contract advert.now (option_map (λ b. guarded b.now) branch.entry)) }
{
    match branch {
        None => Ok(Status::Open),
        Some(branch) => branch_status(alloc, config, contract, &advert.pre, branch),
    }
}
