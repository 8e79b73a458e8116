//! What is asked of advertising a contract, of committing to its secrets and of its beginning.

ghost use Rattle.std.specs.Prelude.{◌≡◌, ◌==◌, ◌&&◌, not, ◌∷◌, [], IfOk};
ghost use Rattle.std.specs.List.{list_any};
ghost use Rattle.spec_data.specs.Lists.{look_up, is_among, first_false};
ghost use Rattle.spec_terms.specs.Precondition as pres;
ghost use Rattle.spec_calculus.specs.Beginning as spec;

use crate::deposits::Deposits;
use spec_calculus::{Advertised, Committed, InitAuthorisation};
use spec_data::{Name, OutOfMemory};
use spec_terms::Pre;
use std::alloc::Global;

/// Whether the contract is advertised.
pub fn is_advertised(advertised: &[Advertised], contract: u32) -> bool
    ensures { result ≡ spec.is_advertised advertised.now contract }
{
    advertised.iter().any(|a| a.contract == contract)
}

fn fits_deposit(deposits: &Deposits, number: u32, party: &Name, value: u64) -> bool
    ensures { result ≡ spec.fits_deposit deposits.now number party.now value }
{
    deposits.is_live(number)
        && deposits.has_owner(number, party)
        && deposits.value_at(number) == value
}

fn binds_one(
    deposits: &Deposits,
    name: &Name,
    party: &Name,
    value: u64,
    binding: &(Name, u32),
) -> bool
    ensures { result ≡ spec.binds_one deposits.now (name.now, pres.holding party.now value) binding.now }
{
    binding.0 == *name && fits_deposit(deposits, binding.1, party, value)
}

fn binds_each(deposits: &Deposits, pre: &[Pre], bindings: &[(Name, u32)]) -> bool
    ensures { result ≡ spec.binds_each deposits.now (pres.deposits pre.now) bindings.now }
{
    let mut rest = bindings;
    for entry in pre {
        match entry {
            Pre::Persistent { party, value, name } | Pre::Volatile { party, value, name } => {
                let Some((binding, others)) = rest.split_first() else {
                    return false;
                };
                if !binds_one(deposits, name, party, *value, binding) {
                    return false;
                }
                rest = others;
            }
            Pre::Secret { .. } => {}
        }
    }
    rest.is_empty()
}

fn is_bound(number: u32, bindings: &[(Name, u32)]) -> bool
    ensures { result ≡ list_any (λ b. b.1 == number) bindings.now }
{
    bindings.iter().any(|b| b.1 == number)
}

fn are_bound_apart(bindings: &[(Name, u32)]) -> bool
    ensures { result ≡ spec.are_bound_apart bindings.now }
{
    let mut rest = bindings;
    while let [first, others @ ..] = rest {
        if is_bound(first.1, others) {
            return false;
        }
        rest = others;
    }
    true
}

/// Whether the bindings are of a precondition's deposits, in its order, to different deposits that fit.
pub fn binds(deposits: &Deposits, pre: &[Pre], bindings: &[(Name, u32)]) -> bool
    ensures { result ≡ spec.binds deposits.now pre.now bindings.now }
{
    binds_each(deposits, pre, bindings) && are_bound_apart(bindings)
}

/// Whether one of the parties is honest.
pub fn is_any_honest(parties: &[Name], honest: &[Name]) -> bool
    ensures { result ≡ spec.is_any_honest parties.now honest.now }
{
    parties.iter().any(|p| honest.contains(p))
}

/// Whether the party has committed to its secrets of the contract.
pub fn has_committed(committed: &[Committed], contract: u32, party: &Name) -> bool
    ensures { result ≡ spec.has_committed committed.now contract party.now }
{
    committed
        .iter()
        .any(|c| c.contract == contract && c.party == *party)
}

/// Whether all of these have committed to their secrets of the contract.
pub fn have_committed(committed: &[Committed], contract: u32, parties: &[Name]) -> bool
    ensures { result ≡ spec.have_committed committed.now contract parties.now }
{
    parties
        .iter()
        .all(|p| has_committed(committed, contract, p))
}

/// Whether the party takes part and hasn't committed.
pub fn may_commit(parties: &[Name], committed: &[Committed], contract: u32, party: &Name) -> bool
    ensures { result ≡ (is_among party.now parties.now && not (spec.has_committed committed.now contract party.now)) }
{
    parties.contains(party) && !has_committed(committed, contract, party)
}

fn is_fair(length: Option<u32>) -> bool
    ensures { result ≡ spec.is_fair length }
{
    match length {
        None => true,
        Some(length) => length <= 504,
    }
}

/// Whether the lengths are of the party's secrets in a precondition's order, each a fair one.
pub fn lists_secrets(party: &Name, pre: &[Pre], lengths: &[(Name, Option<u32>)]) -> bool
    ensures { result ≡ spec.lists_secrets party.now pre.now lengths.now }
{
    let mut rest = lengths;
    for entry in pre {
        if let Pre::Secret { party: owner, name } = entry
            && *owner == *party
        {
            let Some((length, others)) = rest.split_first() else {
                return false;
            };
            if length.0 != *name || !is_fair(length.1) {
                return false;
            }
            rest = others;
        }
    }
    rest.is_empty()
}

fn are_known(lengths: &[(Name, Option<u32>)]) -> bool
    ensures { result ≡ spec.are_known lengths.now }
{
    lengths.iter().all(|l| l.1.is_some())
}

/// Whether an honest party tells each length.
pub fn is_told(honest: &[Name], party: &Name, lengths: &[(Name, Option<u32>)]) -> bool
    ensures { result ≡ spec.is_told honest.now party.now lengths.now }
{
    !honest.contains(party) || are_known(lengths)
}

/// The bindings that the contract is advertised with, none where it isn't.
pub fn bindings_of(advertised: &[Advertised], contract: u32) -> &[(Name, u32)]
    ensures { result.now ≡ spec.bindings_of advertised.now contract }
{
    for entry in advertised {
        if entry.contract == contract {
            return entry.bindings.as_slice();
        }
    }
    &[]
}

fn bound_to(bindings: &[(Name, u32)], name: &Name) -> Option<u32>
    ensures { result ≡ look_up name.now bindings.now }
{
    for binding in bindings {
        if binding.0 == *name {
            return Some(binding.1);
        }
    }
    None
}

/// Whether the name is bound to a live deposit.
pub fn is_there(deposits: &Deposits, bindings: &[(Name, u32)], name: &Name) -> bool
    ensures { result ≡ spec.is_there deposits.now (look_up name.now bindings.now) }
{
    match bound_to(bindings, name) {
        None => false,
        Some(number) => deposits.is_live(number),
    }
}

/// Whether each of these names is bound to a live deposit.
pub fn are_there(deposits: &Deposits, bindings: &[(Name, u32)], names: &[Name]) -> bool
    ensures { result ≡ spec.are_there deposits.now bindings.now names.now }
{
    names.iter().all(|x| is_there(deposits, bindings, x))
}

/// Whether each persistent deposit of a precondition is bound to a live deposit.
pub fn are_all_there(deposits: &Deposits, bindings: &[(Name, u32)], pre: &[Pre]) -> bool
    ensures { result ≡ spec.are_there deposits.now bindings.now (spec.persistent_names pre.now) }
{
    for entry in pre {
        if let Pre::Persistent { name, .. } = entry
            && !is_there(deposits, bindings, name)
        {
            return false;
        }
    }
    true
}

/// The numbers that these names are bound to, in order.
pub fn numbers_of(
    alloc: Global,
    bindings: &[(Name, u32)],
    names: &[Name],
) -> Result<Vec<u32>, OutOfMemory>
    ensures { IfOk result (λ v. v.items ≡ spec.numbers_of bindings.now names.now) }
{
    let mut numbers = Vec::new(alloc);
    for name in names {
        if let Some(number) = bound_to(bindings, name) {
            numbers.push(number)?;
        }
    }
    Ok(numbers)
}

/// The numbers that a precondition's persistent deposits are bound to, in order.
pub fn persistent_numbers(
    alloc: Global,
    bindings: &[(Name, u32)],
    pre: &[Pre],
) -> Result<Vec<u32>, OutOfMemory>
    ensures { IfOk result (λ v. v.items ≡ spec.numbers_of bindings.now (spec.persistent_names pre.now)) }
{
    let mut numbers = Vec::new(alloc);
    for entry in pre {
        if let Pre::Persistent { name, .. } = entry
            && let Some(number) = bound_to(bindings, name)
        {
            numbers.push(number)?;
        }
    }
    Ok(numbers)
}

// Whether a precondition has this persistent deposit of this party.
fn has_persistent(pre: &[Pre], party: &Name, deposit: &Name) -> bool
    ensures { result ≡ spec.has_persistent pre.now party.now deposit.now }
{
    for entry in pre {
        if let Pre::Persistent {
            party: owner,
            name,
            ..
        } = entry
            && *name == *deposit
        {
            return *owner == *party;
        }
    }
    false
}

/// The first premise from the second on that fails where a party lets the contract take a deposit, or 0.
pub fn allowing_fails(
    deposits: &Deposits,
    bindings: &[(Name, u32)],
    pre: &[Pre],
    party: &Name,
    deposit: &Name,
) -> u8
    ensures { result ≡
        first_false 2 (spec.has_persistent pre.now party.now deposit.now
        ∷ spec.is_there deposits.now (look_up deposit.now bindings.now) ∷ []) }
{
    if !has_persistent(pre, party, deposit) {
        return 2;
    }
    if !is_there(deposits, bindings, deposit) {
        return 3;
    }
    0
}

/// Whether the contract may take this deposit.
pub fn is_init_authorised(authorised: &[InitAuthorisation], contract: u32, deposit: &Name) -> bool
    ensures { result ≡ spec.is_init_authorised authorised.now contract deposit.now }
{
    authorised
        .iter()
        .any(|a| a.contract == contract && a.deposit == *deposit)
}

/// Whether the contract may take each persistent deposit of a precondition.
pub fn are_init_authorised(authorised: &[InitAuthorisation], contract: u32, pre: &[Pre]) -> bool
    ensures { result ≡ spec.are_init_authorised authorised.now contract (spec.persistent_names pre.now) }
{
    for entry in pre {
        if let Pre::Persistent { name, .. } = entry
            && !is_init_authorised(authorised, contract, name)
        {
            return false;
        }
    }
    true
}
