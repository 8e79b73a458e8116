//! Which transactions a party endorses.

ghost use Rattle.std.specs.Prelude.{◌≡◌, ℕ, List, map, IfOk};
ghost use Rattle.std.specs.List.{list_any};
ghost use Rattle.spec_terms.specs.Advert.{Advert};
ghost use Rattle.spec_compiler.specs.Keyed.Keys.{Keys};
ghost use Rattle.spec_tool.specs.Keyed.Listed.{Listed};
ghost use Rattle.spec_deal.specs.ReadyText as texts;
ghost use Rattle.spec_deal.specs.Transactions.{transaction as transaction_of};
ghost use Rattle.deal_missing.specs.Required as spec;

use crate::looking::{is_endorsement, party_of};
use crate::requirements::{Wanted, requirements_of};
use spec_data::OutOfMemory;
use spec_deal::Transaction;
use std::alloc::Global;

// Whether it is an endorsement by this party.
fn is_by(requirement: &Wanted, party: &[u8]) -> bool
    ensures { result ≡ spec.is_endorsement_by party.now (spec.wanted_in requirement.now) }
{
    is_endorsement(requirement.signer.verb) && party_of(&requirement.signer.label).bytes() == party
}

// Whether one of these is.
fn any_by(requirements: &[Wanted], party: &[u8]) -> bool
    ensures { result ≡ list_any (spec.is_endorsement_by party.now) (map spec.wanted_in requirements.now) }
{
    for requirement in requirements {
        if is_by(requirement, party) {
            return true;
        }
    }
    false
}

// Whether a transaction needs one.
fn is_endorsed(alloc: Global, transaction: &Transaction, party: &[u8]) -> Result<bool, OutOfMemory>
    ensures { IfOk result (λ b. b ≡ list_any (spec.is_endorsement_by party.now) (spec.transaction_required transaction.now)) }
{
    let requirements = requirements_of(alloc, transaction)?;
    Ok(any_by(&requirements, party))
}

/// Whether a transaction needs an endorsement by this party. The initial one needs none.
pub fn is_endorsed_by(
    alloc: Global,
    transaction: &Transaction,
    party: &[u8],
) -> Result<bool, OutOfMemory>
    ensures { (hash : List ℕ → List ℕ) (keys : Keys) (advert : Advert) (l : Listed) → transaction.now ≡ transaction_of hash keys advert l
        → IfOk result (λ b. b ≡ texts.is_endorsed_by keys advert party.now l) }
{
    is_endorsed(alloc, transaction, party)
}
