//! The first signature that isn't there.

ghost use Rattle.std.specs.Prelude.{◌≡◌, ℕ, List, not, is_some, option_map, IfOk};
ghost use Rattle.std.specs.List.{find};
ghost use Rattle.spec_terms.specs.Advert.{Advert};
ghost use Rattle.spec_compiler.specs.Keyed.Instance.{Instance};
ghost use Rattle.spec_compiler.specs.Keyed.Keys.{Keys};
ghost use Rattle.spec_tool.specs.Keyed.Listed.{Listed};
ghost use Rattle.spec_deal.specs.Finished.{label_party, which_path, unsigned_refusal};
ghost use Rattle.spec_deal.specs.Given as known;
ghost use Rattle.spec_deal.specs.Slots.{Slot, listed_slots};
ghost use Rattle.spec_deal.specs.Transactions.{transaction as transaction_of, transactions as transactions_of};
ghost use Rattle.deal_missing.specs.Required as spec;

use crate::looking::{first_lacking, first_without, party_of};
use crate::requirements::{Wanted, all_requirements, requirements_of};
use deal_signatures::Given;
use spec_data::{Name, OutOfMemory};
use spec_deal::{FinishRefusal, Transaction};
use spec_terms::Path;
use spec_tool::Which;
use std::alloc::Global;

// The path of a transaction; the initial one has none.
fn path_of(alloc: Global, which: &Which) -> Result<Path, OutOfMemory>
    ensures { IfOk result (λ path. path ≡ which_path which.now) }
{
    match which {
        Which::Init => Ok(Path::of(Vec::new(alloc))),
        Which::At(path) => Ok(path.copy(alloc)?),
    }
}

// The path of what is needed, and who signs it.
fn path_and_party(
    alloc: Global,
    requirement: Option<&Wanted>,
) -> Result<Option<(Path, Name)>, OutOfMemory>
    ensures { IfOk result (λ o. o ≡ option_map spec.path_and_party (option_map (λ w. spec.wanted_in w.now) requirement.entry)) }
{
    match requirement {
        Some(requirement) => {
            let path = path_of(alloc, &requirement.transaction.which)?;
            Ok(Some((path, *party_of(&requirement.signer.label))))
        }
        None => Ok(None),
    }
}

// Without what is needed nobody takes its transaction.
fn refusal_of(alloc: Global, requirement: &Wanted) -> Result<FinishRefusal, OutOfMemory>
    ensures { IfOk result (λ refusal. refusal ≡ spec.refusal_of (spec.wanted_in requirement.now)) }
{
    let number = requirement.number;
    match &requirement.input.wallet {
        None => Ok(FinishRefusal::Signature(number, requirement.signer.label.copy(alloc)?)),
        Some(wallet) => Ok(FinishRefusal::Wallet(number, wallet.deposit)),
    }
}

// The same, if something is needed.
fn refused_by(
    alloc: Global,
    requirement: Option<&Wanted>,
) -> Result<Option<FinishRefusal>, OutOfMemory>
    ensures { IfOk result (λ o. o ≡ option_map spec.refusal_of (option_map (λ w. spec.wanted_in w.now) requirement.entry)) }
{
    match requirement {
        Some(requirement) => Ok(Some(refusal_of(alloc, requirement)?)),
        None => Ok(None),
    }
}

// The path and the party of the first endorsement that isn't there.
fn unendorsed(
    alloc: Global,
    transactions: &[Transaction],
    given: &Given,
) -> Result<Option<(Path, Name)>, OutOfMemory>
    ensures { IfOk result (λ o. o ≡ option_map spec.path_and_party
        (find (spec.is_unendorsed given.now) (spec.required transactions.now))) }
{
    let requirements = all_requirements(alloc, transactions)?;
    path_and_party(alloc, first_without(alloc, given, &requirements)?)
}

// What refuses a transaction for the first signature of it that isn't there.
fn unsigned(
    alloc: Global,
    transaction: &Transaction,
    given: &Given,
) -> Result<Option<FinishRefusal>, OutOfMemory>
    ensures { IfOk result (λ o. o ≡ option_map spec.refusal_of
        (find (λ w. not (spec.is_there given.now w)) (spec.transaction_required transaction.now))) }
{
    let requirements = requirements_of(alloc, transaction)?;
    refused_by(alloc, first_lacking(alloc, given, &requirements)?)
}

/// The first endorsement that isn't there, by its path and its party. Where none is missing, the initial transaction may be signed.
pub fn first_unendorsed(
    alloc: Global,
    transactions: &[Transaction],
    given: &Given,
) -> Result<Option<(Path, Name)>, OutOfMemory>
    ensures first { (hash : List ℕ → List ℕ) (keys : Keys) (s : Instance) → transactions.now ≡ transactions_of hash keys s
        → IfOk result (λ o. o ≡ option_map (λ (slot : Slot). (which_path slot.which, label_party slot.label))
        (known.first_unendorsed hash keys s given.now)) }
    ensures none { (hash : List ℕ → List ℕ) (keys : Keys) (s : Instance) → transactions.now ≡ transactions_of hash keys s
        → IfOk result (λ o. not (is_some o) ≡ known.may_start hash keys s given.now) }
{
    unendorsed(alloc, transactions, given)
}

/// What refuses to finish a transaction for the first signature of it that isn't there: the input, counted from 0, and the label of the
/// key, or the deposit of the wallet.
pub fn first_unsigned(
    alloc: Global,
    transaction: &Transaction,
    given: &Given,
) -> Result<Option<FinishRefusal>, OutOfMemory>
    ensures { (hash : List ℕ → List ℕ) (keys : Keys) (advert : Advert) (l : Listed) → transaction.now ≡ transaction_of hash keys advert l
        → IfOk result (λ o. o ≡ option_map unsigned_refusal
        (find (λ slot. not (known.has hash keys given.now slot)) (listed_slots keys advert l))) }
{
    unsigned(alloc, transaction, given)
}
