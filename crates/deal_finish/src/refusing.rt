//! Why a transaction isn't finished.

ghost use Rattle.std.specs.Prelude.{◌≡◌, ℕ, List, option_map, true, IfSome};
ghost use Rattle.spec_data.specs.Lists.{or_else};
ghost use Rattle.spec_terms.specs.Bound.{is_bounded};
ghost use Rattle.spec_terms.specs.Core.{core as core_of, test_of};
ghost use Rattle.spec_compiler.specs.Keyed.Instance.{Instance};
ghost use Rattle.spec_compiler.specs.Keyed.Keys.{Keys};
ghost use Rattle.spec_tool.specs.Keyed.Listed.{Listed};
ghost use Rattle.spec_tool.specs.declared.which.Which.TheVariants as names;
ghost use Rattle.spec_deal.specs.Finished as spec;
ghost use Rattle.spec_deal.specs.Transactions.{transaction as transaction_of, transactions as transactions_of};
ghost use Rattle.bm_syntax.specs.View.{guarded};
ghost use Rattle.deal_finish.specs.Filled as filled;
ghost use Rattle.deal_finish.specs.Finishes.{Allows};

use crate::branches::branch_of;
use crate::error::FinishError;
use crate::secrets::{do_fit, first_hidden};
use bm_syntax::{Guarded, reveals};
use bm_wellformed::Checked;
use deal_missing::{first_unendorsed, first_unsigned};
use deal_secrets::Strings;
use deal_signatures::Given;
use spec_deal::{FinishRefusal, Transaction};
use spec_tool::Which;
use std::alloc::Global;

// All endorsements are there.
fn endorsed(alloc: Global, transactions: &[Transaction], given: &Given) -> Result<(), FinishError>
    ensures { (hash : List ℕ → List ℕ) (keys : Keys) (s : Instance) → transactions.now ≡ transactions_of hash keys s
        → Allows result (spec.endorsement_refusal hash keys s given.now names.Init) }
{
    match first_unendorsed(alloc, transactions, given)? {
        Some((path, party)) => Err(FinishError::Refused(FinishRefusal::Endorsement(path, party))),
        None => Ok(()),
    }
}

// All endorsements are there, if it is the initial transaction.
fn may_be_started(
    alloc: Global,
    transactions: &[Transaction],
    which: &Which,
    given: &Given,
) -> Result<(), FinishError>
    ensures { (hash : List ℕ → List ℕ) (keys : Keys) (s : Instance) → transactions.now ≡ transactions_of hash keys s
        → Allows result (spec.endorsement_refusal hash keys s given.now which.now) }
{
    match which {
        Which::Init => endorsed(alloc, transactions, given),
        Which::At(_) => Ok(()),
    }
}

// All signatures of the transaction are there.
fn signed(alloc: Global, transaction: &Transaction, given: &Given) -> Result<(), FinishError>
    ensures { (hash : List ℕ → List ℕ) (keys : Keys) (s : Instance) (l : Listed) → transaction.now ≡ transaction_of hash keys s.advert l
        → Allows result (spec.signature_refusal hash keys s given.now l) }
{
    match first_unsigned(alloc, transaction, given)? {
        Some(refusal) => Err(FinishError::Refused(refusal)),
        None => Ok(()),
    }
}

// All secrets of the branch are there.
fn shown(branch: Option<&Guarded>, strings: &Strings) -> Result<(), FinishError>
    ensures { Allows result (spec.secret_refusal strings.now (option_map (λ b. guarded b.now) branch.entry)) }
{
    let Some(branch) = branch else {
        return Ok(());
    };
    match first_hidden(strings, reveals(branch)) {
        Some(name) => Err(FinishError::Refused(FinishRefusal::Secret(name))),
        None => Ok(()),
    }
}

// The predicate of the branch is true of its secrets, if it reveals any.
fn allowed(alloc: Global, branch: Option<&Guarded>, strings: &Strings) -> Result<(), FinishError>
    requires { IfSome branch (λ b. is_bounded (test_of (core_of (guarded b.now))) ≡ true) }
    ensures { Allows result (spec.predicate_refusal strings.now (option_map (λ b. guarded b.now) branch.entry)) }
{
    let Some(branch) = branch else {
        return Ok(());
    };
    if do_fit(alloc, strings, branch)? {
        Ok(())
    } else {
        Err(FinishError::Refused(FinishRefusal::Predicate))
    }
}

// The branch of the transaction may be taken with these secrets.
fn revealed(
    alloc: Global,
    checked: &Checked,
    which: &Which,
    strings: &Strings,
) -> Result<(), FinishError>
    ensures { Allows result (or_else (spec.secret_refusal strings.now (filled.branch_of checked.now which.now))
        (spec.predicate_refusal strings.now (filled.branch_of checked.now which.now))) }
{
    let branch = branch_of(checked, which);
    shown(branch, strings)?;
    allowed(alloc, branch, strings)
}

/// Nothing is missing that the transaction needs.
pub(crate) fn complete(
    alloc: Global,
    checked: &Checked,
    transactions: &[Transaction],
    transaction: &Transaction,
    given: &Given,
    strings: &Strings,
) -> Result<(), FinishError>
    ensures { (hash : List ℕ → List ℕ) (keys : Keys) (s : Instance) (l : Listed) → s.advert ≡ checked.now
        → transactions.now ≡ transactions_of hash keys s → transaction.now ≡ transaction_of hash keys s.advert l
        → Allows result (spec.finish_refusal hash keys s given.now strings.now l) }
{
    may_be_started(alloc, transactions, &transaction.which, given)?;
    signed(alloc, transaction, given)?;
    revealed(alloc, checked, &transaction.which, strings)
}
