//! The signatures that transactions need: which are missing, and which are there but only their wallets' word.

ghost use Rattle.std.specs.Prelude.{◌≡◌, ◌++◌, map, IfOk, OnOk};
ghost use Rattle.spec_tool.specs.Keyed.Listed.{same_which as same};
ghost use Rattle.deal_missing.specs.Required as missing;
ghost use Rattle.deal_state.specs.Prospects as by;

use deal_follow::same_which;
use deal_missing::{Wanted, is_endorsement, is_there, party_of};
use deal_signatures::Given;
use spec_chain::Requirement;
use spec_data::{Name, OutOfMemory};
use spec_deal::{Signer, Transaction, Verb, Wallet};
use spec_tool::Which;
use std::alloc::Global;

// ---- for the transaction of a name

// Whether a transaction needs a signature, by whether it is of the transaction itself, and by what it is for.
fn is_needed(which: &Which, is_own: bool, verb: Verb) -> bool
    ensures { result ≡ by.is_needed_by which.now is_own verb }
{
    match which {
        Which::Init => is_own || is_endorsement(verb),
        Which::At(_) => is_own,
    }
}

// Whether the transaction has this name.
fn is_named(transaction: &Transaction, which: &Which) -> bool
    ensures { result ≡ same transaction.now.which which.now }
{
    same_which(&transaction.which, which)
}

// Whether the transaction of this name needs it.
fn is_wanted(which: &Which, wanted: &Wanted) -> bool
    ensures { result ≡ by.is_wanted which.now (missing.wanted_in wanted.now) }
{
    let is_own = is_named(wanted.transaction, which);
    is_needed(which, is_own, wanted.signer.verb)
}

// ---- those that are missing

// What is missing: the signature by the key of its label, or the witness of its wallet.
fn requirement_of(
    alloc: Global,
    which: &Which,
    input: u32,
    wallet: &Option<Wallet>,
    signer: &Signer,
) -> Result<Requirement, OutOfMemory>
    ensures { IfOk result (λ r. r ≡ by.requirement_by which.now input signer.now wallet.now) }
{
    let which = which.copy(alloc)?;
    let verb = signer.verb;
    match wallet {
        None => Ok(Requirement::Signature(which, input, signer.label.copy(alloc)?, verb)),
        Some(wallet) => {
            let owner = *party_of(&signer.label);
            Ok(Requirement::Wallet(which, input, wallet.deposit, owner, verb))
        }
    }
}

// One, if it isn't there.
fn put_if_missing(
    alloc: Global,
    requirements: &mut Vec<Requirement>,
    given: &Given,
    wanted: &Wanted,
) -> Result<(), OutOfMemory>
    ensures { OnOk result (requirements.new.items ≡ requirements.old.items ++ by.requirement_if_missing given.now (missing.wanted_in wanted.now)) }
{
    if is_there(alloc, given, wanted)? {
        return Ok(());
    }
    let which = &wanted.transaction.which;
    let wallet = &wanted.input.wallet;
    let missing = requirement_of(alloc, which, wanted.number, wallet, wanted.signer)?;
    requirements.push(missing)?;
    Ok(())
}

/// Those that the transaction of this name needs and that aren't there.
pub(crate) fn put_signatures(
    alloc: Global,
    requirements: &mut Vec<Requirement>,
    given: &Given,
    which: &Which,
    all: &[Wanted],
) -> Result<(), OutOfMemory>
    ensures { OnOk result (requirements.new.items ≡ requirements.old.items ++ by.signatures_by given.now which.now (map missing.wanted_in all.now)) }
{
    for wanted in all {
        if is_wanted(which, wanted) {
            put_if_missing(alloc, requirements, given, wanted)?;
        }
    }
    Ok(())
}

// ---- those that are only a wallet's word

/// A witness that is there, of an input, counted from 0, of a transaction, by the wallet of the deposit of this name. It isn't
/// verified whole.
#[derive(Drop)]
pub(crate) struct Unverified {
    pub(crate) which: Which,
    pub(crate) input: u32,
    pub(crate) deposit: Name,
    pub(crate) verb: Verb,
}

// One, if it is a wallet's and there.
fn put_if_unverified(
    alloc: Global,
    unverified: &mut Vec<Unverified>,
    given: &Given,
    wanted: &Wanted,
) -> Result<(), OutOfMemory>
    ensures { OnOk result (unverified.new.items ≡ unverified.old.items ++ by.unverified_if_there given.now (missing.wanted_in wanted.now)) }
{
    let Some(wallet) = &wanted.input.wallet else {
        return Ok(());
    };
    if !is_there(alloc, given, wanted)? {
        return Ok(());
    }
    unverified.push(Unverified {
        which: wanted.transaction.which.copy(alloc)?,
        input: wanted.number,
        deposit: wallet.deposit,
        verb: wanted.signer.verb,
    })?;
    Ok(())
}

/// Those that the transaction of this name needs and that are there, but not verified whole.
pub(crate) fn all_unverified(
    alloc: Global,
    given: &Given,
    which: &Which,
    all: &[Wanted],
) -> Result<Vec<Unverified>, OutOfMemory>
    ensures { IfOk result (λ v. v.items ≡ by.unverified_by given.now which.now (map missing.wanted_in all.now)) }
{
    let mut unverified = Vec::new(alloc);
    for wanted in all {
        if is_wanted(which, wanted) {
            put_if_unverified(alloc, &mut unverified, given, wanted)?;
        }
    }
    Ok(unverified)
}
