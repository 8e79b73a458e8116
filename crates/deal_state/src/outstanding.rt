//! What is missing for a transaction that may come next.

ghost use Rattle.std.specs.Prelude.{◌≡◌, ◌++◌, ◌∷◌, [], map, true, is_some, option_map, IfOk, IfSome, OnOk};
ghost use Rattle.std.specs.List.{list_any, list_all};
ghost use Rattle.spec_data.specs.Lists.{look_up};
ghost use Rattle.spec_terms.specs.Bound.{is_bounded};
ghost use Rattle.spec_terms.specs.Core.{core as core_of, test_of};
ghost use Rattle.spec_terms.specs.Faults.{IsWellFormed};
ghost use Rattle.spec_terms.specs.Precondition.{persistent, secrets, names_of};
ghost use Rattle.spec_run.specs.Firing.{revealed_by as secrets_of};
ghost use Rattle.spec_chain.specs.Outputs.{is_deposit as names_deposit};
ghost use Rattle.spec_chain.specs.Outstanding as spec;
ghost use Rattle.bm_syntax.specs.View.{guarded};
ghost use Rattle.deal_finish.specs.Filled.{branch_of as taken_by};
ghost use Rattle.deal_state.specs.Prospects as by;
ghost use Rattle.deal_follow.specs.Seen.{state_in};
ghost use Rattle.deal_missing.specs.Required as missing;

use crate::signatures::put_signatures;
use bm_syntax::{Guarded, puts, reveals};
use bm_wellformed::Checked;
use deal_finish::{branch_of, do_fit};
use deal_follow::{Standing, transaction_named};
use deal_missing::Wanted;
use deal_secrets::Strings;
use deal_signatures::Given;
use spec_chain::{Held, Output, Requirement};
use spec_data::{Name, OutOfMemory};
use spec_deal::Transaction;
use spec_terms::Pre;
use spec_tool::Which;
use std::alloc::Global;

// ---- the height

// The lock of a transaction that was found.
fn lock_of(transaction: Option<&Transaction>) -> u32
    ensures { result ≡ spec.lock_of (option_map (λ t. t.now) transaction.entry) }
{
    match transaction {
        Some(transaction) => transaction.tx.lock,
        None => 0,
    }
}

// A tip of the height of its lock, if that isn't reached.
fn put_height(
    requirements: &mut Vec<Requirement>,
    transactions: &[Transaction],
    tip: u32,
    which: &Which,
) -> Result<(), OutOfMemory>
    ensures { OnOk result (requirements.new.items ≡ requirements.old.items ++ spec.height_requirements transactions.now tip which.now) }
{
    let lock = lock_of(transaction_named(transactions, which));
    if tip < lock {
        requirements.push(Requirement::Height(lock))?;
    }
    Ok(())
}

// ---- deposits

// Whether an output is the deposit of this name.
fn is_deposit(output: &Output, name: &Name) -> bool
    ensures { result ≡ names_deposit name.now output.now }
{
    match &output.held {
        Held::Deposit(known) => *known == *name,
        Held::Position(_) => false,
        Held::Payout(_) => false,
    }
}

// Whether the deposit of this name is live.
fn is_live(live: &[Output], name: &Name) -> bool
    ensures { result ≡ list_any (names_deposit name.now) live.now }
{
    for output in live {
        if is_deposit(output, name) {
            return true;
        }
    }
    false
}

// Adds a deposit, unless it is live.
fn put_deposit(names: &mut Vec<Name>, live: &[Output], name: &Name) -> Result<(), OutOfMemory>
    ensures { OnOk result (names.new.items ≡ names.old.items ++ by.gone_in live.now (name.now ∷ [])) }
{
    if !is_live(live, name) {
        names.push(*name)?;
    }
    Ok(())
}

// The persistent deposits that aren't live.
fn begun_without(alloc: Global, pre: &[Pre], live: &[Output]) -> Result<Vec<Name>, OutOfMemory>
    ensures { IfOk result (λ v. v.items ≡ by.gone_in live.now (names_of (persistent pre.now))) }
{
    let mut names = Vec::new(alloc);
    for entry in pre {
        if let Pre::Persistent { name, .. } = entry {
            put_deposit(&mut names, live, name)?;
        }
    }
    Ok(names)
}

// Those of these deposits that aren't live.
fn put_without(alloc: Global, puts: &[Name], live: &[Output]) -> Result<Vec<Name>, OutOfMemory>
    ensures { IfOk result (λ v. v.items ≡ by.gone_in live.now puts.now) }
{
    let mut names = Vec::new(alloc);
    for name in puts {
        put_deposit(&mut names, live, name)?;
    }
    Ok(names)
}

// The deposits that a branch puts.
fn puts_by(branch: Option<&Guarded>) -> &[Name]
    ensures { result.now ≡ spec.puts_by (option_map (λ b. guarded b.now) branch.entry) }
{
    match branch {
        Some(branch) => puts(branch),
        None => &[],
    }
}

// The deposits that a transaction spends and that aren't live.
fn deposits_outstanding(
    alloc: Global,
    checked: &Checked,
    live: &[Output],
    which: &Which,
    branch: Option<&Guarded>,
) -> Result<Vec<Name>, OutOfMemory>
    ensures { IfOk result (λ v. v.items ≡ by.gone_in live.now
        (by.needed_by checked.now which.now (option_map (λ b. guarded b.now) branch.entry))) }
{
    match which {
        Which::Init => begun_without(alloc, &checked.advert().pre, live),
        Which::At(_) => put_without(alloc, puts_by(branch), live),
    }
}

fn put_deposits(requirements: &mut Vec<Requirement>, names: &[Name]) -> Result<(), OutOfMemory>
    ensures { OnOk result (requirements.new.items ≡ requirements.old.items ++ map (λ x. Requirement.Deposit x) names.now) }
{
    for name in names {
        requirements.push(Requirement::Deposit(*name))?;
    }
    Ok(())
}

// A deposit that isn't live never is again.
fn put_gone(requirements: &mut Vec<Requirement>, names: &[Name]) -> Result<(), OutOfMemory>
    ensures { OnOk result (requirements.new.items ≡ requirements.old.items ++ spec.gone_requirements names.now) }
{
    if !names.is_empty() {
        requirements.push(Requirement::DepositGone)?;
    }
    Ok(())
}

// ---- secrets

// The secrets that a branch reveals.
fn revealed_by(branch: Option<&Guarded>) -> &[Name]
    ensures { result.now ≡ secrets_of (option_map (λ b. guarded b.now) branch.entry) }
{
    match branch {
        Some(branch) => reveals(branch),
        None => &[],
    }
}

// Those of these secrets that nobody knows.
fn hidden(alloc: Global, strings: &Strings, names: &[Name]) -> Result<Vec<Name>, OutOfMemory>
    ensures { IfOk result (λ v. v.items ≡ by.hidden_in strings.now names.now) }
{
    let mut all = Vec::new(alloc);
    for name in names {
        if strings.string(name).is_none() {
            all.push(*name)?;
        }
    }
    Ok(all)
}

// Whose a secret is, if the precondition has it.
fn holder(pre: &[Pre], name: &Name) -> Option<Name>
    ensures { result ≡ look_up name.now (secrets pre.now) }
{
    for entry in pre {
        if let Pre::Secret { party, name: known } = entry {
            if *known == *name {
                return Some(*party);
            }
        }
    }
    None
}

// A secret of the precondition that nobody knows.
fn secret_of(pre: &[Pre], name: &Name) -> Requirement
    requires { is_some (look_up name.now (secrets pre.now)) ≡ true }
    ensures { result ≡ by.secret_requirement_in pre.now name.now }
{
    match holder(pre, name) {
        Some(party) => Requirement::Secret(*name, party),
        None => unreachable!(),
    }
}

fn put_secrets(
    requirements: &mut Vec<Requirement>,
    pre: &[Pre],
    names: &[Name],
) -> Result<(), OutOfMemory>
    requires { list_all (λ a. is_some (look_up a (secrets pre.now))) names.now ≡ true }
    ensures { OnOk result (requirements.new.items ≡ requirements.old.items ++ map (by.secret_requirement_in pre.now) names.now) }
{
    for name in names {
        requirements.push(secret_of(pre, name))?;
    }
    Ok(())
}

// Whether all that a branch reveals is known, and its predicate is false of it.
fn is_false(
    alloc: Global,
    strings: &Strings,
    hidden: &[Name],
    branch: Option<&Guarded>,
) -> Result<bool, OutOfMemory>
    requires { IfSome branch (λ b. is_bounded (test_of (core_of (guarded b.now))) ≡ true) }
    ensures { IfOk result (λ b. b ≡ spec.is_false strings.now hidden.now (option_map (λ b. guarded b.now) branch.entry)) }
{
    let Some(branch) = branch else {
        return Ok(false);
    };
    if !hidden.is_empty() {
        return Ok(false);
    }
    Ok(!do_fit(alloc, strings, branch)?)
}

// ---- all that is missing

// What is known of each checked contract.
fn is_well_formed(checked: &Checked)
    ensures { IsWellFormed checked.now }
{
    let _ = checked.advert();
}

// The secrets that a branch reveals and nobody knows; each is one of the precondition.
fn secrets_outstanding(
    alloc: Global,
    checked: &Checked,
    strings: &Strings,
    which: &Which,
    branch: Option<&Guarded>,
) -> Result<Vec<Name>, OutOfMemory>
    requires { option_map (λ b. guarded b.now) branch ≡ taken_by checked.now which.now }
    ensures hidden { IfOk result (λ v. v.items ≡ by.hidden_in strings.now (secrets_of (taken_by checked.now which.now))) }
    ensures known { IfOk result (λ v. list_all (λ a. is_some (look_up a (secrets checked.now.pre))) v.items ≡ true) }
{
    is_well_formed(checked);
    hidden(alloc, strings, revealed_by(branch))
}

// That the predicate is false, if it is.
fn put_predicate(requirements: &mut Vec<Requirement>, is_false: bool) -> Result<(), OutOfMemory>
    ensures { OnOk result (requirements.new.items ≡ requirements.old.items ++ by.predicate_if is_false) }
{
    if is_false {
        requirements.push(Requirement::PredicateFalse)?;
    }
    Ok(())
}

// These deposits and secrets, in order.
#[tactic(auto, using(std::proofs::Common::append_assoc))]
fn put_all(
    requirements: &mut Vec<Requirement>,
    pre: &[Pre],
    gone: &[Name],
    hidden: &[Name],
    is_false: bool,
) -> Result<(), OutOfMemory>
    requires { list_all (λ a. is_some (look_up a (secrets pre.now))) hidden.now ≡ true }
    ensures { OnOk result (requirements.new.items ≡ requirements.old.items ++ by.parts_in pre.now gone.now hidden.now is_false) }
{
    put_deposits(requirements, gone)?;
    put_secrets(requirements, pre, hidden)?;
    put_gone(requirements, gone)?;
    put_predicate(requirements, is_false)
}

// The same, of a checked contract.
fn put_checked(
    requirements: &mut Vec<Requirement>,
    checked: &Checked,
    gone: &[Name],
    hidden: &[Name],
    is_false: bool,
) -> Result<(), OutOfMemory>
    requires { list_all (λ a. is_some (look_up a (secrets checked.now.pre))) hidden.now ≡ true }
    ensures { OnOk result (requirements.new.items ≡ requirements.old.items ++ by.parts_in checked.now.pre gone.now hidden.now is_false) }
{
    put_all(requirements, &checked.advert().pre, gone, hidden, is_false)
}

// The deposits and secrets that are missing, in order.
fn put_parts(
    alloc: Global,
    requirements: &mut Vec<Requirement>,
    checked: &Checked,
    strings: &Strings,
    live: &[Output],
    which: &Which,
) -> Result<(), OutOfMemory>
    ensures { OnOk result (requirements.new.items ≡ requirements.old.items ++ by.parts_by checked.now strings.now live.now which.now) }
{
    let branch = branch_of(checked, which);
    let gone = deposits_outstanding(alloc, checked, live, which, branch)?;
    let hidden = secrets_outstanding(alloc, checked, strings, which, branch)?;
    let is_false = is_false(alloc, strings, &hidden, branch)?;
    put_checked(requirements, checked, &gone, &hidden, is_false)
}

/// All that is missing for the transaction of a name under this tip, where all these signatures are needed, these are given and these
/// strings known, in order.
pub(crate) fn outstanding(
    alloc: Global,
    checked: &Checked,
    transactions: &[Transaction],
    wanted: &[Wanted],
    given: &Given,
    strings: &Strings,
    standing: &Standing,
    tip: u32,
    which: &Which,
) -> Result<Vec<Requirement>, OutOfMemory>
    ensures { IfOk result (λ v. v.items
        ≡ by.outstanding_by checked.now transactions.now (map missing.wanted_in wanted.now) given.now strings.now (state_in standing.now) tip which.now) }
{
    let mut requirements = Vec::new(alloc);
    put_height(&mut requirements, transactions, tip, which)?;
    put_signatures(alloc, &mut requirements, given, which, wanted)?;
    put_parts(
        alloc,
        &mut requirements,
        checked,
        strings,
        &standing.live,
        which,
    )?;
    Ok(requirements)
}
