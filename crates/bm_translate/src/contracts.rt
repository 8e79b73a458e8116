//! The steps of a contract's own transactions.

ghost use Rattle.std.specs.Prelude.{◌≡◌, ◌++◌, ◌∷◌, [], map, filter, Some, IfOk, OnOk};
ghost use Rattle.spec_terms.specs.Core.{core as core_of};
ghost use Rattle.spec_calculus.specs.Configuration.{Configuration};
ghost use Rattle.spec_calculus.specs.declared.step.Step.TheVariants as steps;
ghost use Rattle.spec_calculus.specs.Beginning.{is_init_authorised};
ghost use Rattle.spec_calculus.specs.Branches.{has_branch_authorised};
ghost use Rattle.spec_run.specs.Setup.{Setup, pre_at};
ghost use Rattle.spec_run.specs.Steps as spec;
ghost use Rattle.bm_syntax.specs.View.{guarded};
ghost use Rattle.bm_translate.specs.Asking.{init_missing, awaited, taking};

use bm_syntax::{Guarded, asks, core};
use spec_calculus::{BranchAuthorisation, InitAuthorisation, Step};
use spec_data::{Name, OutOfMemory};
use spec_terms::Pre;
use std::alloc::Global;

/// Whether the contract may take this deposit.
pub fn may_take(authorised: &[InitAuthorisation], contract: u32, deposit: &Name) -> bool
    ensures { result ≡ is_init_authorised authorised.now contract deposit.now }
{
    authorised
        .iter()
        .any(|a| a.contract == contract && a.deposit == *deposit)
}

// The authorisation that the entry is missing, if it is a persistent deposit that the contract may not take yet.
fn put_missing(
    steps: &mut Vec<Step>,
    authorised: &[InitAuthorisation],
    contract: u32,
    entry: &Pre,
) -> Result<(), OutOfMemory>
    ensures { OnOk result (steps.new.items ≡ steps.old.items ++ init_missing authorised.now contract (entry.now ∷ [])) }
{
    match entry {
        Pre::Persistent { party, name, .. } => {
            if !may_take(authorised, contract, name) {
                steps.push(Step::AuthInit {
                    contract,
                    party: *party,
                    deposit: *name,
                })?;
            }
            Ok(())
        }
        _ => Ok(()),
    }
}

// The authorisations that are missing, by deposit in the precondition's order.
fn missing_steps(
    alloc: Global,
    contract: u32,
    pre: &[Pre],
    authorised: &[InitAuthorisation],
) -> Result<Vec<Step>, OutOfMemory>
    ensures { IfOk result (λ made. made.items ≡ init_missing authorised.now contract pre.now) }
{
    let mut made = Vec::new(alloc);
    for entry in pre {
        put_missing(&mut made, authorised, contract, entry)?;
    }
    Ok(made)
}

/// What is missing is authorised, by deposit in the precondition's order, and then the contract of this number begins.
pub fn begin_steps(
    alloc: Global,
    contract: u32,
    pre: &[Pre],
    authorised: &[InitAuthorisation],
) -> Result<Vec<Step>, OutOfMemory>
    ensures listed { IfOk result (λ made. made.items ≡ init_missing authorised.now contract pre.now ++ steps.Init contract ∷ []) }
    ensures defined { (s : Setup) (g : Configuration) → pre_at s contract ≡ pre.now → g.init_authorised ≡ authorised.now
        → IfOk result (λ made. made.items ≡ spec.begin_steps s g contract) }
{
    let mut made = missing_steps(alloc, contract, pre, authorised)?;
    made.push(Step::Init { contract })?;
    Ok(made)
}

/// Whether the party has authorised the branch.
pub fn has_authorised(
    authorised: &[BranchAuthorisation],
    output: u32,
    branch: u32,
    party: &Name,
) -> bool
    ensures { result ≡ has_branch_authorised authorised.now output branch party.now }
{
    authorised.iter().any(|a| a.party == *party && a.output == output && a.branch == branch)
}

// Whether the branch asks the party, and the party hasn't authorised it.
fn is_awaited(
    authorised: &[BranchAuthorisation],
    output: u32,
    branch: u32,
    taken: &Guarded,
    party: &Name,
) -> bool
    ensures { result ≡ awaited authorised.now output branch (guarded taken.now) party.now }
{
    if !asks(taken, party) {
        return false;
    }
    !has_authorised(authorised, output, branch, party)
}

// The authorisations of those who are awaited.
fn agreements(
    alloc: Global,
    authorised: &[BranchAuthorisation],
    people: &[Name],
    output: u32,
    branch: u32,
    taken: &Guarded,
) -> Result<Vec<Step>, OutOfMemory>
    ensures { IfOk result (λ made. made.items
        ≡ map (spec.auth_branch output branch) (filter (awaited authorised.now output branch (guarded taken.now)) people.now)) }
{
    let mut made = Vec::new(alloc);
    for party in people {
        if is_awaited(authorised, output, branch, taken, party) {
            made.push(Step::AuthBranch {
                party: *party,
                output,
                branch,
            })?;
        }
    }
    Ok(made)
}

// Adds the step that a core is.
fn put_core(
    steps: &mut Vec<Step>,
    core: &Guarded,
    output: u32,
    branch: u32,
) -> Result<(), OutOfMemory>
    ensures { OnOk result (steps.new.items ≡ steps.old.items ++ spec.core_step output branch (guarded core.now)) }
{
    match core {
        Guarded::PutReveal { .. } => {
            steps.push(Step::PutReveal { output, branch })?;
            Ok(())
        }
        Guarded::Withdraw { .. } => {
            steps.push(Step::Withdraw { output, branch })?;
            Ok(())
        }
        Guarded::Split { .. } => {
            steps.push(Step::Split { output, branch })?;
            Ok(())
        }
        _ => Ok(()),
    }
}

/// The participants whom the branch asks authorise it where they haven't, in order, and then it is taken. The branch is that of
/// this number of the active contract which the output is.
pub fn branch_steps(
    alloc: Global,
    authorised: &[BranchAuthorisation],
    people: &[Name],
    output: u32,
    branch: u32,
    taken: &Guarded,
) -> Result<Vec<Step>, OutOfMemory>
    ensures listed { IfOk result (λ made. made.items ≡ taking authorised.now people.now output branch (guarded taken.now)) }
    ensures defined { (g : Configuration) → g.branch_authorised ≡ authorised.now
        → IfOk result (λ made. made.items ≡ spec.branch_steps g people.now output branch (Some (guarded taken.now))) }
{
    let mut made = agreements(alloc, authorised, people, output, branch, taken)?;
    put_core(&mut made, core(taken), output, branch)?;
    Ok(made)
}
