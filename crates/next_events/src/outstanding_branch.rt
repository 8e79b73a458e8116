//! What is missing for a branch of an active contract.

ghost use Rattle.std.specs.Prelude.{◌≡◌, ◌++◌, OnOk, Some};
ghost use Rattle.spec_data.specs.Lists.{look_up};
ghost use Rattle.spec_terms.specs.Core.{core as core_of, asks};
ghost use Rattle.spec_terms.specs.Precondition.{secrets};
ghost use Rattle.spec_calculus.specs.Beginning.{contract_at};
ghost use Rattle.spec_calculus.specs.Branches.{active_at};
ghost use Rattle.spec_calculus.specs.Steps.{branch_at};
ghost use Rattle.spec_next.specs.Requirements as spec;
ghost use Rattle.bm_syntax.specs.View.{guarded};
ghost use Rattle.bm_calculus.specs.Answers.{shown, parts_of};

use crate::opening::is_name_among;
use crate::outstanding::put_unless;
use bm_calculus::{Active, Config};
use bm_syntax::{Guarded, branch_at as branch_under, lock, puts, reveals};
use bm_wellformed::Checked;
use spec_data::{Name, OutOfMemory, Seq};
use spec_next::Requirement;
use spec_terms::Pre;
use std::marker::Model;

// The authorisations of a branch that are missing, of those whom it asks.
#[tactic(auto, using(std::proofs::Common::append_assoc, crate::proofs::Unmet::nothing_more, crate::proofs::Unmet::unmet_first))]
fn put_unauthorised(
    requirements: &mut Seq<Requirement>,
    config: &Config,
    output: u32,
    branch: u32,
    taken: &Guarded,
) -> Result<(), OutOfMemory>
    ensures { OnOk result (requirements.new ≡ requirements.old
        ++ spec.unmet (spec.authorised config.now output branch (asks (guarded taken.now)))) }
{
    match taken {
        Guarded::Auth { party, body } => {
            let met = config.has_branch_authorised(output, branch, party);
            let requirement = Requirement::Authorisation {
                party: *party,
                output,
                branch,
            };
            put_unless(requirements, met, requirement)?;
            put_unauthorised(requirements, config, output, branch, body)
        }
        Guarded::After { body, .. } => put_unauthorised(requirements, config, output, branch, body),
        _ => Ok(()),
    }
}

// The deposits of these names that are gone.
#[tactic(auto, using(std::proofs::Common::append_assoc, crate::proofs::Unmet::unmet_first))]
fn put_gone(
    requirements: &mut Seq<Requirement>,
    config: &Config,
    contract: u32,
    puts: &[Name],
) -> Result<(), OutOfMemory>
    ensures { OnOk result (requirements.new ≡ requirements.old ++ spec.unmet (spec.put_in config.now contract puts.now)) }
{
    for name in puts {
        let met = config.is_bound_there(contract, name);
        put_unless(requirements, met, Requirement::Put(*name))?;
    }
    Ok(())
}

// The party of a precondition's secret of this name.
fn owner_of(pre: &[Pre], secret: &Name) -> Option<Name>
    ensures { result ≡ look_up secret.now (secrets pre.now) }
{
    for entry in pre {
        if let Pre::Secret { party, name } = entry
            && *name == *secret
        {
            return Some(*party);
        }
    }
    None
}

// What is missing of a party's secret.
fn requirement_of(honest: &[Name], contract: u32, party: Name, secret: &Name) -> Requirement
    ensures { result ≡ spec.secret_requirement honest.now contract (Some party) secret.now }
{
    if is_name_among(honest, &party) {
        return Requirement::Secret {
            party,
            contract,
            secret: *secret,
        };
    }
    Requirement::Posted {
        party,
        secret: *secret,
    }
}

// What is missing of a secret that isn't revealed.
fn secret_requirement(honest: &[Name], contract: u32, pre: &[Pre], secret: &Name) -> Requirement
    ensures { result ≡ spec.secret_requirement honest.now contract (look_up secret.now (secrets pre.now)) secret.now }
{
    match owner_of(pre, secret) {
        Some(party) => requirement_of(honest, contract, party, secret),
        None => Requirement::Predicate,
    }
}

// The secrets of these names that aren't revealed.
#[tactic(auto, using(std::proofs::Common::append_assoc, crate::proofs::Unmet::unmet_first))]
fn put_unrevealed(
    requirements: &mut Seq<Requirement>,
    honest: &[Name],
    config: &Config,
    contract: u32,
    pre: &[Pre],
    reveals: &[Name],
) -> Result<(), OutOfMemory>
    ensures { OnOk result (requirements.new ≡ requirements.old ++ spec.unmet (spec.revealed honest.now config.now contract pre.now reveals.now)) }
{
    for name in reveals {
        let met = config.is_revealed(contract, pre, name);
        put_unless(
            requirements,
            met,
            secret_requirement(honest, contract, pre, name),
        )?;
    }
    Ok(())
}

// What is missing for a branch of an active contract of this contract, which has this precondition, where the predicate may hold or
// doesn't.
#[tactic(auto, using(std::proofs::Common::append_assoc, crate::proofs::Unmet::unmet_first, crate::proofs::Unmet::unmet_append))]
fn put_asked(
    requirements: &mut Seq<Requirement>,
    honest: &[Name],
    config: &Config,
    output: u32,
    branch: u32,
    contract: u32,
    pre: &[Pre],
    taken: &Guarded,
    held: bool,
) -> Result<(), OutOfMemory>
    requires { held ≡ spec.undecided_or_true config.now contract pre.now (core_of (guarded taken.now)) }
    ensures { OnOk result (requirements.new ≡ requirements.old
        ++ spec.unmet (spec.asked_for honest.now config.now output branch contract pre.now (guarded taken.now))) }
{
    let height = lock(taken);
    let blocks = height.saturating_sub(config.time());
    let reached = height <= config.time();
    put_unless(
        requirements,
        reached,
        Requirement::Height { height, blocks },
    )?;
    put_unauthorised(requirements, config, output, branch, taken)?;
    put_gone(requirements, config, contract, puts(taken))?;
    put_unrevealed(requirements, honest, config, contract, pre, reveals(taken))?;
    put_unless(requirements, held, Requirement::Predicate)
}

// The same of the branch of this number at the position of an active contract of this contract.
fn put_standing(
    requirements: &mut Seq<Requirement>,
    honest: &[Name],
    config: &Config,
    output: u32,
    branch: u32,
    active: &Active<'_>,
    checked: &Checked,
) -> Result<(), OutOfMemory>
    requires active { parts_of (active_at config.now.active output) ≡ shown (Some active.now) }
    requires contract { contract_at config.now.contracts active.now.contract ≡ Some checked.now }
    ensures { OnOk result (requirements.new ≡ requirements.old ++ spec.unmet
        (spec.asked_by_branch honest.now config.now output branch (active_at config.now.active output) (branch_at config.now output branch))) }
{
    let held = config.may_hold(output, branch);
    let advert = checked.advert();
    match branch_under(&advert.root, active.position, branch) {
        None => Ok(()),
        Some(taken) => {
            let contract = active.contract;
            put_asked(
                requirements,
                honest,
                config,
                output,
                branch,
                contract,
                &advert.pre,
                taken,
                held,
            )
        }
    }
}

/// What is missing for a branch where these parties are honest, nothing where there is no such branch.
pub fn put_branch(
    requirements: &mut Seq<Requirement>,
    honest: &[Name],
    config: &Config,
    output: u32,
    branch: u32,
) -> Result<(), OutOfMemory>
    ensures { OnOk result (requirements.new ≡ requirements.old ++ spec.unmet
        (spec.asked_by_branch honest.now config.now output branch (active_at config.now.active output) (branch_at config.now output branch))) }
{
    let Some(active) = config.contract(output) else {
        return Ok(());
    };
    let Some(checked) = config.checked(active.contract) else {
        return Ok(());
    };
    put_standing(
        requirements,
        honest,
        config,
        output,
        branch,
        &active,
        checked,
    )
}
