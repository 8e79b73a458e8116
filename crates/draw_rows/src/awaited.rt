//! On whom something waits at a moment of a run.

ghost use Rattle.std.specs.Prelude.{◌≡◌, ◌++◌, ◌∷◌, [], map, filter, flat_map, option_map, IfOk, OnOk};
ghost use Rattle.std.specs.List.{list_any};
ghost use Rattle.spec_next.specs.Prospects as prospects;
ghost use Rattle.spec_next.specs.Candidates as candidates;
ghost use Rattle.spec_page.specs.Outlooks as spec;
ghost use Rattle.bm_syntax.specs.View.{guarded};
ghost use Rattle.draw_rows.specs.Settings.{setup_in};

use crate::figures::plus;
use crate::moments::Moment;
use crate::possible::actives_of;
use crate::setting::Setting;
use crate::standing::{has_begun, is_barred};
use bm_calculus::Config;
use bm_offers::branches_of;
use bm_syntax::Guarded;
use bm_wellformed::Checked;
use next_events::{is_any_never, put_agreed, put_branch, put_started};
use spec_calculus::ActiveContract;
use spec_data::{Bytes, Name, OutOfMemory, Seq};
use spec_next::Requirement;
use std::alloc::Global;
use std::marker::Model;

// ---- what is missing

#[tactic(auto, using(std::proofs::Common::append_assoc))]
fn put_all(lacks: &mut Seq<Requirement>, more: &[Requirement]) -> Result<(), OutOfMemory>
    ensures { OnOk result (lacks.new ≡ lacks.old ++ more.now) }
{
    for requirement in more {
        lacks.push(requirement.copy())?;
    }
    Ok(())
}

// Where something never comes, nothing else is missing.
fn put_unless_never(lacks: &mut Seq<Requirement>, more: &[Requirement]) -> Result<(), OutOfMemory>
    ensures { OnOk result (lacks.new ≡ lacks.old ++ spec.unless_never more.now) }
{
    if is_any_never(more) {
        return Ok(());
    }
    put_all(lacks, more)
}

// What a branch lacks.
fn put_branch_lacks(
    alloc: Global,
    lacks: &mut Seq<Requirement>,
    honest: &[Name],
    config: &Config,
    output: u32,
    branch: u32,
) -> Result<(), OutOfMemory>
    ensures { OnOk result (lacks.new ≡ lacks.old ++ spec.branch_lacks honest.now config.now output branch) }
{
    let mut more = Seq::new(alloc);
    put_branch(&mut more, honest, config, output, branch)?;
    put_unless_never(lacks, more.as_slice())
}

#[tactic(auto, using(std::proofs::Common::append_assoc))]
fn put_branches_lack(
    alloc: Global,
    lacks: &mut Seq<Requirement>,
    honest: &[Name],
    config: &Config,
    output: u32,
    branches: &[Guarded],
) -> Result<(), OutOfMemory>
    ensures { OnOk result (lacks.new ≡ lacks.old
        ++ spec.branches_lack honest.now config.now output 0 (map guarded branches.now)) }
{
    let mut branch = 0u32;
    for _taken in branches {
        put_branch_lacks(alloc, lacks, honest, config, output, branch)?;
        branch = plus(branch, 1)?;
    }
    Ok(())
}

#[tactic(auto, using(std::proofs::Common::append_assoc))]
fn put_actives_lack(
    alloc: Global,
    lacks: &mut Seq<Requirement>,
    honest: &[Name],
    config: &Config,
    actives: &[ActiveContract],
) -> Result<(), OutOfMemory>
    ensures { OnOk result (lacks.new ≡ lacks.old ++ flat_map (spec.active_lacks honest.now config.now) actives.now) }
{
    for active in actives {
        let branches = branches_of(config, active);
        put_branches_lack(alloc, lacks, honest, config, active.number, branches)?;
    }
    Ok(())
}

// What a contract lacks that has begun.
fn put_going_lacks(
    alloc: Global,
    lacks: &mut Seq<Requirement>,
    honest: &[Name],
    config: &Config,
    contract: u32,
) -> Result<(), OutOfMemory>
    ensures { OnOk result (lacks.new ≡ lacks.old
        ++ flat_map (spec.active_lacks honest.now config.now) (candidates.actives_of config.now contract)) }
{
    let actives = actives_of(alloc, config, contract)?;
    put_actives_lack(alloc, lacks, honest, config, &actives)
}

// What one lacks that hasn't.
#[tactic(auto, using(std::proofs::Common::append_assoc, next_events::proofs::Unmet::unmet_append))]
fn put_beginning_lacks(
    lacks: &mut Seq<Requirement>,
    config: &Config,
    contract: u32,
    checked: &Checked,
) -> Result<(), OutOfMemory>
    ensures { OnOk result (lacks.new ≡ lacks.old ++ spec.beginning_lacks config.now contract checked.now) }
{
    put_agreed(lacks, config, contract)?;
    put_started(lacks, config, contract, &checked.advert().pre)
}

fn put_contract_lacks(
    alloc: Global,
    lacks: &mut Seq<Requirement>,
    setting: &Setting,
    moment: &Moment,
    contract: u32,
    checked: &Checked,
) -> Result<(), OutOfMemory>
    ensures { OnOk result (lacks.new ≡ lacks.old
        ++ spec.contract_lacks (setup_in setting.now) moment.now contract checked.now) }
{
    let honest = setting.header.honest.as_slice();
    if has_begun(moment, contract) {
        return put_going_lacks(alloc, lacks, honest, &moment.config, contract);
    }
    if is_barred(moment, contract) {
        return Ok(());
    }
    put_beginning_lacks(lacks, &moment.config, contract, checked)
}

#[tactic(auto, using(std::proofs::Common::append_assoc))]
fn all_lacks(
    alloc: Global,
    setting: &Setting,
    moment: &Moment,
) -> Result<Seq<Requirement>, OutOfMemory>
    ensures { IfOk result (λ lacks. lacks
        ≡ spec.lacks_from (setup_in setting.now) moment.now 0 setting.now.contracts.now) }
{
    let mut lacks = Seq::new(alloc);
    let mut contract = 0u32;
    for checked in setting.contracts {
        put_contract_lacks(alloc, &mut lacks, setting, moment, contract, checked)?;
        contract = plus(contract, 1)?;
    }
    Ok(lacks)
}

// ---- for whom

// The party that is to give what is missing.
fn giver(requirement: &Requirement) -> Option<&Name>
    ensures { option_map (λ n. n.now) result ≡ prospects.awaited requirement.now }
{
    match requirement {
        Requirement::Digest { party, .. } => Some(party),
        Requirement::Commitment { party, .. } => Some(party),
        Requirement::Endorsement { party, .. } => Some(party),
        Requirement::Start { party, .. } => Some(party),
        Requirement::Authorisation { party, .. } => Some(party),
        Requirement::Secret { party, .. } => Some(party),
        Requirement::Posted { party, .. } => Some(party),
        _ => None,
    }
}

fn is_for(requirement: &Requirement, party: &Name) -> bool
    ensures { result ≡ prospects.is_for requirement.now party.now }
{
    match giver(requirement) {
        Some(name) => *name == *party,
        None => false,
    }
}

fn is_one_for(lacks: &[Requirement], party: &Name) -> bool
    ensures { result ≡ list_any (λ requirement. prospects.is_for requirement party.now) lacks.now }
{
    lacks.iter().any(|requirement| is_for(requirement, party))
}

// The party, if something waits on it.
fn put_awaited(
    alloc: Global,
    names: &mut Vec<Bytes>,
    lacks: &[Requirement],
    party: &Name,
) -> Result<(), OutOfMemory>
    ensures { OnOk result (names.new.items ≡ names.old.items ++ spec.awaited_of (party.now ∷ []) lacks.now) }
{
    if !is_one_for(lacks, party) {
        return Ok(());
    }
    let name = Bytes::from_slice(alloc, party.bytes())?;
    names.push(name)?;
    Ok(())
}

#[tactic(auto, using(std::proofs::Common::append_assoc, crate::proofs::Firsts::awaited_first))]
fn awaited_of(
    alloc: Global,
    people: &[Name],
    lacks: &[Requirement],
) -> Result<Vec<Bytes>, OutOfMemory>
    ensures { IfOk result (λ names. names.items ≡ spec.awaited_of people.now lacks.now) }
{
    let mut names = Vec::new(alloc);
    for party in people {
        put_awaited(alloc, &mut names, lacks, party)?;
    }
    Ok(names)
}

/// Those of the setting's parties on whom something waits.
pub(crate) fn awaited(
    alloc: Global,
    setting: &Setting,
    moment: &Moment,
) -> Result<Vec<Bytes>, OutOfMemory>
    ensures { IfOk result (λ names. names.items ≡ spec.awaited_of setting.now.parties.now
        (spec.lacks_from (setup_in setting.now) moment.now 0 setting.now.contracts.now)) }
{
    let lacks = all_lacks(alloc, setting, moment)?;
    awaited_of(alloc, setting.parties, lacks.as_slice())
}
