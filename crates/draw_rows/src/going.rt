//! What can be done of a contract that has begun.

ghost use Rattle.std.specs.Prelude.{◌≡◌, ◌<◌, ◌++◌, ◌∷◌, [], map, filter, flat_map, ◌&&◌, IfOk, OnOk};
ghost use Rattle.spec_terms.specs.Precondition.{secrets};
ghost use Rattle.spec_calculus.specs.Offers.{is_enabled};
ghost use Rattle.spec_calculus.specs.declared.step.Step.TheVariants as steps;
ghost use Rattle.spec_run.specs.Steps as run;
ghost use Rattle.spec_page.specs.EventWords as words;
ghost use Rattle.spec_page.specs.Statuses as statuses;
ghost use Rattle.spec_page.specs.Outlooks as spec;
ghost use Rattle.bm_syntax.specs.View.{guarded};
ghost use Rattle.draw_rows.specs.Signing.{agreeing};

use crate::figures::plus;
use crate::places::{Taking, at_branch};
use crate::view::{View, is_allowed, put_fire};
use crate::words::{put_agrees, put_shows};
use bm_calculus::Config;
use bm_offers::branches_of;
use bm_syntax::{Guarded, asks};
use bm_wellformed::Checked;
use spec_calculus::{ActiveContract, Step};
use spec_data::{Bytes, Name, OutOfMemory};
use spec_terms::Pre;
use std::alloc::Global;
use std::marker::Model;

fn shows(alloc: Global, party: &Name, secret: &Name) -> Result<Bytes, OutOfMemory>
    ensures { IfOk result (λ text. text ≡ words.shows_text party.now secret.now) }
{
    let mut text = Vec::new(alloc);
    put_shows(&mut text, party, secret)?;
    Ok(Bytes::of(text))
}

// Whether a party's secret can be revealed.
fn may_reveal(config: &Config, contract: u32, party: &Name, secret: &Name) -> bool
    ensures { result ≡ is_enabled config.now (steps.Reveal contract party.now secret.now) }
{
    let step = Step::Reveal {
        contract,
        party: *party,
        secret: *secret,
    };
    is_allowed(config, &step)
}

// The secrets that can be revealed.
#[tactic(auto, using(std::proofs::Common::append_assoc))]
fn put_reveals(
    alloc: Global,
    found: &mut Vec<Bytes>,
    config: &Config,
    contract: u32,
    pre: &[Pre],
) -> Result<(), OutOfMemory>
    ensures { OnOk result (found.new.items ≡ found.old.items ++ map (λ x. words.shows_text (x.1) (x.0))
        (filter (λ x. is_enabled config.now (steps.Reveal contract (x.1) (x.0))) (secrets pre.now))) }
{
    for entry in pre {
        if let Pre::Secret { party, name } = entry {
            if may_reveal(config, contract, party, name) {
                let text = shows(alloc, party, name)?;
                found.push(text)?;
            }
        }
    }
    Ok(())
}

// Whether a branch waits for this party.
fn is_awaited(config: &Config, output: u32, branch: u32, taken: &Guarded, party: &Name) -> bool
    ensures { result ≡ run.is_awaited config.now output branch (guarded taken.now) party.now }
{
    let asked = asks(taken, party);
    let authorised = config.has_branch_authorised(output, branch, party);
    asked && !authorised
}

fn agrees(alloc: Global, several: bool, taking: &Taking, party: &Name) -> Result<Bytes, OutOfMemory>
    ensures { IfOk result (λ text. text ≡ spec.agree_text several taking.now party.now) }
{
    let mut text = Vec::new(alloc);
    put_agrees(alloc, &mut text, several, party, taking)?;
    Ok(Bytes::of(text))
}

// That a party agrees, if the branch waits for it.
fn put_agreeing_one(
    alloc: Global,
    found: &mut Vec<Bytes>,
    several: bool,
    config: &Config,
    output: u32,
    branch: u32,
    taken: &Guarded,
    taking: &Taking,
    party: &Name,
) -> Result<(), OutOfMemory>
    ensures { OnOk result (found.new.items ≡ found.old.items
        ++ agreeing several config.now output branch (guarded taken.now) taking.now (party.now ∷ [])) }
{
    if !is_awaited(config, output, branch, taken, party) {
        return Ok(());
    }
    let text = agrees(alloc, several, taking, party)?;
    found.push(text)?;
    Ok(())
}

#[tactic(auto, using(std::proofs::Common::append_assoc, crate::proofs::Firsts::agree_first))]
fn put_agreeing(
    alloc: Global,
    found: &mut Vec<Bytes>,
    several: bool,
    config: &Config,
    people: &[Name],
    output: u32,
    branch: u32,
    taken: &Guarded,
    taking: &Taking,
) -> Result<(), OutOfMemory>
    ensures { OnOk result (found.new.items ≡ found.old.items
        ++ agreeing several config.now output branch (guarded taken.now) taking.now people.now) }
{
    for party in people {
        put_agreeing_one(
            alloc, found, several, config, output, branch, taken, taking, party,
        )?;
    }
    Ok(())
}

// A branch of an active contract: those of these people who are asked agree, and then it is taken.
#[tactic(auto, using(std::proofs::Common::append_assoc))]
fn put_branch(
    alloc: Global,
    found: &mut Vec<Bytes>,
    several: bool,
    view: &View,
    people: &[Name],
    active: &ActiveContract,
    branch: u32,
    taken: &Guarded,
) -> Result<(), OutOfMemory>
    requires { view.now.offered.now ≡ statuses.offered view.now.moment.now }
    ensures { OnOk result (found.new.items ≡ found.old.items
        ++ spec.branch_words several view.now.moment.now people.now active.now branch (guarded taken.now)) }
{
    let moment = view.moment;
    let config = &moment.config;
    let taking = at_branch(alloc, active.contract, &active.position, branch)?;
    let output = active.number;
    put_agreeing(
        alloc, found, several, config, people, output, branch, taken, &taking,
    )?;
    put_fire(alloc, found, several, view, &taking)
}

#[tactic(auto, using(std::proofs::Common::append_assoc))]
fn put_branches(
    alloc: Global,
    found: &mut Vec<Bytes>,
    several: bool,
    view: &View,
    people: &[Name],
    active: &ActiveContract,
    branches: &[Guarded],
) -> Result<(), OutOfMemory>
    requires { view.now.offered.now ≡ statuses.offered view.now.moment.now }
    ensures { OnOk result (found.new.items ≡ found.old.items
        ++ spec.branches_words several view.now.moment.now people.now active.now 0 (map guarded branches.now)) }
{
    let mut branch = 0u32;
    for taken in branches {
        put_branch(alloc, found, several, view, people, active, branch, taken)?;
        branch = plus(branch, 1)?;
    }
    Ok(())
}

#[tactic(auto, using(std::proofs::Common::append_assoc))]
fn put_actives(
    alloc: Global,
    found: &mut Vec<Bytes>,
    several: bool,
    view: &View,
    people: &[Name],
    actives: &[ActiveContract],
) -> Result<(), OutOfMemory>
    requires { view.now.offered.now ≡ statuses.offered view.now.moment.now }
    ensures { OnOk result (found.new.items ≡ found.old.items
        ++ flat_map (spec.active_words several view.now.moment.now people.now) actives.now) }
{
    let moment = view.moment;
    for active in actives {
        let branches = branches_of(&moment.config, active);
        put_branches(alloc, found, several, view, people, active, branches)?;
    }
    Ok(())
}

// Nothing comes of secrets where nothing is left of the contract.
#[tactic(auto, using(std::proofs::Common::append_assoc))]
pub(crate) fn put_going(
    alloc: Global,
    found: &mut Vec<Bytes>,
    several: bool,
    view: &View,
    contract: u32,
    checked: &Checked,
    actives: &[ActiveContract],
) -> Result<(), OutOfMemory>
    requires { view.now.offered.now ≡ statuses.offered view.now.moment.now }
    ensures { OnOk result (found.new.items ≡ found.old.items
        ++ spec.going_words several view.now.moment.now contract checked.now actives.now) }
{
    match actives.split_first() {
        None => Ok(()),
        Some(_) => {
            let moment = view.moment;
            let pre = &checked.advert().pre;
            put_reveals(alloc, found, &moment.config, contract, pre)?;
            put_actives(alloc, found, several, view, checked.parties(), actives)
        }
    }
}
