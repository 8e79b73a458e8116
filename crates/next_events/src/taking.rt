//! The branches of active contracts: who may authorise them, and that they are taken.

ghost use Rattle.std.specs.Prelude.{◌≡◌, ◌<◌, ◌^◌, ◌++◌, ◌∷◌, [], length, map, flat_map, OnOk};
ghost use Rattle.spec_run.specs.Steps.{is_awaited};
ghost use Rattle.spec_next.specs.Candidates as spec;
ghost use Rattle.bm_syntax.specs.View.{guarded};

use bm_calculus::Config;
use bm_offers::branches_of;
use bm_syntax::{Guarded, asks};
use spec_calculus::ActiveContract;
use spec_data::{Name, OutOfMemory, Seq};
use spec_run::Event;
use std::marker::Model;

// Whether the branch waits for this party.
fn is_awaited(config: &Config, output: u32, branch: u32, taken: &Guarded, party: &Name) -> bool
    ensures { result ≡ is_awaited config.now output branch (guarded taken.now) party.now }
{
    let asked = asks(taken, party);
    let authorised = config.has_branch_authorised(output, branch, party);
    asked && !authorised
}

// Adds the authorisations of a branch by those of these people for whom it waits.
#[tactic(auto, using(std::proofs::Common::append_assoc))]
fn put_authorising(
    found: &mut Seq<Event>,
    config: &Config,
    people: &[Name],
    output: u32,
    branch: u32,
    taken: &Guarded,
) -> Result<(), OutOfMemory>
    ensures { OnOk result (found.new
        ≡ found.old ++ spec.authorising config.now people.now output branch (guarded taken.now)) }
{
    for party in people {
        if is_awaited(config, output, branch, taken, party) {
            found.push(Event::Authorise {
                party: *party,
                output,
                branch,
            })?;
        }
    }
    Ok(())
}

// Adds what a branch waits for, and that it is taken.
#[tactic(auto, using(std::proofs::Common::append_assoc))]
fn put_taking(
    found: &mut Seq<Event>,
    config: &Config,
    people: &[Name],
    output: u32,
    branch: u32,
    taken: &Guarded,
) -> Result<(), OutOfMemory>
    ensures { OnOk result (found.new
        ≡ found.old ++ spec.taking config.now people.now output branch (guarded taken.now ∷ [])) }
{
    put_authorising(found, config, people, output, branch, taken)?;
    found.push(Event::Fire { output, branch })?;
    Ok(())
}

// The same of these branches.
#[tactic(auto, using(std::proofs::Common::append_assoc, crate::proofs::Takings::taking_first))]
fn put_takings(
    found: &mut Seq<Event>,
    config: &Config,
    people: &[Name],
    output: u32,
    branches: &[Guarded],
) -> Result<(), OutOfMemory>
    requires { length branches.now < 2 ^ 32 }
    ensures { OnOk result (found.new
        ≡ found.old ++ spec.taking config.now people.now output 0 (map guarded branches.now)) }
{
    let mut branch = 0;
    for taken in branches {
        put_taking(found, config, people, output, branch, taken)?;
        branch += 1;
    }
    Ok(())
}

/// Adds what the branches of the active contracts of a contract wait for, and that they are taken.
#[tactic(auto, using(std::proofs::Common::append_assoc))]
pub fn put_actives(
    found: &mut Seq<Event>,
    config: &Config,
    people: &[Name],
    contract: u32,
) -> Result<(), OutOfMemory>
    ensures { OnOk result (found.new
        ≡ found.old ++ flat_map (spec.taking_active config.now people.now) (spec.actives_of config.now contract)) }
{
    for active in config.active() {
        if active.contract == contract {
            let branches = branches_of(config, active);
            put_takings(found, config, people, active.number, branches)?;
        }
    }
    Ok(())
}
