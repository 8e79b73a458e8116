//! All offers of a configuration, in their order.

ghost use Rattle.std.specs.Prelude.{◌≡◌, ◌<◌, ◌^◌, ◌++◌, ◌∷◌, [], List, length, map, IfOk, OnOk};
ghost use Rattle.std.specs.List.{Contains};
ghost use Rattle.spec_terms.specs.Core.{core as core_of};
ghost use Rattle.spec_calculus.specs.Offers as spec;
ghost use Rattle.spec_run.specs.Setup.{Setup};
ghost use Rattle.spec_run.specs.declared.event.Event.{Event as Happening};
ghost use Rattle.spec_run.specs.Offers.{Offer as Offered, offers as all_offers};
ghost use Rattle.spec_run.specs.HaveEvents.{HasEvents};
ghost use Rattle.spec_run.specs.Translation.{last_configuration, last_world};
ghost use Rattle.spec_run.specs.Statements.{IsRun, IsKept};
ghost use Rattle.bm_syntax.specs.View.{guarded};
ghost use Rattle.bm_offers.specs.Offered.{offered};

use crate::branches::branches_of;
use crate::stepping::{Offer, add, step_of};
use bm_calculus::Config;
use bm_syntax::{Guarded, core};
use bm_wellformed::Checked;
use spec_calculus::{ActiveContract, Step};
use spec_data::OutOfMemory;
use spec_run::Event;
use std::alloc::Global;
use theory_offers::{offers_have_events, offers_theorem};

// Offers the beginning of each contract that may begin.
#[tactic(auto, using(crate::proofs::Steps::cons_offered))]
fn add_beginnings(
    found: &mut Vec<Offer>,
    config: &Config,
    contracts: &[Checked],
) -> Result<(), OutOfMemory>
    requires { length contracts.now < 2 ^ 32 }
    ensures { OnOk result (found.new.items ≡ found.old.items ++ offered config.now (spec.beginnings 0 contracts.now)) }
{
    let mut contract = 0;
    for _checked in contracts {
        add(
            found,
            config,
            Step::Init { contract },
            Event::FireInit { contract },
        )?;
        contract += 1;
    }
    Ok(())
}

// Offers the branch, if it may be taken.
fn add_taking(
    found: &mut Vec<Offer>,
    config: &Config,
    output: u32,
    branch: u32,
    taken: &Guarded,
) -> Result<(), OutOfMemory>
    ensures { OnOk result (found.new.items
        ≡ found.old.items ++ offered config.now (spec.taking output branch (core_of (guarded taken.now)))) }
{
    match step_of(output, branch, core(taken)) {
        Some(step) => add(found, config, step, Event::Fire { output, branch }),
        None => Ok(()),
    }
}

// Offers those of an active contract's branches that may be taken.
#[tactic(auto, using(crate::proofs::Steps::both_offered))]
fn add_takings(
    found: &mut Vec<Offer>,
    config: &Config,
    output: u32,
    branches: &[Guarded],
) -> Result<(), OutOfMemory>
    requires { length branches.now < 2 ^ 32 }
    ensures { OnOk result (found.new.items ≡ found.old.items ++ offered config.now (spec.takings output 0 (map guarded branches.now))) }
{
    let mut branch = 0;
    for taken in branches {
        add_taking(found, config, output, branch, taken)?;
        branch += 1;
    }
    Ok(())
}

// Offers the branches of the active contracts that may be taken.
#[tactic(auto, using(crate::proofs::Steps::both_offered))]
fn add_all_takings(
    found: &mut Vec<Offer>,
    config: &Config,
    active: &[ActiveContract],
) -> Result<(), OutOfMemory>
    ensures { OnOk result (found.new.items ≡ found.old.items ++ offered config.now (spec.all_takings config.now.contracts active.now)) }
{
    for contract in active {
        add_takings(
            found,
            config,
            contract.number,
            branches_of(config, contract),
        )?;
    }
    Ok(())
}

/// Every contract step that may be taken now and no other, each once and with the event that it is taken by: beginnings by contract, then
/// the others by output and branch. After a run each has a compiled transaction that the ledger accepts, and its event leads to its step. The
/// cost is that of asking whether each beginning, and each branch of each active contract, may be taken.
#[tactic(auto, using(crate::proofs::Steps::both_offered))]
pub fn offers(alloc: Global, config: &Config) -> Result<Vec<Offer>, OutOfMemory>
    requires { length config.now.contracts < 2 ^ 32 }
    ensures listed { IfOk result (λ v. v.items ≡ all_offers config.now) }
    ensures complete { IfOk result (λ v. HasEvents config.now v.items) }
    ensures kept { IfOk result (λ v. (s : Setup) (es : List Happening) → IsRun s es → config.now ≡ last_configuration s es
        → (offer : Offered) → Contains v.items offer → IsKept s config.now (last_world s es) offer) }
{
    offers_have_events();
    offers_theorem();
    let mut found = Vec::new(alloc);
    add_beginnings(&mut found, config, config.contracts())?;
    add_all_takings(&mut found, config, config.active())?;
    Ok(found)
}
