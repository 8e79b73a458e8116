//! Steps that are taken.

ghost use Rattle.std.specs.Prelude.{◌≡◌, ◌+◌, ◌<◌, ◌^◌, OnOk};
ghost use Rattle.spec_calculus.specs.Steps as calculus;
ghost use Rattle.bm_translate_course.specs.Passing.{inits_after, asked_after, after_step, after_all};

use bm_calculus::{Config, StepError};
use bm_translate::{Running, has_authorised, may_take};
use spec_calculus::{BranchAuthorisation, InitAuthorisation, Step};
use spec_data::{Name, OutOfMemory, Seq};
use std::alloc::AllocError;

// The contract may take this deposit too.
fn put_init(
    inits: &mut Seq<InitAuthorisation>,
    contract: u32,
    deposit: &Name,
) -> Result<(), OutOfMemory>
    ensures { OnOk result (inits.new ≡ calculus.with_init inits.old contract deposit.now) }
{
    if may_take(inits.as_slice(), contract, deposit) {
        return Ok(());
    }
    inits.push(InitAuthorisation {
        contract,
        deposit: *deposit,
    })?;
    Ok(())
}

// The party has authorised this branch too.
fn put_asked(
    asked: &mut Seq<BranchAuthorisation>,
    party: &Name,
    output: u32,
    branch: u32,
) -> Result<(), OutOfMemory>
    ensures { OnOk result (asked.new ≡ calculus.with_branch asked.old party.now output branch) }
{
    if has_authorised(asked.as_slice(), output, branch, party) {
        return Ok(());
    }
    asked.push(BranchAuthorisation {
        party: *party,
        output,
        branch,
    })?;
    Ok(())
}

// The deposits that contracts may take, after a step.
fn note_init(inits: &mut Seq<InitAuthorisation>, step: &Step) -> Result<(), OutOfMemory>
    ensures { OnOk result (inits.new ≡ inits_after inits.old step.now) }
{
    match step {
        Step::AuthInit {
            contract,
            deposit,
            ..
        } => put_init(inits, *contract, deposit),
        _ => Ok(()),
    }
}

// The branches that are authorised, after a step.
fn note_asked(asked: &mut Seq<BranchAuthorisation>, step: &Step) -> Result<(), OutOfMemory>
    ensures { OnOk result (asked.new ≡ asked_after asked.old step.now) }
{
    match step {
        Step::AuthBranch {
            party,
            output,
            branch,
        } => put_asked(asked, party, *output, *branch),
        _ => Ok(()),
    }
}

/// The configuration after a step that may be taken.
pub(crate) fn apply(config: &mut Config, step: &Step) -> Result<(), OutOfMemory>
    requires enabled { calculus.fails config.old step.now ≡ 0 }
    requires room { config.old.next + calculus.names_made config.old step.now < 2 ^ 32 }
    ensures { OnOk result (config.new ≡ calculus.effect config.old step.now) }
{
    match config.apply(step) {
        Ok(()) => Ok(()),
        Err(StepError::NotEnabled(_)) => unreachable!(),
        Err(StepError::Memory) => Err(AllocError),
    }
}

// Takes a step.
fn take_step(running: &mut Running, step: &Step) -> Result<(), OutOfMemory>
    requires enabled { calculus.fails running.old.config step.now ≡ 0 }
    requires room { running.old.config.next + calculus.names_made running.old.config step.now < 2 ^ 32 }
    ensures { OnOk result (running.new ≡ after_step running.old step.now) }
{
    note_init(&mut running.inits, step)?;
    note_asked(&mut running.asked, step)?;
    apply(&mut running.config, step)?;
    Ok(())
}

/// Takes these steps, one after another.
pub(crate) fn take_steps(running: &mut Running, given: &[Step]) -> Result<(), OutOfMemory>
    requires legal { calculus.Legal running.old.config given.now }
    requires room { (calculus.after_steps running.old.config given.now).next < 2 ^ 32 }
    ensures { OnOk result (running.new ≡ after_all running.old given.now) }
{
    for step in given {
        take_step(running, step)?;
    }
    Ok(())
}
