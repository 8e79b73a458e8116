//! What a run came to at a moment.

ghost use Rattle.std.specs.Prelude.{◌≡◌, ◌+◌, ◌<◌, ◌^◌, [], length, option_map, Some, true, OnOk};
ghost use Rattle.spec_calculus.specs.Branches.{values_of, values_in, part_values};
ghost use Rattle.spec_calculus.specs.Steps as calculus;
ghost use Rattle.spec_page.specs.Moments as spec;
ghost use Rattle.bm_syntax.specs.View.{guarded, parts_view};
ghost use Rattle.draw_rows.specs.Turns.{after_entry};

use crate::places::{Agreement, Place, Taking, add_active, put_agreements, put_takings};
use bm_calculus::{Config, StepError};
use bm_syntax::{Guarded, Part, branch_at, core};
use spec_calculus::Step;
use spec_data::OutOfMemory;
use std::alloc::{AllocError, Global};
use std::marker::Model;

/// The configuration, all outputs that stand for a position, or did, and the transactions that were taken and agreed to.
pub struct Moment {
    pub config: Config,
    pub places: Vec<Place>,
    pub taken: Vec<Taking>,
    pub agreed: Vec<Agreement>,
}

impl Model for Moment {
    ghost use Rattle.std.specs.Coded.{codes};
    ghost use Rattle.spec_terms.specs.TermCode.{coded_choice};
    ghost use Rattle.spec_page.specs.Moments.{Moment as Plain};

    ghost Value = { Plain };

    ghost coded = { Prim.hlevel (codes, coded_choice) };

    ghost view = { λ m. record {
      configuration = m.config;
      places = m.places.items;
      taken = m.taken.items;
      agreed = m.agreed.items;
    } };
}

impl Drop for Moment {
    fn drop(self) {
        let Moment {
            config: _,
            places: _,
            taken: _,
            agreed: _,
        } = self;
    }
}

/// Before any event.
pub(crate) fn first_moment(alloc: Global, config: Config) -> Moment
    ensures { result ≡ record { configuration = config; places = []; taken = []; agreed = [] } }
{
    Moment {
        config,
        places: Vec::new(alloc),
        taken: Vec::new(alloc),
        agreed: Vec::new(alloc),
    }
}

// ---- steps

// The parts that a core divides the balance into.
fn parts(core: &Guarded) -> &[Part]
    ensures { part_values (parts_view result.now) ≡ values_in (guarded core.now) }
{
    match core {
        Guarded::Split { parts } => parts,
        _ => &[],
    }
}

// How many parts a branch divides the balance into.
#[tactic(auto, using(bm_calculus::proofs::Parts::values_length))]
fn parts_of(branch: &Guarded) -> usize
    ensures { result ≡ length (values_of (Some (guarded branch.now))) }
{
    parts(core(branch)).len()
}

// The same, where there is one.
fn parts_in(branch: Option<&Guarded>) -> usize
    ensures { result ≡ length (values_of (option_map (λ b. guarded b.now) branch.entry)) }
{
    match branch {
        None => 0,
        Some(branch) => parts_of(branch),
    }
}

// The branch of this number of an active contract.
fn taken_branch(config: &Config, output: u32, branch: u32) -> Option<&Guarded>
    ensures { option_map (λ b. guarded b.now) result ≡ calculus.branch_at config.now output branch }
{
    let active = config.contract(output)?;
    let checked = config.checked(active.contract)?;
    branch_at(&checked.advert().root, active.position, branch)
}

// How many deposits and contracts a step makes.
fn names_made(config: &Config, step: &Step) -> usize
    ensures { result ≡ calculus.names_made config.now step.now }
{
    match step {
        Step::Move { action } => action.outputs.len(),
        Step::Init { .. } => 1,
        Step::PutReveal { .. } => 1,
        Step::Withdraw { .. } => 1,
        Step::Split { output, branch } => parts_in(taken_branch(config, *output, *branch)),
        _ => 0,
    }
}

// Whether there are names for so many more.
fn has_room(next: u32, made: usize) -> bool
    ensures { result ≡ true → next + made < 2 ^ 32 }
{
    made <= (u32::MAX - next) as usize
}

// Takes a step. The steps of a run may all be taken, so one that may not counts as out of memory, and so do more names than there are.
fn apply(config: &mut Config, step: &Step) -> Result<(), OutOfMemory>
    ensures { OnOk result (config.new ≡ calculus.effect config.old step.now) }
{
    let made = names_made(config, step);
    if !has_room(config.next(), made) {
        return Err(AllocError);
    }
    match config.apply(step) {
        Ok(()) => Ok(()),
        Err(StepError::NotEnabled(_)) => Err(AllocError),
        Err(StepError::Memory) => Err(AllocError),
    }
}

fn apply_all(config: &mut Config, steps: &[Step]) -> Result<(), OutOfMemory>
    ensures { OnOk result (config.new ≡ calculus.after_steps config.old steps.now) }
{
    for step in steps {
        apply(config, step)?;
    }
    Ok(())
}

/// What an event with these steps leaves.
pub(crate) fn pass(alloc: Global, moment: &mut Moment, steps: &[Step]) -> Result<(), OutOfMemory>
    ensures { OnOk result (moment.new
        ≡ spec.after_steps_to moment.old steps.now (calculus.after_steps moment.old.configuration steps.now)) }
{
    put_takings(alloc, &mut moment.taken, &moment.places, steps)?;
    put_agreements(alloc, &mut moment.agreed, &moment.places, steps)?;
    apply_all(&mut moment.config, steps)?;
    add_active(alloc, &mut moment.places, moment.config.active())?;
    Ok(())
}
