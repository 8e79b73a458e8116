//! Blocks that come: an event that posts nothing, and whose one step says as much.

ghost use Rattle.std.specs.Prelude.{◌≡◌, ◌≢◌, ℕ, ◌<◌, ◌^◌, ◌∷◌, [], IfOk, IfNone, IfSome, OnOk};
ghost use Rattle.spec_calculus.specs.Steps as calculus;
ghost use Rattle.spec_calculus.specs.declared.step.Step.TheVariants as steps;
ghost use Rattle.spec_run.specs.declared.event.Event.TheVariants as events;
ghost use Rattle.spec_run.specs.declared.outcome.Outcome.TheVariants as outcomes;
ghost use Rattle.bm_translate_course.specs.Passing.{after_step};

use crate::taking::apply;
use bm_translate::Running;
use spec_calculus::Step;
use spec_data::OutOfMemory;
use spec_run::{Event, Outcome, Record};

/// How many blocks an event let come, if it was that.
pub(crate) fn blocks_of(recorded: &Record) -> Option<u32>
    ensures event { IfSome result (λ blocks. recorded.now.event ≡ events.Mine blocks) }
    ensures outcome { IfSome result (λ _. recorded.now.outcome ≡ outcomes.Done) }
    ensures none { IfNone result ((blocks : ℕ) → recorded.now.event ≡ events.Mine blocks → recorded.now.outcome ≢ outcomes.Done) }
{
    match (&recorded.event, &recorded.outcome) {
        (Event::Mine { blocks }, Outcome::Done) => Some(*blocks),
        _ => None,
    }
}

/// The step of so many blocks, in the room of an empty list. It is taken.
pub(crate) fn pass_blocks(
    room: Vec<Step>,
    running: &mut Running,
    blocks: u32,
) -> Result<Vec<Step>, OutOfMemory>
    requires room { room.items ≡ [] }
    requires enabled { calculus.fails running.old.config (steps.Delay blocks) ≡ 0 }
    requires few { running.old.config.next < 2 ^ 32 }
    ensures made { IfOk result (λ made. made.items ≡ steps.Delay blocks ∷ []) }
    ensures running { OnOk result (running.new ≡ after_step running.old (steps.Delay blocks)) }
{
    let mut made = room;
    let step = Step::Delay { blocks };
    apply(&mut running.config, &step)?;
    made.push(step)?;
    Ok(made)
}
