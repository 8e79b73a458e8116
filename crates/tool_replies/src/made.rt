//! What `make` replies to a run that was made.

ghost use Rattle.std.specs.Prelude.{◌≡◌, ◌≤◌, length, None, IfOk};
ghost use Rattle.spec_data.specs.Ranges.{most_contracts};
ghost use Rattle.spec_run.specs.Translation as run_of;
ghost use Rattle.spec_text.specs.Limits.{most_events};
ghost use Rattle.spec_text.specs.PlanText as spec;
ghost use Rattle.theory_text.specs.RunFiles.{IsReadRun};
ghost use Rattle.spec_tool.specs.Commands.{prints, run_answer, setup_of};
ghost use Rattle.spec_tool.specs.Replies.{printed};
ghost use Rattle.bm_translate_course.specs.Courses.{events_of};
ghost use Rattle.bm_world.specs.Playing.{setup_in};
ghost use Rattle.tool_replies.specs.Whole.{IsLeft};
ghost use Rattle.tool_replies.specs.Counted.{run_counts};

use crate::halting::halt_reply;
use crate::last::{leak, play_to_end};
use bm_hash::Hash32;
use bm_plan::counts_text;
use bm_translate_course::{Counted, count_steps};
use bm_wellformed::Checked;
use bm_world::World;
use spec_data::OutOfMemory;
use spec_run::Run;
use spec_tool::Reply;
use std::alloc::Global;
use tool_shows::live_outputs;

// The counts of the run that left this world and is this in the calculus. Its events are those of the trace.
fn counts<H: Hash32 + Drop>(
    alloc: Global,
    world: &World<H>,
    made: &Counted,
) -> Result<Vec<u8>, OutOfMemory>
    requires left { IsLeft H.digest_of (setup_in H.digest_of world.now) (events_of world.now.trace) world.now None }
    requires steps { made.now.steps
        ≡ spec.step_count (run_of.translated (setup_in H.digest_of world.now) (events_of world.now.trace)) }
    requires last { made.now.last ≡ run_of.last_configuration (setup_in H.digest_of world.now) (events_of world.now.trace) }
    ensures { IfOk result (λ text. text.items ≡ run_counts (setup_in H.digest_of world.now) (events_of world.now.trace)) }
{
    let live = live_outputs(alloc, world.ledger())?;
    counts_text(
        alloc,
        world.trace().len() as u64,
        made.steps,
        &made.last,
        &live,
    )
}

// What is printed of them.
fn told<H: Hash32 + Drop>(
    alloc: Global,
    world: &World<H>,
    made: &Counted,
) -> Result<Reply, OutOfMemory>
    requires left { IsLeft H.digest_of (setup_in H.digest_of world.now) (events_of world.now.trace) world.now None }
    requires steps { made.now.steps
        ≡ spec.step_count (run_of.translated (setup_in H.digest_of world.now) (events_of world.now.trace)) }
    requires last { made.now.last ≡ run_of.last_configuration (setup_in H.digest_of world.now) (events_of world.now.trace) }
    ensures { IfOk result (λ reply. printed reply
        ≡ prints 0 (run_counts (setup_in H.digest_of world.now) (events_of world.now.trace))) }
{
    let text = counts(alloc, world, made)?;
    Ok(Reply::new(0, text))
}

// What is printed of the run that left this world.
fn counted<H: Hash32 + Drop>(alloc: Global, world: &World<H>) -> Result<Reply, OutOfMemory>
    requires { IsLeft H.digest_of (setup_in H.digest_of world.now) (events_of world.now.trace) world.now None }
    ensures { IfOk result (λ reply. printed reply
        ≡ prints 0 (run_counts (setup_in H.digest_of world.now) (events_of world.now.trace))) }
{
    let made = count_steps(alloc, world)?;
    told(alloc, world, &made)
}

/// What `make` replies to a run and its contracts. The run is dropped once it is played: what is printed is read off the world that it
/// left.
pub fn generated_reply<H: Hash32 + Drop>(
    alloc: Global,
    hash: H,
    run: Run,
    contracts: Vec<Checked>,
) -> Result<Reply, OutOfMemory>
    requires run { IsReadRun run }
    requires events { length run.events ≤ most_events }
    requires few { length contracts.items ≤ most_contracts }
    ensures { IfOk result (λ reply. printed reply
        ≡ run_answer spec.make_text (setup_of (H.digest_of hash) run contracts.items) run.events) }
{
    match play_to_end(alloc, hash, &run, contracts) {
        Err(halt) => halt_reply(alloc, &halt),
        Ok(world) => {
            drop(run);
            let reply = counted(alloc, &world);
            leak(world);
            reply
        }
    }
}
