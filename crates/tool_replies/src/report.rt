//! What `play` replies.

ghost use Rattle.std.specs.Prelude.{◌≡◌, ◌≤◌, length, Some, None, IfOk};
ghost use Rattle.spec_data.specs.Ranges.{most_contracts};
ghost use Rattle.spec_text.specs.Limits.{most_events};
ghost use Rattle.spec_text.specs.PlayText.{report_text};
ghost use Rattle.spec_text.specs.Played.{play_text};
ghost use Rattle.theory_text.specs.RunFiles.{IsReadRun};
ghost use Rattle.spec_tool.specs.Commands.{prints, ending_status, run_answer, setup_of};
ghost use Rattle.spec_tool.specs.Replies.{printed};
ghost use Rattle.bm_report.specs.Endings.{ending_of, IsNumbered};
ghost use Rattle.bm_report.specs.Entries.{entries_by};
ghost use Rattle.bm_translate_course.specs.Courses.{events_of};
ghost use Rattle.bm_world.specs.Playing.{setup_in};
ghost use Rattle.tool_replies.specs.Whole.{IsLeft};

use crate::ends::halted_ending;
use crate::halting::halt_reply;
use crate::last::leak;
use crate::played::play;
use bm_hash::Hash32;
use bm_report::Ending;
use bm_rows::Rows;
use bm_translate_course::translate;
use bm_wellformed::Checked;
use bm_world::{Halt, World};
use spec_calculus::Step;
use spec_data::OutOfMemory;
use spec_run::Run;
use spec_tool::Reply;
use std::alloc::Global;
use tool_shows::{report_reply, whole_ending};

// What is replied to a run that left this world, with these steps and this end. Of the world only what is printed is kept meanwhile.
fn shown_reply<H: Hash32 + Drop>(
    alloc: Global,
    world: World<H>,
    steps: Rows<Step>,
    end: &Ending,
) -> Result<Reply, OutOfMemory>
    requires each { length steps ≡ length world.trace }
    requires numbered { IsNumbered end.now }
    ensures { IfOk result (λ reply. printed reply ≡ prints (ending_status (ending_of end.now))
        (report_text world.header.deposits (entries_by world.trace steps) (ending_of end.now))) }
{
    let (header, trace) = world.into_records();
    let reply = report_reply(alloc, &header, trace.as_slice(), &steps, end);
    leak(trace);
    leak(steps);
    reply
}

// What is replied to the run that left this world, where nothing halted it. Its events are those of the trace.
fn whole_reply<H: Hash32 + Drop>(alloc: Global, world: World<H>) -> Result<Reply, OutOfMemory>
    requires { IsLeft H.digest_of (setup_in H.digest_of world) (events_of world.trace) world None }
    ensures { IfOk result (λ reply. printed reply
        ≡ run_answer play_text (setup_in H.digest_of world) (events_of world.trace)) }
{
    let made = translate(alloc, &world)?;
    let end = whole_ending(alloc, world.ledger(), made.last)?;
    shown_reply(alloc, world, made.steps, &end)
}

// What is replied to a run that left this world, whose event of this number was halted. That event alone is kept of it.
fn halted_reply<H: Hash32 + Drop>(
    alloc: Global,
    world: World<H>,
    run: Run,
    number: usize,
    halt: Halt,
) -> Result<Reply, OutOfMemory>
    requires { IsLeft H.digest_of (setup_in H.digest_of world) run.events world (Some (number, halt)) }
    ensures { IfOk result (λ reply. printed reply ≡ run_answer play_text (setup_in H.digest_of world) run.events) }
{
    let events = run.events.as_slice();
    let end = halted_ending(alloc, &events[number], halt)?;
    drop(run);
    let made = translate(alloc, &world)?;
    shown_reply(alloc, world, made.steps, &end)
}

// What is replied to a run that left this world. It is dropped before its steps are made.
fn left_reply<H: Hash32 + Drop>(
    alloc: Global,
    world: World<H>,
    run: Run,
    stop: Option<(usize, Halt)>,
) -> Result<Reply, OutOfMemory>
    requires { IsLeft H.digest_of (setup_in H.digest_of world) run.events world stop }
    ensures { IfOk result (λ reply. printed reply ≡ run_answer play_text (setup_in H.digest_of world) run.events) }
{
    match stop {
        None => {
            drop(run);
            whole_reply(alloc, world)
        }
        Some((number, halt)) => halted_reply(alloc, world, run, number, halt),
    }
}

/// What `play` replies to a run and its contracts. The run is dropped once it is played: what is printed is read off the world that it
/// left, and off the event that was halted, if one was.
pub fn play_reply<H: Hash32 + Drop>(
    alloc: Global,
    hash: H,
    run: Run,
    contracts: Vec<Checked>,
) -> Result<Reply, OutOfMemory>
    requires run { IsReadRun run }
    requires events { length run.events ≤ most_events }
    requires few { length contracts.items ≤ most_contracts }
    ensures { IfOk result (λ reply. printed reply
        ≡ run_answer play_text (setup_of (H.digest_of hash) run contracts.items) run.events) }
{
    match play(alloc, hash, &run, contracts) {
        Err(halt) => halt_reply(alloc, &halt),
        Ok((world, stop)) => left_reply(alloc, world, run, stop),
    }
}
