//! A run that is played, as it is drawn.

ghost use Rattle.std.specs.Prelude.{◌≡◌, ◌≤◌, length, IfOk};
ghost use Rattle.spec_data.specs.Ranges.{most_contracts};
ghost use Rattle.spec_text.specs.Limits.{most_events};
ghost use Rattle.theory_text.specs.RunFiles.{IsReadRun};
ghost use Rattle.spec_tool.specs.Commands.{ending_status, run_answer, setup_of};
ghost use Rattle.spec_tool.specs.Replies.{printed};
ghost use Rattle.bm_world.specs.Playing.{setup_in};
ghost use Rattle.bm_report.specs.Endings.{ending_of};
ghost use Rattle.tool_replies.specs.Whole.{IsLeft};
ghost use Rattle.draw_rows.specs.Halts.{halt_of};
ghost use Rattle.draw_replies.specs.DrawnTexts.{halt_in, run_drawn};

use crate::form::Form;
use crate::writing::{opened_reply, unopened_reply};
use bm_hash::Hash32;
use bm_report::Ending;
use bm_translate_course::translate;
use bm_wellformed::Checked;
use bm_world::{Halt, World};
use draw_rows::Halted;
use spec_data::OutOfMemory;
use spec_run::{Event, Run};
use spec_tool::Reply;
use std::alloc::{AllocError, Global};
use tool_replies::{ending_by, leak, play};
use tool_shows::entries_by;

// What halted a run that ends so.
fn halted_of(ending: Ending) -> Halted
    ensures { halt_of result ≡ halt_in (ending_of ending) }
{
    match ending {
        Ending::Whole { .. } => Halted::Nothing,
        Ending::Guessed {
            event,
            party,
            secret,
        } => Halted::Guesses {
            event,
            party,
            secret,
        },
        Ending::Collided { event, .. } => match event {
            None => Halted::Nothing,
            Some(event) => Halted::Collides(event),
        },
    }
}

// The status that says how a run ends.
fn status_of(ending: &Ending) -> u8
    ensures { result ≡ ending_status (ending_of ending.now) }
{
    match ending {
        Ending::Whole { .. } => 0,
        Ending::Guessed { .. } => 7,
        Ending::Collided { .. } => 8,
    }
}

// What is replied to a run of these events that left this world.
fn left_reply<H: Hash32 + Drop>(
    alloc: Global,
    form: Form,
    title: &[u8],
    world: &World<H>,
    events: &[Event],
    stop: Option<(usize, Halt)>,
) -> Result<Reply, OutOfMemory>
    requires { IsLeft H.digest_of (setup_in H.digest_of world.now) events.now world.now stop }
    ensures { IfOk result (λ reply. printed reply ≡ run_answer (run_drawn form title.now) (setup_in H.digest_of world.now) events.now) }
{
    let made = translate(alloc, world)?;
    let entries = entries_by(alloc, world.trace(), &made.steps)?;
    let end = ending_by(alloc, world, events, made.last, stop)?;
    let status = status_of(&end);
    let halted = halted_of(end);
    opened_reply(
        alloc,
        form,
        title,
        world.header(),
        world.contracts(),
        events.len(),
        &entries,
        &halted,
        status,
    )
}

fn copies(alloc: Global, contracts: &[Checked]) -> Result<Vec<Checked>, OutOfMemory>
    ensures { IfOk result (λ v. v.items ≡ contracts.now) }
{
    let mut copies = Vec::new(alloc);
    for contract in contracts {
        let copy = contract.copy(alloc)?;
        copies.push(copy)?;
    }
    Ok(copies)
}

/// What is replied to a run and its contracts: the page or the SVG, with the status of how the run ends.
pub(crate) fn draw_reply<H: Hash32 + Drop>(
    alloc: Global,
    form: Form,
    title: &[u8],
    hash: H,
    run: &Run,
    contracts: Vec<Checked>,
) -> Result<Reply, OutOfMemory>
    requires run { IsReadRun run.now }
    requires events { length run.now.events ≤ most_events }
    requires few { length contracts.items ≤ most_contracts }
    ensures { IfOk result (λ reply. printed reply
        ≡ run_answer (run_drawn form title.now) (setup_of (H.digest_of hash) run.now contracts.items) run.now.events) }
{
    let held = copies(alloc, &contracts)?;
    match play(alloc, hash, run, contracts) {
        Err(Halt::Collided(_, _)) => unopened_reply(alloc, form, title, run, &held),
        Err(_) => Err(AllocError),
        Ok((world, stop)) => {
            let reply = left_reply(alloc, form, title, &world, run.events.as_slice(), stop);
            leak(world);
            reply
        }
    }
}
