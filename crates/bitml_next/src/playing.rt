//! What comes next of a run that is played.

ghost use Rattle.std.specs.Prelude.{◌≡◌, ◌≤◌, length, option_map, None, IfOk};
ghost use Rattle.spec_data.specs.Ranges.{most_contracts};
ghost use Rattle.spec_run.specs.Translation as run_of;
ghost use Rattle.spec_text.specs.Limits.{most_events};
ghost use Rattle.theory_text.specs.RunFiles.{IsReadRun};
ghost use Rattle.spec_tool.specs.Commands.{prints, setup_of};
ghost use Rattle.spec_tool.specs.Answers.{if_whole};
ghost use Rattle.spec_next.specs.Foreseen as spec;
ghost use Rattle.spec_next.specs.Forms.{told_text};
ghost use Rattle.spec_next.specs.Prospects.{outlooks};
ghost use Rattle.spec_tool.specs.Replies.{printed};
ghost use Rattle.bm_translate_course.specs.Courses.{events_of};
ghost use Rattle.bm_world.specs.Playing.{setup_in};

use bm_calculus::Config;
use bm_hash::Hash32;
use bm_translate_course::translate;
use bm_wellformed::Checked;
use bm_world::World;
use next_json::outlooks_json;
use next_outlook::outlooks;
use next_text::outlooks_text;
use spec_data::OutOfMemory;
use spec_next::{Form, Outlook};
use spec_run::Run;
use spec_tool::Reply;
use std::alloc::Global;
use tool_replies::{halt_reply, leak, play_to_end};

// What comes next in lines, or as a line of JSON.
fn told_text(
    alloc: Global,
    form: Form,
    party: Option<&[u8]>,
    config: &Config,
    list: &[Outlook],
) -> Result<Vec<u8>, OutOfMemory>
    ensures { IfOk result (λ text. text.items ≡ told_text form (option_map (λ p. p.now) party.entry) config.now list.now) }
{
    match form {
        Form::Lines => outlooks_text(alloc, party, config, list),
        Form::Json => outlooks_json(alloc, party, config, list),
    }
}

fn told_reply(
    alloc: Global,
    form: Form,
    party: Option<&[u8]>,
    config: &Config,
    list: &[Outlook],
) -> Result<Reply, OutOfMemory>
    ensures { IfOk result (λ reply. printed reply ≡ prints 0 (told_text form (option_map (λ p. p.now) party.entry) config.now list.now)) }
{
    let text = told_text(alloc, form, party, config, list)?;
    Ok(Reply::new(0, text))
}

// What is replied of this world and its configuration. The run wasn't halted.
fn looked_reply<H: Hash32 + Drop>(
    alloc: Global,
    form: Form,
    party: Option<&[u8]>,
    world: &mut World<H>,
    config: &Config,
) -> Result<Reply, OutOfMemory>
    requires { world.old.halt ≡ None }
    ensures { IfOk result (λ reply. printed reply
        ≡ spec.unless_collided (spec.foreseen_collision (setup_in H.digest_of world.old) config.now world.old.world)
        (told_text form (option_map (λ p. p.now) party.entry) config.now (outlooks (setup_in H.digest_of world.old) config.now world.old.world))) }
{
    match outlooks(alloc, world, config) {
        Ok(list) => told_reply(alloc, form, party, config, list.as_slice()),
        Err(halt) => halt_reply(alloc, &halt),
    }
}

// What is replied of this world. The run wasn't halted.
fn world_reply<H: Hash32 + Drop>(
    alloc: Global,
    form: Form,
    party: Option<&[u8]>,
    world: &mut World<H>,
) -> Result<Reply, OutOfMemory>
    requires { world.old.halt ≡ None }
    ensures { let s = setup_in H.digest_of world.old in
        let g = run_of.last_configuration s (events_of world.old.trace) in
        IfOk result (λ reply. printed reply ≡ spec.unless_collided (spec.foreseen_collision s g world.old.world)
        (told_text form (option_map (λ p. p.now) party.entry) g (outlooks s g world.old.world))) }
{
    let made = translate(alloc, world)?;
    looked_reply(alloc, form, party, world, &made.last)
}

/// What is replied to a run and its contracts: what comes next in this form, where the run isn't halted, for all or for
/// one party.
pub(crate) fn next_reply<H: Hash32 + Drop>(
    alloc: Global,
    hash: H,
    form: Form,
    party: Option<&[u8]>,
    run: &Run,
    contracts: Vec<Checked>,
) -> Result<Reply, OutOfMemory>
    requires run { IsReadRun run.now }
    requires events { length run.now.events ≤ most_events }
    requires few { length contracts.items ≤ most_contracts }
    ensures { IfOk result (λ reply. printed reply
        ≡ if_whole (spec.next_printed form (option_map (λ p. p.now) party.entry)) (setup_of (H.digest_of hash) run.now contracts.items) run.now.events) }
{
    match play_to_end(alloc, hash, run, contracts) {
        Err(halt) => halt_reply(alloc, &halt),
        Ok(world) => {
            let mut world = world;
            let reply = world_reply(alloc, form, party, &mut world);
            leak(world);
            reply
        }
    }
}
