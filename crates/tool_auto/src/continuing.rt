//! A run that wasn't halted goes on.

ghost use Rattle.std.specs.Prelude.{◌≡◌, ◌+◌, ◌≤◌, length, None, IfOk};
ghost use Rattle.std.specs.List.{AllByRecursion};
ghost use Rattle.spec_text.specs.Limits.{most_events};
ghost use Rattle.spec_text.specs.RunText.{run_text};
ghost use Rattle.spec_tool.specs.Commands.{prints};
ghost use Rattle.spec_tool.specs.AutoText.{auto_answer};
ghost use Rattle.theory_auto.specs.OwnRules.{IsHonest};
ghost use Rattle.spec_tool.specs.Replies.{printed};
ghost use Rattle.bm_auto.specs.Longer.{longer};
ghost use Rattle.bm_world.specs.Playing.{setup_in};
ghost use Rattle.tool_replies.specs.Whole.{IsLeft};
ghost use Rattle.tool_auto.specs.Continued.{ContinuesIfWhole};

use bm_auto::{extend, longer_reply};
use bm_hash::Hash32;
use bm_world::World;
use spec_data::OutOfMemory;
use spec_run::{Event, Run};
use spec_tool::{Reply, Rule};
use std::alloc::Global;
use theory_auto::{strategies_go_on, strategies_keep_to_rules};
use tool_replies::halt_reply;

// The run with these events behind its own.
fn went_on(alloc: Global, run: &Run, more: Vec<Event>) -> Result<Reply, OutOfMemory>
    ensures { IfOk result (λ reply. printed reply ≡ prints 0 (run_text (longer run.now.header run.now.events more.items))) }
{
    longer_reply(alloc, &run.header, run.events.as_slice(), more.as_slice())
}

/// What is replied to a run that left this world and goes on by these rules: the longer run, or the halt of an event that is tried.
pub(crate) fn continued_reply<H: Hash32 + Drop>(
    alloc: Global,
    world: &mut World<H>,
    run: &Run,
    rules: &[Rule],
) -> Result<Reply, OutOfMemory>
    requires left { IsLeft H.digest_of (setup_in H.digest_of world.old) run.now.events world.old None }
    requires header { world.old.header ≡ run.now.header }
    requires honest { AllByRecursion (IsHonest run.now.header) rules.now }
    requires room { length run.now.events + length rules.now ≤ most_events }
    ensures reply { IfOk result (λ reply. printed reply
        ≡ auto_answer rules.now (setup_in H.digest_of world.old) run.now.events) }
    ensures continued { IfOk result (ContinuesIfWhole (setup_in H.digest_of world.old) run.now rules.now) }
{
    strategies_go_on();
    strategies_keep_to_rules();
    match extend(alloc, world, rules) {
        Ok(more) => went_on(alloc, run, more),
        Err(halt) => halt_reply(alloc, &halt),
    }
}
