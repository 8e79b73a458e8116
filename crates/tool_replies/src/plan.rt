//! What `plan` replies.

ghost use Rattle.std.specs.Prelude.{◌≡◌, ◌≤◌, length, IfOk};
ghost use Rattle.spec_data.specs.Ranges.{most_contracts};
ghost use Rattle.spec_text.specs.Limits.{most_events};
ghost use Rattle.spec_text.specs.PlanText as spec;
ghost use Rattle.theory_text.specs.RunFiles.{IsReadRun};
ghost use Rattle.spec_run.specs.Compiled.{compiled_instance};
ghost use Rattle.spec_tool.specs.Commands.{prints, run_answer, setup_of};
ghost use Rattle.spec_tool.specs.Replies.{printed};
ghost use Rattle.bm_world.specs.Playing.{setup_in};

use crate::halting::halt_reply;
use crate::last::{leak, play_to_end};
use bm_hash::Hash32;
use bm_plan::plan_text;
use bm_wellformed::Checked;
use bm_world::World;
use spec_data::OutOfMemory;
use spec_run::Run;
use spec_tool::Reply;
use std::alloc::Global;

// The transactions of the first contract in this world.
fn planned<H: Hash32 + Drop>(alloc: Global, world: &World<H>) -> Result<Reply, OutOfMemory>
    ensures { IfOk result (λ reply. printed reply ≡ prints 0 (spec.setting_text (setup_in H.digest_of world.now).hash
        (compiled_instance (setup_in H.digest_of world.now) world.now.world 0))) }
{
    let text = plan_text(alloc, world.compiled(0))?;
    Ok(Reply::new(0, text))
}

/// What `plan` replies to a run and its contracts: the transactions of the first.
pub fn plan_reply<H: Hash32 + Drop>(
    alloc: Global,
    hash: H,
    run: &Run,
    contracts: Vec<Checked>,
) -> Result<Reply, OutOfMemory>
    requires run { IsReadRun run.now }
    requires events { length run.now.events ≤ most_events }
    requires few { length contracts.items ≤ most_contracts }
    ensures { IfOk result (λ reply. printed reply
        ≡ run_answer spec.plan_text (setup_of (H.digest_of hash) run.now contracts.items) run.now.events) }
{
    match play_to_end(alloc, hash, run, contracts) {
        Err(halt) => halt_reply(alloc, &halt),
        Ok(world) => {
            let reply = planned(alloc, &world);
            leak(world);
            reply
        }
    }
}
