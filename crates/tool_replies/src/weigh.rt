//! What `weigh` replies.

ghost use Rattle.std.specs.Prelude.{◌≡◌, ◌≤◌, length, IfOk};
ghost use Rattle.spec_text.specs.Limits.{most_events};
ghost use Rattle.theory_text.specs.RunFiles.{IsReadRun};
ghost use Rattle.spec_tool.specs.Commands.{prints, setup_of};
ghost use Rattle.spec_tool.specs.Answers.{if_whole, printed_of};
ghost use Rattle.spec_tool.specs.WeighText as spec;
ghost use Rattle.spec_tool.specs.Replies.{printed};
ghost use Rattle.bm_world.specs.Playing.{setup_in};
ghost use Rattle.tool_replies.specs.Weighed.{weigh_line};

use crate::halting::halt_reply;
use crate::last::{leak, play_to_end};
use bm_hash::Hash32;
use bm_plan::weigh_text;
use bm_wellformed::Checked;
use bm_world::World;
use spec_data::OutOfMemory;
use spec_run::Run;
use spec_tool::Reply;
use std::alloc::Global;

// The weights of the first contract in this world.
fn weights<H: Hash32 + Drop>(alloc: Global, world: &World<H>) -> Result<Vec<u8>, OutOfMemory>
    requires { length world.now.contracts ≡ 1 }
    ensures { IfOk result (λ text. text.items ≡ weigh_line (setup_in H.digest_of world.now) world.now.world) }
{
    match world.contracts() {
        [checked] => weigh_text(alloc, checked, world.compiled(0)),
        _ => unreachable!(),
    }
}

// What is printed of them.
fn weighed<H: Hash32 + Drop>(alloc: Global, world: &World<H>) -> Result<Reply, OutOfMemory>
    requires { length world.now.contracts ≡ 1 }
    ensures { IfOk result (λ reply. printed reply
        ≡ prints 0 (weigh_line (setup_in H.digest_of world.now) world.now.world)) }
{
    let text = weights(alloc, world)?;
    Ok(Reply::new(0, text))
}

/// What `weigh` replies to a run and its contract.
pub fn weigh_reply<H: Hash32 + Drop>(
    alloc: Global,
    hash: H,
    run: &Run,
    contracts: Vec<Checked>,
) -> Result<Reply, OutOfMemory>
    requires run { IsReadRun run.now }
    requires events { length run.now.events ≤ most_events }
    requires one { length contracts.items ≡ 1 }
    ensures { IfOk result (λ reply. printed reply
        ≡ if_whole (printed_of spec.weigh_text) (setup_of (H.digest_of hash) run.now contracts.items) run.now.events) }
{
    match play_to_end(alloc, hash, run, contracts) {
        Err(halt) => halt_reply(alloc, &halt),
        Ok(world) => {
            let reply = weighed(alloc, &world);
            leak(world);
            reply
        }
    }
}
