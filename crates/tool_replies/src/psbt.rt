//! What `psbt RUN CONTRACT WHICH` replies.

ghost use Rattle.std.specs.Prelude.{◌≡◌, ◌≤◌, length, IfOk};
ghost use Rattle.spec_text.specs.Limits.{most_events};
ghost use Rattle.theory_text.specs.RunFiles.{IsReadRun};
ghost use Rattle.spec_tool.specs.Commands.{prints, setup_of};
ghost use Rattle.spec_tool.specs.Answers.{if_whole, printed_of};
ghost use Rattle.spec_tool.specs.PsbtText as spec;
ghost use Rattle.spec_tool.specs.Replies.{printed};
ghost use Rattle.bm_world.specs.Playing.{setup_in};
ghost use Rattle.tool_replies.specs.Last.{IsLeftBySome};

use crate::halting::halt_reply;
use crate::last::{leak, play_to_end};
use bm_hash::Hash32;
use bm_psbt_plan::psbt_text;
use bm_wellformed::Checked;
use bm_world::World;
use spec_data::OutOfMemory;
use spec_run::Run;
use spec_tool::{Reply, Which};
use std::alloc::Global;

// The first contract's transaction of this name, with the signatures that this world's book has.
fn psbt_of<H: Hash32 + Drop>(
    alloc: Global,
    world: &World<H>,
    which: &Which,
) -> Result<Vec<u8>, OutOfMemory>
    requires one { length world.now.contracts ≡ 1 }
    requires left { IsLeftBySome H.digest_of world.now }
    ensures { IfOk result (λ text. text.items ≡ spec.which_psbt (setup_in H.digest_of world.now) world.now.world which.now) }
{
    match world.contracts() {
        [checked] => {
            psbt_text(
                alloc,
                world.trail().hasher(),
                world.book(),
                checked,
                world.compiled(0),
                which,
            )
        }
        _ => unreachable!(),
    }
}

// What is printed of it.
fn signed<H: Hash32 + Drop>(
    alloc: Global,
    world: &World<H>,
    which: &Which,
) -> Result<Reply, OutOfMemory>
    requires one { length world.now.contracts ≡ 1 }
    requires left { IsLeftBySome H.digest_of world.now }
    ensures { IfOk result (λ reply. printed reply
        ≡ prints 0 (spec.which_psbt (setup_in H.digest_of world.now) world.now.world which.now)) }
{
    let text = psbt_of(alloc, world, which)?;
    Ok(Reply::new(0, text))
}

/// What `psbt RUN CONTRACT WHICH` replies to a run and its contract.
pub fn psbt_reply<H: Hash32 + Drop>(
    alloc: Global,
    hash: H,
    run: &Run,
    contracts: Vec<Checked>,
    which: &Which,
) -> Result<Reply, OutOfMemory>
    requires run { IsReadRun run.now }
    requires events { length run.now.events ≤ most_events }
    requires one { length contracts.items ≡ 1 }
    ensures { IfOk result (λ reply. printed reply
        ≡ if_whole (printed_of (spec.psbt_text which.now)) (setup_of (H.digest_of hash) run.now contracts.items) run.now.events) }
{
    match play_to_end(alloc, hash, run, contracts) {
        Err(halt) => halt_reply(alloc, &halt),
        Ok(world) => {
            let reply = signed(alloc, &world, which);
            leak(world);
            reply
        }
    }
}
