//! The reply of `audit`.

ghost use Rattle.std.specs.Prelude.{◌≡◌, ◌≤◌, length, IfOk};
ghost use Rattle.spec_data.specs.Ranges.{most_contracts};
ghost use Rattle.spec_text.specs.Limits.{most_events};
ghost use Rattle.theory_text.specs.RunFiles.{IsReadRun};
ghost use Rattle.spec_tool.specs.Commands.{setup_of};
ghost use Rattle.spec_tool.specs.Answers.{if_whole, audited_file};
ghost use Rattle.spec_tool.specs.AuditText as spec;
ghost use Rattle.spec_tool.specs.Replies.{printed};

use crate::auditing::world_reply;
use bm_hash::Hash32;
use bm_wellformed::Checked;
use spec_data::{Bytes, OutOfMemory};
use spec_run::Run;
use spec_tool::Reply;
use std::alloc::Global;
use tool_replies::{halt_reply, leak, play_to_end};

// What is replied where the file of an audit has too many bytes.
fn refused_reply(alloc: Global) -> Result<Reply, OutOfMemory>
    ensures { IfOk result (λ reply. printed reply ≡ spec.audit_refused) }
{
    let text = Bytes::from_slice(alloc, b"audit refused\n")?;
    Ok(Reply { status: 10, text })
}

// What is replied to an audit of a text after a run, which is answered by its own halt where it has one.
fn text_reply<H: Hash32 + Drop>(
    alloc: Global,
    hash: H,
    run: &Run,
    contracts: Vec<Checked>,
    text: &[u8],
) -> Result<Reply, OutOfMemory>
    requires run { IsReadRun run.now }
    requires events { length run.now.events ≤ most_events }
    requires few { length contracts.items ≤ most_contracts }
    ensures { IfOk result (λ reply. printed reply
        ≡ if_whole (spec.audit_answer text.now) (setup_of (H.digest_of hash) run.now contracts.items) run.now.events) }
{
    match play_to_end(alloc, hash, run, contracts) {
        Err(halt) => halt_reply(alloc, &halt),
        Ok(world) => {
            let mut world = world;
            let reply = world_reply(alloc, &mut world, text);
            leak(world);
            reply
        }
    }
}

/// What `audit` replies to a run, its contracts and a further file, of which nothing is given where it has too many bytes: what is
/// found of the file's transactions for the first contract.
pub fn audit_reply<H: Hash32 + Drop>(
    alloc: Global,
    hash: H,
    run: &Run,
    contracts: Vec<Checked>,
    file: &Option<Bytes>,
) -> Result<Reply, OutOfMemory>
    requires run { IsReadRun run.now }
    requires events { length run.now.events ≤ most_events }
    requires few { length contracts.items ≤ most_contracts }
    ensures { IfOk result (λ reply. printed reply
        ≡ audited_file file.now (setup_of (H.digest_of hash) run.now contracts.items) run.now.events) }
{
    match file {
        None => refused_reply(alloc),
        Some(text) => text_reply(alloc, hash, run, contracts, text.as_slice()),
    }
}
