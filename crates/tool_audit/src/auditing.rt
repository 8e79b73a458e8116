//! The reply to an audit in the world that a run left.

ghost use Rattle.std.specs.Prelude.{◌≡◌, ◌++◌, [], if◌then◌else◌, None, IfOk};
ghost use Rattle.spec_run.specs.Compiled.{compiled_instance};
ghost use Rattle.spec_tool.specs.Audit.{audit_collision};
ghost use Rattle.spec_tool.specs.Commands.{prints};
ghost use Rattle.spec_tool.specs.PsbtText.{not_compiled_line};
ghost use Rattle.spec_tool.specs.AuditText as spec;
ghost use Rattle.spec_tool.specs.Replies.{printed};
ghost use Rattle.bm_world.specs.Playing.{setup_in};

use bm_audit::{audit, report_text};
use bm_hash::Hash32;
use bm_world::World;
use spec_data::OutOfMemory;
use spec_tool::{AuditReport, Reply};
use std::alloc::Global;
use tool_replies::halt_reply;

// The lines of a report.
fn found_reply(alloc: Global, report: &AuditReport, compiled: bool) -> Result<Reply, OutOfMemory>
    ensures { IfOk result (λ reply. printed reply
        ≡ prints 0 (spec.report_text report.now ++ (if compiled then [] else not_compiled_line))) }
{
    let text = report_text(alloc, report, compiled)?;
    Ok(Reply::new(0, text))
}

// Whether the first contract is compiled.
fn is_compiled<H: Hash32 + Drop>(world: &World<H>) -> bool
    ensures { (if result then [] else not_compiled_line)
        ≡ spec.uncompiled_text (compiled_instance (setup_in H.digest_of world.now) world.now.world 0) }
{
    match world.compiled(0) {
        Some(_) => true,
        None => false,
    }
}

/// What is replied to an audit of a text in this world, for its first contract. The run wasn't halted.
pub(crate) fn world_reply<H: Hash32 + Drop>(
    alloc: Global,
    world: &mut World<H>,
    text: &[u8],
) -> Result<Reply, OutOfMemory>
    requires { world.old.halt ≡ None }
    ensures { IfOk result (λ reply. printed reply
        ≡ spec.audited (audit_collision (setup_in H.digest_of world.old) world.old.world text.now)
        (spec.audit_text (setup_in H.digest_of world.old) world.old.world text.now)) }
{
    let compiled = is_compiled(world);
    match audit(alloc, world, 0, text) {
        Ok(report) => found_reply(alloc, &report, compiled),
        Err(halt) => halt_reply(alloc, &halt),
    }
}
