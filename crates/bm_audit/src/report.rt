//! An audit of the transactions in a file.

ghost use Rattle.std.specs.Prelude.{◌≡◌, map, option_map, Some, IfOk, IfErr};
ghost use Rattle.spec_run.specs.Compiled.{compiled_instance};
ghost use Rattle.spec_tool.specs.Audit.{listed_in, missing_of};
ghost use Rattle.theory_audit.specs.Audited.{IsAudit};
ghost use Rattle.bm_compile.specs.Numbered.{numbered};
ghost use Rattle.bm_audit_listed.specs.Parts.{as_candidate};
ghost use Rattle.bm_world.specs.Playing.{setup_in};
ghost use Rattle.bm_world_heard.specs.Heard.{Stopped};
ghost use Rattle.bm_audit.specs.Found.{text_strings};
ghost use Rattle.bm_audit.specs.Audited.{Audited, Follows};

use crate::findings::findings_of;
use bm_audit_listed::{Catalog, absent, candidates, missing};
use bm_compile::Compiled;
use bm_hash::Hash32;
use bm_world::{Halt, World};
use spec_bitcoin::Label;
use spec_data::{OutOfMemory, Seq};
use spec_tool::{AuditReport, Which};
use std::alloc::Global;
use theory_audit::{audits_find_all, nothing_lacks};

// The compiled transactions of the contract of this number.
fn catalog_of<H: Hash32 + Drop>(
    alloc: Global,
    world: &World<H>,
    contract: u32,
) -> Result<Catalog, OutOfMemory>
    ensures { IfOk result (λ catalog. catalog ≡ map as_candidate (listed_in (setup_in H.digest_of world.now) world.now.world contract)) }
{
    let all = candidates(alloc, world.compiled(contract))?;
    Catalog::of(alloc, all)
}

// The signatures that the transactions of the contract of this number lack, which is compiled so.
fn missing_with<H: Hash32 + Drop>(
    alloc: Global,
    world: &World<H>,
    contract: u32,
    compiled: &Compiled,
) -> Result<Seq<(Which, u32, Label)>, OutOfMemory>
    requires { Some compiled.now ≡ option_map (numbered (setup_in H.digest_of world.now).hash)
        (compiled_instance (setup_in H.digest_of world.now) world.now.world contract) }
    ensures { IfOk result (λ all. all ≡ missing_of (setup_in H.digest_of world.now).hash world.now.world.book
        (listed_in (setup_in H.digest_of world.now) world.now.world contract)) }
{
    match world.board().contract(contract) {
        Some(checked) => {
            let hasher = world.trail().hasher();
            missing(alloc, hasher, world.book(), contract, checked, compiled)
        }
        None => Ok(Seq::new(alloc)),
    }
}

// The signatures that the transactions of the contract of this number lack, none where it isn't compiled.
fn missing_in<H: Hash32 + Drop>(
    alloc: Global,
    world: &World<H>,
    contract: u32,
) -> Result<Seq<(Which, u32, Label)>, OutOfMemory>
    ensures { IfOk result (λ all. all ≡ missing_of (setup_in H.digest_of world.now).hash world.now.world.book
        (listed_in (setup_in H.digest_of world.now) world.now.world contract)) }
{
    match world.compiled(contract) {
        Some(compiled) => missing_with(alloc, world, contract, compiled),
        None => Ok(Seq::new(alloc)),
    }
}

/// What an audit of a text finds in this world for the contract of this number: of each line, and the compiled transactions that no
/// line names, and the signatures that are missing. The ledger, the book and the posted strings stay, and the records too; only the
/// strings of the text's transactions are hashed, of which one may collide with another or with a message of the run. A run that has
/// halted is answered by its halt.
pub fn audit<H: Hash32 + Drop>(
    alloc: Global,
    world: &mut World<H>,
    contract: u32,
    text: &[u8],
) -> Result<AuditReport, Halt>
    ensures audited { IfOk result (Audited H.digest_of world.old world.new contract text.now) }
    ensures follows { IfOk result (Follows (setup_in H.digest_of world.old) world.old.world contract text.now) }
    ensures stopped { IfErr result (Stopped H.digest_of world.old world.new
        (text_strings (setup_in H.digest_of world.old) world.old.world text.now)) }
{
    audits_find_all();
    nothing_lacks();
    if let Some(halt) = world.halt() {
        return Err(halt.again(alloc));
    }
    let catalog = catalog_of(alloc, world, contract)?;
    let missing = missing_in(alloc, world, contract)?;
    let findings = findings_of(alloc, world, &catalog, text)?;
    match absent(alloc, catalog.candidates(), findings.as_slice()) {
        Ok(absent) => Ok(AuditReport {
            findings,
            absent,
            missing,
        }),
        Err(_) => Err(Halt::Memory),
    }
}
