//! How findings are printed.

ghost use Rattle.std.specs.Prelude.{◌≡◌, ◌++◌, codes, OnOk};
ghost use Rattle.std.specs.Fmt.{decimal};
ghost use Rattle.std.specs.List.{flat_map};
ghost use Rattle.spec_text.specs.OutcomeText.{refusal_text};
ghost use Rattle.spec_text.specs.StepText.{branch_text};
ghost use Rattle.spec_tool.specs.AuditText as spec;

use crate::name_text::put_names;
use bm_runfile::{put_branch, put_refusal};
use bm_text::{put, put_decimal};
use spec_bitcoin::Refusal;
use spec_data::OutOfMemory;
use spec_tool::{Finding, Kind, Now, Which};
use std::alloc::Global;

#[tactic(auto, using(std::proofs::Common::append_assoc))]
fn put_now_branch(
    alloc: Global,
    out: &mut Vec<u8>,
    output: u32,
    branch: u32,
) -> Result<(), OutOfMemory>
    ensures { OnOk result (out.new.items ≡ out.old.items ++ (codes "now branch " ++ branch_text output branch)) }
{
    put(out, b"now branch ")?;
    put_branch(alloc, out, output, branch)
}

#[tactic(auto, using(std::proofs::Common::append_assoc))]
fn put_now_refused(alloc: Global, out: &mut Vec<u8>, refusal: Refusal) -> Result<(), OutOfMemory>
    ensures { OnOk result (out.new.items ≡ out.old.items ++ (codes "now refused " ++ refusal_text refusal)) }
{
    put(out, b"now refused ")?;
    put_refusal(alloc, out, refusal)
}

// What the ledger says of a transaction.
fn put_now(alloc: Global, out: &mut Vec<u8>, now: Now) -> Result<(), OutOfMemory>
    ensures { OnOk result (out.new.items ≡ out.old.items ++ spec.now_text now) }
{
    match now {
        Now::Init(_) => put(out, b"now init"),
        Now::Branch { output, branch } => put_now_branch(alloc, out, output, branch),
        Now::Move => put(out, b"now move"),
        Now::Refused(refusal) => put_now_refused(alloc, out, refusal),
    }
}

#[tactic(auto, using(std::proofs::Common::append_assoc))]
fn put_bad(alloc: Global, out: &mut Vec<u8>, place: usize) -> Result<(), OutOfMemory>
    ensures { OnOk result (out.new.items ≡ out.old.items ++ (codes "bad " ++ decimal place)) }
{
    put(out, b"bad ")?;
    put_decimal(alloc, out, place as u64)
}

#[tactic(auto, using(std::proofs::Common::append_assoc))]
fn put_read(alloc: Global, out: &mut Vec<u8>, names: &[Which], now: Now) -> Result<(), OutOfMemory>
    ensures { OnOk result (out.new.items ≡ out.old.items ++ (spec.names_text names.now ++ (codes " " ++ spec.now_text now))) }
{
    put_names(alloc, out, names)?;
    put(out, b" ")?;
    put_now(alloc, out, now)
}

// What a line is.
fn put_kind(alloc: Global, out: &mut Vec<u8>, kind: &Kind) -> Result<(), OutOfMemory>
    ensures { OnOk result (out.new.items ≡ out.old.items ++ spec.kind_text kind.now) }
{
    match kind {
        Kind::NotHex => put(out, b"nothex"),
        Kind::Bad(place) => put_bad(alloc, out, *place),
        Kind::Read { names, now } => put_read(alloc, out, names.as_slice(), *now),
    }
}

// `line N` and what the line is.
#[tactic(auto, using(std::proofs::Common::append_assoc))]
fn put_finding(alloc: Global, out: &mut Vec<u8>, finding: &Finding) -> Result<(), OutOfMemory>
    ensures { OnOk result (out.new.items ≡ out.old.items ++ spec.finding_line finding.now) }
{
    put(out, b"line ")?;
    put_decimal(alloc, out, finding.line as u64)?;
    put(out, b" ")?;
    put_kind(alloc, out, &finding.kind)?;
    put(out, b"\n")
}

/// A line for each finding.
#[tactic(auto, using(std::proofs::Common::append_assoc))]
pub(crate) fn put_findings(
    alloc: Global,
    out: &mut Vec<u8>,
    findings: &[Finding],
) -> Result<(), OutOfMemory>
    ensures { OnOk result (out.new.items ≡ out.old.items ++ flat_map spec.finding_line findings.now) }
{
    for finding in findings {
        put_finding(alloc, out, finding)?;
    }
    Ok(())
}
