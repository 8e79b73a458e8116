//! How a report is printed.

ghost use Rattle.std.specs.Prelude.{◌≡◌, ◌++◌, [], if◌then◌else◌, OnOk, IfOk};
ghost use Rattle.spec_tool.specs.PsbtText.{not_compiled_line};
ghost use Rattle.spec_tool.specs.AuditText as spec;

use crate::finding_text::put_findings;
use crate::list_text::{put_all_absent, put_all_missing};
use bm_text::put;
use spec_data::OutOfMemory;
use spec_tool::AuditReport;
use std::alloc::Global;

#[tactic(auto, using(std::proofs::Common::append_assoc))]
fn put_report(alloc: Global, out: &mut Vec<u8>, report: &AuditReport) -> Result<(), OutOfMemory>
    ensures { OnOk result (out.new.items ≡ out.old.items ++ spec.report_text report.now) }
{
    put_findings(alloc, out, report.findings.as_slice())?;
    put_all_absent(alloc, out, report.absent.as_slice())?;
    put_all_missing(alloc, out, report.missing.as_slice())
}

// The last line, where the contract isn't compiled.
fn put_compiled(out: &mut Vec<u8>, compiled: bool) -> Result<(), OutOfMemory>
    ensures { OnOk result (out.new.items ≡ out.old.items ++ (if compiled then [] else not_compiled_line)) }
{
    if compiled {
        return Ok(());
    }
    put(out, b"contract 0 not compiled\n")
}

/// The lines of a report: of all findings, then of what is absent, then of what is missing, and a last one where contract 0 isn't
/// compiled.
pub fn report_text(
    alloc: Global,
    report: &AuditReport,
    compiled: bool,
) -> Result<Vec<u8>, OutOfMemory>
    ensures { IfOk result (λ text. text.items ≡ spec.report_text report.now ++ (if compiled then [] else not_compiled_line)) }
{
    let mut text = Vec::new(alloc);
    put_report(alloc, &mut text, report)?;
    put_compiled(&mut text, compiled)?;
    Ok(text)
}
