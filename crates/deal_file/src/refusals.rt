//! What is printed where a deal file is refused.

ghost use Rattle.std.specs.Prelude.{◌≡◌, ◌++◌, codes, OnOk};
ghost use Rattle.std.specs.Fmt.{decimal};
ghost use Rattle.spec_text.specs.RunText.{newline};
ghost use Rattle.spec_deal.specs.RefusedText as spec;
ghost use Rattle.deal_file.specs.Refusals as texts;

use crate::texts::put_needed;
use bm_text::{put, put_decimal};
use spec_data::OutOfMemory;
use spec_deal::{DealFault, DealReason};
use std::alloc::Global;

// Why a line is bad.
#[tactic(auto, using(std::proofs::Common::append_assoc))]
fn put_reason(alloc: Global, out: &mut Vec<u8>, reason: DealReason) -> Result<(), OutOfMemory>
    ensures { OnOk result (out.new.items ≡ out.old.items ++ texts.reason_text reason) }
{
    match reason {
        DealReason::Form => put(out, b"form"),
        DealReason::Foreign => put(out, b"foreign"),
        DealReason::Value => put(out, b"value"),
        DealReason::Repeated(line) => {
            put(out, b"repeated ")?;
            put_decimal(alloc, out, line as u64)
        }
        DealReason::Shared(line) => {
            put(out, b"shared ")?;
            put_decimal(alloc, out, line as u64)
        }
    }
}

// The line that is bad, and why.
#[tactic(auto, using(std::proofs::Common::append_assoc))]
fn put_bad_line(
    alloc: Global,
    out: &mut Vec<u8>,
    line: u32,
    reason: DealReason,
) -> Result<(), OutOfMemory>
    ensures { OnOk result (out.new.items ≡ out.old.items ++ texts.bad_line_text line reason) }
{
    put(out, b"line ")?;
    put_decimal(alloc, out, line as u64)?;
    put(out, b" ")?;
    put_reason(alloc, out, reason)
}

// Why a file is refused.
#[tactic(auto, using(std::proofs::Common::append_assoc))]
fn put_fault(alloc: Global, out: &mut Vec<u8>, fault: &DealFault) -> Result<(), OutOfMemory>
    ensures { OnOk result (out.new.items ≡ out.old.items ++ texts.fault_text fault.now) }
{
    match fault {
        DealFault::Size => put(out, b"size"),
        DealFault::Line(line, reason) => put_bad_line(alloc, out, *line, *reason),
        DealFault::Missing(needed) => {
            put(out, b"missing ")?;
            put_needed(alloc, out, needed)
        }
        DealFault::Circular(name) => {
            put(out, b"circular ")?;
            put(out, name.bytes())
        }
    }
}

/// Writes the line that refuses a deal file.
#[tactic(auto, using(std::proofs::Common::append_assoc))]
pub fn put_deal_refused(
    alloc: Global,
    out: &mut Vec<u8>,
    fault: &DealFault,
) -> Result<(), OutOfMemory>
    ensures { OnOk result (out.new.items ≡ out.old.items ++ spec.deal_refused_line fault.now) }
{
    put(out, b"deal refused ")?;
    put_fault(alloc, out, fault)?;
    put(out, b"\n")
}
