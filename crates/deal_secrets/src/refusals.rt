//! What is printed where a file of secrets is refused.

ghost use Rattle.std.specs.Prelude.{◌≡◌, ◌++◌, codes, OnOk};
ghost use Rattle.std.specs.Fmt.{decimal};
ghost use Rattle.spec_deal.specs.RefusedText as spec;
ghost use Rattle.deal_secrets.specs.Refusals as texts;

use bm_text::{put, put_decimal};
use spec_data::OutOfMemory;
use spec_deal::{SecretFault, SecretReason};
use std::alloc::Global;

// Why a line is bad.
#[tactic(auto, using(std::proofs::Common::append_assoc))]
fn put_reason(alloc: Global, out: &mut Vec<u8>, reason: SecretReason) -> Result<(), OutOfMemory>
    ensures { OnOk result (out.new.items ≡ out.old.items ++ texts.reason_text reason) }
{
    match reason {
        SecretReason::Form => put(out, b"form"),
        SecretReason::Foreign => put(out, b"foreign"),
        SecretReason::Value => put(out, b"value"),
        SecretReason::Repeated(line) => {
            put(out, b"repeated ")?;
            put_decimal(alloc, out, line as u64)
        }
        SecretReason::Length => put(out, b"length"),
        SecretReason::Hash => put(out, b"hash"),
    }
}

// Why a file is refused.
#[tactic(auto, using(std::proofs::Common::append_assoc))]
fn put_fault(alloc: Global, out: &mut Vec<u8>, fault: SecretFault) -> Result<(), OutOfMemory>
    ensures { OnOk result (out.new.items ≡ out.old.items ++ texts.fault_text fault) }
{
    match fault {
        SecretFault::Size => put(out, b"size"),
        SecretFault::Line(line, reason) => {
            put(out, b"line ")?;
            put_decimal(alloc, out, line as u64)?;
            put(out, b" ")?;
            put_reason(alloc, out, reason)
        }
    }
}

// The line that refuses a file.
#[tactic(auto, using(std::proofs::Common::append_assoc))]
fn put_line(alloc: Global, out: &mut Vec<u8>, fault: SecretFault) -> Result<(), OutOfMemory>
    ensures { OnOk result (out.new.items ≡ out.old.items ++ texts.refused_line fault) }
{
    put(out, b"secrets refused ")?;
    put_fault(alloc, out, fault)?;
    put(out, b"\n")
}

/// Writes the line that refuses a file of secrets.
pub fn put_secrets_refused(
    alloc: Global,
    out: &mut Vec<u8>,
    fault: SecretFault,
) -> Result<(), OutOfMemory>
    ensures { OnOk result (out.new.items ≡ out.old.items ++ spec.secrets_refused_line fault) }
{
    put_line(alloc, out, fault)
}
