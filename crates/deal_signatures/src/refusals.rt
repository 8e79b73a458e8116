//! What is printed where a file of signatures is refused.

ghost use Rattle.std.specs.Prelude.{◌≡◌, ◌++◌, codes, OnOk};
ghost use Rattle.std.specs.Fmt.{decimal};
ghost use Rattle.spec_text.specs.RunText.{newline};
ghost use Rattle.spec_deal.specs.RefusedText as spec;
ghost use Rattle.deal_signatures.specs.Refusals as texts;

use bm_text::{put, put_decimal};
use spec_data::OutOfMemory;
use spec_deal::{SignatureFault, SignatureReason};
use std::alloc::Global;

// A word, and the number of an input behind it.
#[tactic(auto, using(std::proofs::Common::append_assoc))]
fn put_at_input(
    alloc: Global,
    out: &mut Vec<u8>,
    word: &[u8],
    input: u32,
) -> Result<(), OutOfMemory>
    ensures { OnOk result (out.new.items ≡ out.old.items ++ texts.at_input word.now input) }
{
    put(out, word)?;
    put(out, b" ")?;
    put_decimal(alloc, out, input as u64)
}

// Why a line is bad.
fn put_reason(alloc: Global, out: &mut Vec<u8>, reason: SignatureReason) -> Result<(), OutOfMemory>
    ensures { OnOk result (out.new.items ≡ out.old.items ++ texts.reason_text reason) }
{
    match reason {
        SignatureReason::Base64 => put(out, b"base64"),
        SignatureReason::Form => put(out, b"form"),
        SignatureReason::Foreign => put(out, b"foreign"),
        SignatureReason::Spent(input) => put_at_input(alloc, out, b"spent", input),
        SignatureReason::Script(input) => put_at_input(alloc, out, b"script", input),
        SignatureReason::Witness(input) => put_at_input(alloc, out, b"witness", input),
        SignatureReason::Key(input) => put_at_input(alloc, out, b"key", input),
        SignatureReason::Signature(input) => put_at_input(alloc, out, b"signature", input),
        SignatureReason::Invalid(input) => put_at_input(alloc, out, b"invalid", input),
        SignatureReason::Conflict(input) => put_at_input(alloc, out, b"conflict", input),
    }
}

// Why a file is refused.
#[tactic(auto, using(std::proofs::Common::append_assoc))]
fn put_fault(alloc: Global, out: &mut Vec<u8>, fault: SignatureFault) -> Result<(), OutOfMemory>
    ensures { OnOk result (out.new.items ≡ out.old.items ++ texts.fault_text fault) }
{
    match fault {
        SignatureFault::Size => put(out, b"size"),
        SignatureFault::Line(line, reason) => {
            put(out, b"line ")?;
            put_decimal(alloc, out, line as u64)?;
            put(out, b" ")?;
            put_reason(alloc, out, reason)
        }
    }
}

// The line that refuses it.
fn put_refused(alloc: Global, out: &mut Vec<u8>, fault: SignatureFault) -> Result<(), OutOfMemory>
    ensures { OnOk result (out.new.items ≡ out.old.items ++ texts.refused_text fault) }
{
    put(out, b"signatures refused ")?;
    put_fault(alloc, out, fault)?;
    put(out, b"\n")
}

/// Writes the line that refuses a file of signatures.
pub fn put_signatures_refused(
    alloc: Global,
    out: &mut Vec<u8>,
    fault: SignatureFault,
) -> Result<(), OutOfMemory>
    ensures { OnOk result (out.new.items ≡ out.old.items ++ spec.signatures_refused_line fault) }
{
    put_refused(alloc, out, fault)
}
