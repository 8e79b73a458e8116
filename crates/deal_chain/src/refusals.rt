//! What is printed where a chain file is refused.

ghost use Rattle.std.specs.Prelude.{◌≡◌, ◌++◌, codes, OnOk};
ghost use Rattle.std.specs.Fmt.{decimal};
ghost use Rattle.spec_chain.specs.RefusedText as spec;
ghost use Rattle.deal_chain.specs.Refusals as texts;

use bm_text::{put, put_decimal};
use spec_chain::{ChainFault, ChainReason};
use spec_data::OutOfMemory;
use std::alloc::Global;

// A word, and the number of an input behind it.
#[tactic(auto, using(std::proofs::Common::append_assoc))]
fn put_at_input(
    alloc: Global,
    out: &mut Vec<u8>,
    word: &[u8],
    input: u32,
) -> Result<(), OutOfMemory>
    ensures { OnOk result (out.new.items ≡ out.old.items ++ texts.at_input word.now input) }
{
    put(out, word)?;
    put(out, b" ")?;
    put_decimal(alloc, out, input as u64)
}

// Why a line is bad.
fn put_reason(alloc: Global, out: &mut Vec<u8>, reason: ChainReason) -> Result<(), OutOfMemory>
    ensures { OnOk result (out.new.items ≡ out.old.items ++ texts.reason_text reason) }
{
    match reason {
        ChainReason::Form => put(out, b"form"),
        ChainReason::Height => put(out, b"height"),
        ChainReason::Tx => put(out, b"tx"),
        ChainReason::Input(input) => put_at_input(alloc, out, b"input", input),
        ChainReason::Foreign(input) => put_at_input(alloc, out, b"foreign", input),
        ChainReason::Lock => put(out, b"lock"),
        ChainReason::Witness(input) => put_at_input(alloc, out, b"witness", input),
        ChainReason::Branch => put(out, b"branch"),
    }
}

// Why a file is refused.
#[tactic(auto, using(std::proofs::Common::append_assoc))]
fn put_fault(alloc: Global, out: &mut Vec<u8>, fault: ChainFault) -> Result<(), OutOfMemory>
    ensures { OnOk result (out.new.items ≡ out.old.items ++ texts.fault_text fault) }
{
    match fault {
        ChainFault::Size => put(out, b"size"),
        ChainFault::Line(line, reason) => {
            put(out, b"line ")?;
            put_decimal(alloc, out, line as u64)?;
            put(out, b" ")?;
            put_reason(alloc, out, reason)
        }
    }
}

// The line that refuses it.
fn put_refused(alloc: Global, out: &mut Vec<u8>, fault: ChainFault) -> Result<(), OutOfMemory>
    ensures { OnOk result (out.new.items ≡ out.old.items ++ texts.refused_text fault) }
{
    put(out, b"chain refused ")?;
    put_fault(alloc, out, fault)?;
    put(out, b"\n")
}

/// Writes the line that refuses a chain file.
pub fn put_chain_refused(
    alloc: Global,
    out: &mut Vec<u8>,
    fault: ChainFault,
) -> Result<(), OutOfMemory>
    ensures { OnOk result (out.new.items ≡ out.old.items ++ spec.chain_refused_line fault) }
{
    put_refused(alloc, out, fault)
}
