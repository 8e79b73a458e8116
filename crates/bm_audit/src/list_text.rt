//! How absent transactions and missing signatures are printed.

ghost use Rattle.std.specs.Prelude.{◌≡◌, ◌++◌, OnOk};
ghost use Rattle.std.specs.List.{flat_map};
ghost use Rattle.spec_tool.specs.AuditText as spec;

use bm_keys::put_label;
use bm_text::{put, put_decimal};
use spec_bitcoin::Label;
use spec_data::OutOfMemory;
use spec_tool::Which;
use std::alloc::Global;
use tool_which::put_which;

#[tactic(auto, using(std::proofs::Common::append_assoc))]
fn put_absent(alloc: Global, out: &mut Vec<u8>, which: &Which) -> Result<(), OutOfMemory>
    ensures { OnOk result (out.new.items ≡ out.old.items ++ spec.absent_line which.now) }
{
    put(out, b"absent ")?;
    put_which(alloc, out, which)?;
    put(out, b"\n")
}

/// A line for each absent transaction.
#[tactic(auto, using(std::proofs::Common::append_assoc))]
pub(crate) fn put_all_absent(
    alloc: Global,
    out: &mut Vec<u8>,
    absent: &[Which],
) -> Result<(), OutOfMemory>
    ensures { OnOk result (out.new.items ≡ out.old.items ++ flat_map spec.absent_line absent.now) }
{
    for which in absent {
        put_absent(alloc, out, which)?;
    }
    Ok(())
}

#[tactic(auto, using(std::proofs::Common::append_assoc))]
fn put_missing(
    alloc: Global,
    out: &mut Vec<u8>,
    which: &Which,
    input: u32,
    label: &Label,
) -> Result<(), OutOfMemory>
    ensures { OnOk result (out.new.items ≡ out.old.items ++ spec.missing_line (which.now, input, label.now)) }
{
    put(out, b"missing ")?;
    put_which(alloc, out, which)?;
    put(out, b" ")?;
    put_decimal(alloc, out, input as u64)?;
    put(out, b" ")?;
    put_label(alloc, out, label)?;
    put(out, b"\n")
}

/// A line for each missing signature.
#[tactic(auto, using(std::proofs::Common::append_assoc))]
pub(crate) fn put_all_missing(
    alloc: Global,
    out: &mut Vec<u8>,
    missing: &[(Which, u32, Label)],
) -> Result<(), OutOfMemory>
    ensures { OnOk result (out.new.items ≡ out.old.items ++ flat_map spec.missing_line missing.now) }
{
    for (which, input, label) in missing {
        put_missing(alloc, out, which, *input, label)?;
    }
    Ok(())
}
