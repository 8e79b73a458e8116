//! Pieces of text that several lines have.

ghost use Rattle.std.specs.Prelude.{◌≡◌, ◌++◌, codes, OnOk};
ghost use Rattle.std.specs.Fmt.{decimal};
ghost use Rattle.spec_text.specs.RunText as spec;

use bm_runfile::{put_byte, put_output};
use bm_text::put_decimal;
use spec_data::OutOfMemory;
use std::alloc::Global;

/// ` #n v`
#[tactic(auto, using(std::proofs::Common::append_assoc))]
pub(crate) fn put_made(
    alloc: Global,
    out: &mut Vec<u8>,
    number: u32,
    value: u64,
) -> Result<(), OutOfMemory>
    ensures { OnOk result (out.new.items ≡ out.old.items ++ (codes " " ++ (spec.output_text number ++ (codes " " ++ decimal value)))) }
{
    put_byte(out, b' ')?;
    put_output(alloc, out, number)?;
    put_byte(out, b' ')?;
    put_decimal(alloc, out, value)
}
