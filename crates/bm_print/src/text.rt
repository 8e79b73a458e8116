//! Numbers and pieces, put at the end of what is there.

ghost use Rattle.std.specs.Prelude.{◌≡◌, ◌++◌, OnOk};
ghost use Rattle.std.specs.Fmt.{decimal};
ghost use Rattle.bm_text.specs.Pieces.{pieces_text};

use bm_text::{Piece, put_all, put_decimal};
use spec_data::OutOfMemory;

/// Writes the number in plain decimal digits.
pub fn put_number(out: &mut Vec<u8>, number: u64) -> Result<(), OutOfMemory>
    ensures { OnOk result (out.new.items ≡ out.old.items ++ decimal number) }
{
    let alloc = *out.allocator();
    put_decimal(alloc, out, number)
}

/// Writes pieces, one behind another.
pub fn put_pieces(out: &mut Vec<u8>, pieces: &[Piece]) -> Result<(), OutOfMemory>
    ensures { OnOk result (out.new.items ≡ out.old.items ++ pieces_text pieces.now) }
{
    let alloc = *out.allocator();
    put_all(alloc, out, pieces)
}
