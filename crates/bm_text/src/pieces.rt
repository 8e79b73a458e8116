//! A text that is written piece by piece, by one call.

ghost use Rattle.std.specs.Prelude.{◌≡◌, ◌++◌, OnOk};
ghost use Rattle.bm_text.specs.Pieces.{piece_text, pieces_text};

use crate::decimals::put_decimal;
use crate::hexadecimal::put_hex;
use crate::piece::put;
use spec_data::OutOfMemory;
use std::alloc::Global;

/// A piece of a text.
#[derive(Clone, Copy)]
pub enum Piece<'a> {
    /// Bytes as they are.
    Text(&'a [u8]),
    /// A number as a plain decimal.
    Number(u64),
    /// Bytes as hexadecimal digits in lower case, two for each.
    Hex(&'a [u8]),
}

fn put_piece(alloc: Global, out: &mut Vec<u8>, piece: &Piece) -> Result<(), OutOfMemory>
    ensures { OnOk result (out.new.items ≡ out.old.items ++ piece_text piece.now) }
{
    match *piece {
        Piece::Text(text) => put(out, text),
        Piece::Number(number) => put_decimal(alloc, out, number),
        Piece::Hex(bytes) => put_hex(alloc, out, bytes),
    }
}

/// Pieces, one behind another. A writer of several pieces is proved faster by one such call than by a call for each.
pub fn put_all(alloc: Global, out: &mut Vec<u8>, pieces: &[Piece]) -> Result<(), OutOfMemory>
    ensures { OnOk result (out.new.items ≡ out.old.items ++ pieces_text pieces.now) }
{
    for piece in pieces {
        put_piece(alloc, out, piece)?;
    }
    Ok(())
}
