//! A text that is written piece by piece, by one call.

ghost use Rattle.std.specs.Prelude.{◌≡◌, ◌++◌, IfOk, OnOk};
ghost use Rattle.draw_page.specs.Pieces.{piece_text, pieces_text};

use crate::escaping::put_escaped;
use crate::figures::{put_number, put_plain_sum, put_sum};
use bm_text::{put, put_decimal};
use spec_data::OutOfMemory;
use std::alloc::Global;

/// A piece of a page. A number and a sum stand in a text or a value as they are; the plain ones belong to a text that is still to be
/// escaped.
#[derive(Clone, Copy)]
pub enum Piece<'a> {
    /// Bytes as they are.
    Mark(&'a [u8]),
    /// The bytes of a text or a value.
    Said(&'a [u8]),
    /// A number as a plain decimal.
    Number(u64),
    /// A sum with commas.
    Sum(u64),
    PlainNumber(u64),
    PlainSum(u64),
}

fn put_piece(alloc: Global, out: &mut Vec<u8>, piece: &Piece) -> Result<(), OutOfMemory>
    ensures { OnOk result (out.new.items ≡ out.old.items ++ piece_text piece.now) }
{
    match *piece {
        Piece::Mark(text) => put(out, text),
        Piece::Said(text) => put_escaped(out, text),
        Piece::Number(number) => put_number(alloc, out, number),
        Piece::Sum(sum) => put_sum(alloc, out, sum),
        Piece::PlainNumber(number) => put_decimal(alloc, out, number),
        Piece::PlainSum(sum) => put_plain_sum(alloc, out, sum),
    }
}

/// Pieces, one behind another.
pub fn put_all(alloc: Global, out: &mut Vec<u8>, pieces: &[Piece]) -> Result<(), OutOfMemory>
    ensures { OnOk result (out.new.items ≡ out.old.items ++ pieces_text pieces.now) }
{
    for piece in pieces {
        put_piece(alloc, out, piece)?;
    }
    Ok(())
}

/// A text of these pieces.
pub fn made(alloc: Global, pieces: &[Piece]) -> Result<Vec<u8>, OutOfMemory>
    ensures { IfOk result (λ text. text.items ≡ pieces_text pieces.now) }
{
    let mut text = Vec::new(alloc);
    put_all(alloc, &mut text, pieces)?;
    Ok(text)
}
