//! Looks that change from row to row.

ghost use Rattle.std.specs.Prelude.{◌≡◌, ◌++◌, IfOk, OnOk};
ghost use Rattle.std.specs.Str.{bytes_eq};
ghost use Rattle.spec_page.specs.Timeline as spec;

use crate::pieces::{Piece, put_all};
use spec_data::OutOfMemory;
use spec_page::{EventRow, Status};
use std::alloc::Global;

/// Where a part stands, by the looks of a row.
pub fn look_in(part: usize, looks: &[Status]) -> Status
    ensures { result ≡ spec.look_in part looks.now }
{
    match looks.get(part) {
        Some(status) => *status,
        None => Status::Open,
    }
}

/// The class of what stands so.
pub fn status_word(status: Status) -> &'static [u8]
    ensures { result.now ≡ spec.status_word status }
{
    match status {
        Status::Open => b"open",
        Status::Offered => b"offered",
        Status::Taken => b"taken",
        Status::Met => b"met",
        Status::Gone => b"gone",
    }
}

// The look of a part, by the looks of a row.
fn word_at(part: usize, row: &EventRow) -> &'static [u8]
    ensures { result.now ≡ spec.status_word (spec.look_in part row.now.looks) }
{
    status_word(look_in(part, row.looks.as_slice()))
}

pub(crate) fn are_same(one: &[u8], other: &[u8]) -> bool
    ensures { result ≡ bytes_eq one.now other.now }
{
    *one == *other
}

// A look of the first row.
fn put_first(alloc: Global, out: &mut Vec<u8>, word: &[u8]) -> Result<(), OutOfMemory>
    ensures { OnOk result (out.new.items ≡ out.old.items ++ spec.look_at 0 word.now) }
{
    put_all(
        alloc,
        out,
        &[Piece::PlainNumber(0), Piece::Mark(b":"), Piece::Mark(word)],
    )
}

// A look where it differs from the one before.
fn put_change(
    alloc: Global,
    out: &mut Vec<u8>,
    row: u64,
    last: &[u8],
    word: &[u8],
) -> Result<(), OutOfMemory>
    ensures { OnOk result (out.new.items ≡ out.old.items ++ spec.change_of_look row last.now word.now) }
{
    if are_same(last, word) {
        return Ok(());
    }
    put_all(
        alloc,
        out,
        &[
            Piece::Mark(b" "),
            Piece::PlainNumber(row),
            Piece::Mark(b":"),
            Piece::Mark(word),
        ],
    )
}

/// How the look of a part goes on from row to row.
pub(crate) fn statuses_text(
    alloc: Global,
    part: usize,
    rows: &[EventRow],
) -> Result<Vec<u8>, OutOfMemory>
    ensures { IfOk result (λ text. text.items ≡ spec.statuses_text (spec.looks_of part rows.now)) }
{
    let mut text = Vec::new(alloc);
    let Some((first, others)) = rows.split_first() else {
        return Ok(text);
    };
    let mut last = word_at(part, first);
    put_first(alloc, &mut text, last)?;
    for (index, row) in others.iter().enumerate() {
        let word = word_at(part, row);
        put_change(alloc, &mut text, index as u64 + 1, last, word)?;
        last = word;
    }
    Ok(text)
}

/// The look of a part at the end.
pub(crate) fn end_word(part: usize, rows: &[EventRow]) -> &'static [u8]
    ensures { result.now ≡ spec.end_word (spec.looks_of part rows.now) }
{
    let mut word: &'static [u8] = b"open";
    for row in rows {
        word = word_at(part, row);
    }
    word
}
