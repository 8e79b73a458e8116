//! What can be done: each text is shown until the next.

ghost use Rattle.std.specs.Prelude.{◌≡◌, ◌+◌, ◌++◌, ◌∷◌, [], codes, IfOk, OnOk};
ghost use Rattle.spec_page.specs.Html.{element, said};
ghost use Rattle.spec_page.specs.Page as spec;
ghost use Rattle.spec_page.specs.Timeline as timeline;
ghost use Rattle.draw_page.specs.Texts.{text_of, lines_text};

use crate::looks::are_same;
use crate::parts::further;
use crate::pieces::{Piece, put_all};
use bm_text::put;
use spec_data::OutOfMemory;
use spec_page::EventRow;
use std::alloc::Global;

// The number of the first of these rows, numbered from this number on, whose text isn't this one.
fn next_change(number: usize, text: &[u8], rows: &[EventRow]) -> Result<Option<usize>, OutOfMemory>
    ensures { IfOk result (λ next. next ≡ timeline.next_change number text.now (spec.outlook_texts rows.now)) }
{
    for (index, row) in rows.iter().enumerate() {
        if !are_same(text, row.outlook.as_slice()) {
            let next = further(number, index)?;
            return Ok(Some(next));
        }
    }
    Ok(None)
}

fn put_until(alloc: Global, out: &mut Vec<u8>, next: Option<usize>) -> Result<(), OutOfMemory>
    ensures { OnOk result (out.new.items ≡ out.old.items ++ timeline.until next) }
{
    match next {
        None => Ok(()),
        Some(number) => put_all(
            alloc,
            out,
            &[
                Piece::Mark(b" "),
                Piece::PlainNumber(number as u64),
                Piece::Mark(b":off"),
            ],
        ),
    }
}

fn off_before(number: usize) -> &'static [u8]
    ensures { result.now ≡ timeline.off_before number }
{
    if number == 0 { b"" } else { b"0:off " }
}

// When the text of a row is shown.
#[tactic(auto, using(std::proofs::Common::append_assoc))]
fn shown_text(alloc: Global, number: usize, next: Option<usize>) -> Result<Vec<u8>, OutOfMemory>
    ensures { IfOk result (λ text. text.items ≡ timeline.shown_text number next) }
{
    let mut text = Vec::new(alloc);
    put_all(
        alloc,
        &mut text,
        &[
            Piece::Mark(off_before(number)),
            Piece::PlainNumber(number as u64),
            Piece::Mark(b":on"),
        ],
    )?;
    put_until(alloc, &mut text, next)?;
    Ok(text)
}

fn shown_word(next: Option<usize>) -> &'static [u8]
    ensures { result.now ≡ timeline.shown_word next }
{
    match next {
        None => b"on",
        Some(_) => b"off",
    }
}

fn put_outlook_text<'a>(
    alloc: Global,
    out: &mut Vec<u8>,
    shown: &'a [u8],
    at: &'a [u8],
    text: &'a [u8],
) -> Result<(), OutOfMemory>
    ensures { OnOk result (out.new.items ≡ out.old.items
        ++ text_of (element (codes "p") ((codes "class", shown.now) ∷ (codes "data-at", at.now) ∷ []) (said text.now))) }
{
    put_all(
        alloc,
        out,
        &[
            Piece::Mark(b"<p class=\""),
            Piece::Said(shown),
            Piece::Mark(b"\" data-at=\""),
            Piece::Said(at),
            Piece::Mark(b"\">"),
            Piece::Said(text),
            Piece::Mark(b"</p>"),
        ],
    )
}

fn put_outlook(
    alloc: Global,
    out: &mut Vec<u8>,
    number: usize,
    text: &[u8],
    next: Option<usize>,
) -> Result<(), OutOfMemory>
    ensures { OnOk result (out.new.items ≡ out.old.items ++ text_of (spec.outlook_element number text.now next)) }
{
    let at = shown_text(alloc, number, next)?;
    put_outlook_text(alloc, out, shown_word(next), &at, text)
}

// A text before those of these rows, on a line of its own.
#[tactic(auto, using(std::proofs::Common::append_assoc))]
fn put_outlook_line(
    alloc: Global,
    out: &mut Vec<u8>,
    number: usize,
    text: &[u8],
    rows: &[EventRow],
) -> Result<(), OutOfMemory>
    ensures { OnOk result (out.new.items ≡ out.old.items
        ++ (text_of (spec.outlook_element number text.now (timeline.next_change (number + 1) text.now (spec.outlook_texts rows.now))) ++ 10 ∷ [])) }
{
    let later = further(number, 1)?;
    let next = next_change(later, text, rows)?;
    put_outlook(alloc, out, number, text, next)?;
    put(out, b"\n")
}

// One that differs from the one before.
fn put_change<'a>(
    alloc: Global,
    out: &mut Vec<u8>,
    number: usize,
    last: &'a [u8],
    text: &'a [u8],
    rows: &[EventRow],
) -> Result<(), OutOfMemory>
    ensures { OnOk result (out.new.items ≡ out.old.items
        ++ lines_text (spec.change_of_outlook number last.now text.now (spec.outlook_texts rows.now))) }
{
    if are_same(last, text) {
        return Ok(());
    }
    put_outlook_line(alloc, out, number, text, rows)
}

// Those of the rows from this number on; this text stands before them.
#[tactic(auto, using(std::proofs::Common::append_assoc, crate::proofs::WayLemmas::lines_text_append))]
fn put_others<'a>(
    alloc: Global,
    out: &mut Vec<u8>,
    text: &'a [u8],
    rows: &'a [EventRow],
) -> Result<(), OutOfMemory>
    ensures { OnOk result (out.new.items ≡ out.old.items ++ lines_text (spec.outlooks_from 1 text.now (spec.outlook_texts rows.now))) }
{
    let mut number = 1;
    let mut last = text;
    let mut rest = rows;
    while let Some((row, later)) = rest.split_first() {
        put_change(alloc, out, number, last, row.outlook.as_slice(), later)?;
        last = row.outlook.as_slice();
        rest = later;
        number = further(number, 1)?;
    }
    Ok(())
}

/// What can be done after each row.
#[tactic(auto, using(std::proofs::Common::append_assoc))]
pub(crate) fn put_outlooks(
    alloc: Global,
    out: &mut Vec<u8>,
    rows: &[EventRow],
) -> Result<(), OutOfMemory>
    ensures { OnOk result (out.new.items ≡ out.old.items ++ lines_text (spec.outlook_elements (spec.outlook_texts rows.now))) }
{
    let Some((first, others)) = rows.split_first() else {
        return Ok(());
    };
    let text = first.outlook.as_slice();
    put_outlook_line(alloc, out, 0, text, others)?;
    put_others(alloc, out, text, others)
}
