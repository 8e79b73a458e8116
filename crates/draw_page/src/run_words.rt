//! What stands in the attributes and the first cells of a row of a run.

ghost use Rattle.std.specs.Prelude.{◌≡◌, ◌++◌, flat_map, [], codes, IfOk, OnOk};
ghost use Rattle.std.specs.Fmt.{decimal};
ghost use Rattle.spec_page.specs.Html.{element, said, content_text};
ghost use Rattle.spec_page.specs.RunPart as spec;
ghost use Rattle.draw_page.specs.Texts.{text_of};

use crate::conditions::put_span;
use crate::pieces::{Piece, made, put_all};
use bm_text::put;
use spec_data::OutOfMemory;
use spec_page::{EventRow, Look, Money};
use std::alloc::Global;

/// The class of a row.
pub fn look_word(look: Look) -> &'static [u8]
    ensures { result.now ≡ spec.look_word look }
{
    match look {
        Look::Start => b"start",
        Look::Blocks => b"blocks",
        Look::Done => b"done",
        Look::Accepted => b"accepted",
        Look::Refused => b"refused",
        Look::More => b"more",
        Look::Halt => b"halt",
    }
}

fn event_id(alloc: Global, first: u32) -> Result<Vec<u8>, OutOfMemory>
    ensures { IfOk result (λ text. text.items ≡ codes "event-" ++ decimal first) }
{
    made(
        alloc,
        &[Piece::Mark(b"event-"), Piece::PlainNumber(u64::from(first))],
    )
}

/// The id of a row.
pub fn row_id(alloc: Global, first: u32, look: Look) -> Result<Vec<u8>, OutOfMemory>
    ensures { IfOk result (λ text. text.items ≡ spec.row_id first look) }
{
    match look {
        Look::Start => made(alloc, &[Piece::Mark(b"start")]),
        Look::Blocks => event_id(alloc, first),
        Look::Done => event_id(alloc, first),
        Look::Accepted => event_id(alloc, first),
        Look::Refused => event_id(alloc, first),
        Look::More => made(alloc, &[Piece::Mark(b"more")]),
        Look::Halt => made(alloc, &[Piece::Mark(b"halt")]),
    }
}

// What each party has, with a space behind it.
#[tactic(auto, using(std::proofs::Common::append_assoc))]
fn put_sums(alloc: Global, out: &mut Vec<u8>, sums: &[u64]) -> Result<(), OutOfMemory>
    ensures { OnOk result (out.new.items ≡ out.old.items ++ flat_map (λ v. decimal v ++ codes " ") sums.now) }
{
    for sum in sums {
        put_all(alloc, out, &[Piece::PlainNumber(*sum), Piece::Mark(b" ")])?;
    }
    Ok(())
}

/// All sums, in the order of the bar.
#[tactic(auto, using(std::proofs::Common::append_assoc))]
pub(crate) fn money_text(alloc: Global, money: &Money) -> Result<Vec<u8>, OutOfMemory>
    ensures { IfOk result (λ text. text.items ≡ spec.money_text money.now) }
{
    let mut text = Vec::new(alloc);
    put_sums(alloc, &mut text, money.parties.as_slice())?;
    put_all(
        alloc,
        &mut text,
        &[
            Piece::PlainNumber(money.contracts),
            Piece::Mark(b" "),
            Piece::PlainNumber(money.elsewhere),
            Piece::Mark(b" "),
            Piece::PlainNumber(money.fees),
        ],
    )?;
    Ok(text)
}

fn range_text(alloc: Global, first: u32, last: u32) -> Result<Vec<u8>, OutOfMemory>
    ensures { IfOk result (λ text. text.items ≡ spec.range_text first last) }
{
    if first < last {
        return made(
            alloc,
            &[
                Piece::PlainNumber(u64::from(first)),
                Piece::Mark(b"-"),
                Piece::PlainNumber(u64::from(last)),
            ],
        );
    }
    made(alloc, &[Piece::PlainNumber(u64::from(first))])
}

fn put_place<'a>(
    alloc: Global,
    out: &mut Vec<u8>,
    range: &'a [u8],
    count: u64,
) -> Result<(), OutOfMemory>
    ensures { OnOk result (out.new.items ≡ out.old.items ++ (codes "event " ++ (range.now ++ (codes " of " ++ decimal count)))) }
{
    put_all(
        alloc,
        out,
        &[
            Piece::Mark(b"event "),
            Piece::Mark(range),
            Piece::Mark(b" of "),
            Piece::PlainNumber(count),
        ],
    )
}

fn put_numbers(
    alloc: Global,
    out: &mut Vec<u8>,
    count: u64,
    row: &EventRow,
) -> Result<(), OutOfMemory>
    ensures { OnOk result (out.new.items ≡ out.old.items
        ++ (codes "event " ++ (spec.range_text row.now.first row.now.last ++ (codes " of " ++ decimal count)))) }
{
    let range = range_text(alloc, row.first, row.last)?;
    put_place(alloc, out, &range, count)
}

fn put_events(
    alloc: Global,
    out: &mut Vec<u8>,
    count: u64,
    row: &EventRow,
) -> Result<(), OutOfMemory>
    ensures { OnOk result (out.new.items ≡ out.old.items ++ spec.events_text count row.now row.now.look) }
{
    match row.look {
        Look::Start => put(out, b"before the run"),
        Look::Blocks => put_numbers(alloc, out, count, row),
        Look::Done => put_numbers(alloc, out, count, row),
        Look::Accepted => put_numbers(alloc, out, count, row),
        Look::Refused => put_numbers(alloc, out, count, row),
        Look::More => put(out, b"the end"),
        Look::Halt => put(out, b"the halt"),
    }
}

/// What stands beside the slider.
#[tactic(auto, using(std::proofs::Common::append_assoc))]
pub(crate) fn said_text(alloc: Global, count: u64, row: &EventRow) -> Result<Vec<u8>, OutOfMemory>
    ensures { IfOk result (λ text. text.items ≡ spec.said_text count row.now) }
{
    let mut text = Vec::new(alloc);
    put_events(alloc, &mut text, count, row)?;
    put_all(
        alloc,
        &mut text,
        &[
            Piece::Mark(b", height "),
            Piece::PlainSum(u64::from(row.height)),
        ],
    )?;
    Ok(text)
}

/// The numbers of the events of a row.
pub fn number_text(alloc: Global, row: &EventRow) -> Result<Vec<u8>, OutOfMemory>
    ensures { IfOk result (λ text. text.items ≡ spec.number_text row.now row.now.look) }
{
    match row.look {
        Look::Start => Ok(Vec::new(alloc)),
        Look::Blocks => range_text(alloc, row.first, row.last),
        Look::Done => range_text(alloc, row.first, row.last),
        Look::Accepted => range_text(alloc, row.first, row.last),
        Look::Refused => range_text(alloc, row.first, row.last),
        Look::More => Ok(Vec::new(alloc)),
        Look::Halt => Ok(Vec::new(alloc)),
    }
}

fn put_em(alloc: Global, out: &mut Vec<u8>, note: &[u8]) -> Result<(), OutOfMemory>
    ensures { OnOk result (out.new.items ≡ out.old.items ++ text_of (element (codes "em") [] (said note.now))) }
{
    put_all(
        alloc,
        out,
        &[
            Piece::Mark(b"<em>"),
            Piece::Said(note),
            Piece::Mark(b"</em>"),
        ],
    )
}

fn put_note(alloc: Global, out: &mut Vec<u8>, look: Look, note: &[u8]) -> Result<(), OutOfMemory>
    ensures { OnOk result (out.new.items ≡ out.old.items ++ text_of (spec.note_element look note.now)) }
{
    match look {
        Look::Refused => put_em(alloc, out, note),
        Look::Halt => put_em(alloc, out, note),
        Look::Start => put_span(alloc, out, b"note", note),
        Look::Blocks => put_span(alloc, out, b"note", note),
        Look::Done => put_span(alloc, out, b"note", note),
        Look::Accepted => put_span(alloc, out, b"note", note),
        Look::More => put_span(alloc, out, b"note", note),
    }
}

/// Why a row was refused or what halted, or the height, with a space before it.
pub(crate) fn note_text(alloc: Global, look: Look, note: &[u8]) -> Result<Vec<u8>, OutOfMemory>
    ensures { IfOk result (λ text. text.items ≡ content_text (spec.note_content look note.now)) }
{
    let mut text = Vec::new(alloc);
    if note.is_empty() {
        return Ok(text);
    }
    put(&mut text, b" ")?;
    put_note(alloc, &mut text, look, note)?;
    Ok(text)
}
