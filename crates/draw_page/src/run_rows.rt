//! The rows of a run.

ghost use Rattle.std.specs.Prelude.{◌≡◌, ◌++◌, codes, None, IfOk, OnOk};
ghost use Rattle.std.specs.Option.{option_copied};
ghost use Rattle.spec_page.specs.Cells.{each_party};
ghost use Rattle.spec_page.specs.Html.{content_text};
ghost use Rattle.spec_page.specs.RunPart as spec;
ghost use Rattle.draw_page.specs.RunTexts.{event_row_text, end_row_text};
ghost use Rattle.draw_page.specs.Scenes.{columns_of};
ghost use Rattle.draw_page.specs.Texts.{text_of, each_text, lines_text};

use crate::balances::{last_sums, party_sums};
use crate::cells::put_head_row;
use crate::pieces::{Piece, put_all};
use crate::run_words::{look_word, money_text, note_text, number_text, row_id, said_text};
use crate::scene::Columns;
use bm_text::put;
use spec_data::{Name, OutOfMemory};
use spec_page::{EventRow, Money};
use std::alloc::Global;

#[tactic(auto, unfolding(crate::specs::RunTexts::event_row_text))]
fn put_event_text<'a>(
    alloc: Global,
    out: &mut Vec<u8>,
    look: &'a [u8],
    id: &'a [u8],
    first: u64,
    money: &'a [u8],
    said: &'a [u8],
    numbers: &'a [u8],
    lines: &'a [u8],
    words: &'a [u8],
    note: &'a [u8],
    cells: &'a [u8],
    rest: &'a [u8],
) -> Result<(), OutOfMemory>
    ensures { OnOk result (out.new.items ≡ out.old.items
        ++ event_row_text look.now id.now first money.now said.now numbers.now lines.now words.now note.now cells.now rest.now) }
{
    put_all(
        alloc,
        out,
        &[
            Piece::Mark(b"<tr class=\"ev "),
            Piece::Said(look),
            Piece::Mark(b"\" id=\""),
            Piece::Said(id),
            Piece::Mark(b"\" data-first=\""),
            Piece::Number(first),
            Piece::Mark(b"\" data-money=\""),
            Piece::Said(money),
            Piece::Mark(b"\" data-said=\""),
            Piece::Said(said),
            Piece::Mark(b"\"><td class=\"path\"><bdi>"),
            Piece::Said(numbers),
            Piece::Mark(b"</bdi></td><td class=\"what\" title=\""),
            Piece::Said(lines),
            Piece::Mark(b"\">"),
            Piece::Said(words),
            Piece::Mark(note),
            Piece::Mark(b"</td>"),
            Piece::Mark(cells),
            Piece::Mark(rest),
            Piece::Mark(b"</tr>"),
        ],
    )
}

// A row whose cells are written already.
fn put_event_cells<'a>(
    alloc: Global,
    out: &mut Vec<u8>,
    count: u64,
    row: &EventRow,
    cells: &'a [u8],
    rest: &'a [u8],
) -> Result<(), OutOfMemory>
    ensures { OnOk result (out.new.items ≡ out.old.items
        ++ event_row_text (spec.look_word row.now.look) (spec.row_id row.now.first row.now.look) row.now.first (spec.money_text row.now.money)
        (spec.said_text count row.now) (spec.number_text row.now row.now.look) row.now.lines row.now.words
        (content_text (spec.note_content row.now.look row.now.note)) cells.now rest.now) }
{
    let id = row_id(alloc, row.first, row.look)?;
    let money = money_text(alloc, &row.money)?;
    let said = said_text(alloc, count, row)?;
    let numbers = number_text(alloc, row)?;
    let note = note_text(alloc, row.look, row.note.as_slice())?;
    put_event_text(
        alloc,
        out,
        look_word(row.look),
        &id,
        u64::from(row.first),
        &money,
        &said,
        &numbers,
        row.lines.as_slice(),
        row.words.as_slice(),
        &note,
        cells,
        rest,
    )
}

// A row, behind one that left this money.
fn put_event(
    alloc: Global,
    out: &mut Vec<u8>,
    columns: &Columns,
    count: u64,
    before: Option<&Money>,
    row: &EventRow,
) -> Result<(), OutOfMemory>
    ensures { OnOk result (out.new.items ≡ out.old.items
        ++ text_of (spec.event_element (columns_of columns.now) count (option_copied before.entry) row.now)) }
{
    let cells = party_sums(alloc, columns, &row.actor, before, &row.money)?;
    let rest = last_sums(alloc, columns, before, &row.money)?;
    put_event_cells(alloc, out, count, row, &cells, &rest)
}

#[tactic(auto, using(std::proofs::Common::append_assoc))]
fn put_events(
    alloc: Global,
    out: &mut Vec<u8>,
    columns: &Columns,
    count: u64,
    rows: &[EventRow],
) -> Result<(), OutOfMemory>
    ensures { OnOk result (out.new.items ≡ out.old.items
        ++ lines_text (spec.event_elements (columns_of columns.now) count None rows.now)) }
{
    let mut before = None;
    for row in rows {
        put_event(alloc, out, columns, count, before, row)?;
        put(out, b"\n")?;
        before = Some(&row.money);
    }
    Ok(())
}

#[tactic(auto, unfolding(crate::specs::RunTexts::end_row_text))]
fn put_end_text<'a>(
    alloc: Global,
    out: &mut Vec<u8>,
    cells: &'a [u8],
    rest: &'a [u8],
) -> Result<(), OutOfMemory>
    ensures { OnOk result (out.new.items ≡ out.old.items ++ end_row_text cells.now rest.now) }
{
    put_all(
        alloc,
        out,
        &[
            Piece::Mark(b"<tr class=\"total\"><td></td><td class=\"what\">at the end</td>"),
            Piece::Mark(cells),
            Piece::Mark(rest),
            Piece::Mark(b"</tr>"),
        ],
    )
}

// All sums at the end.
fn put_end(
    alloc: Global,
    out: &mut Vec<u8>,
    columns: &Columns,
    money: &Money,
) -> Result<(), OutOfMemory>
    ensures { OnOk result (out.new.items ≡ out.old.items ++ text_of (spec.end_element (columns_of columns.now) money.now)) }
{
    let nobody: Option<Name> = None;
    let cells = party_sums(alloc, columns, &nobody, None, money)?;
    let rest = last_sums(alloc, columns, None, money)?;
    put_end_text(alloc, out, &cells, &rest)
}

fn put_head(alloc: Global, out: &mut Vec<u8>, columns: &Columns) -> Result<(), OutOfMemory>
    ensures { OnOk result (out.new.items ≡ out.old.items ++ text_of (spec.run_head (columns_of columns.now))) }
{
    put_head_row(
        alloc,
        out,
        columns,
        b"the run",
        b"contract",
        b"elsewhere",
        b"fees",
    )
}

/// The rows of a run of so many events, which left this money, a line each.
#[tactic(auto, using(std::proofs::Common::append_assoc, crate::proofs::WayLemmas::lines_text_append), unfolding(spec_page::specs::RunPart::run_elements))]
pub(crate) fn put_run(
    alloc: Global,
    out: &mut Vec<u8>,
    columns: &Columns,
    count: u64,
    rows: &[EventRow],
    money: &Money,
) -> Result<(), OutOfMemory>
    ensures { OnOk result (out.new.items ≡ out.old.items ++ lines_text (spec.run_elements (columns_of columns.now) count rows.now money.now)) }
{
    put_head(alloc, out, columns)?;
    put(out, b"\n")?;
    put_events(alloc, out, columns, count, rows)?;
    put_end(alloc, out, columns, money)?;
    put(out, b"\n")
}
