//! The parts of a page that frame others.

ghost use Rattle.std.specs.Prelude.{◌≡◌, ◌++◌, codes, IfOk, OnOk};
ghost use Rattle.spec_page.specs.Cells.{each_from, table_look as look_of_table};
ghost use Rattle.spec_page.specs.Page as spec;
ghost use Rattle.draw_page.specs.Frames.{framed, table_text, bar_elements, heading};
ghost use Rattle.draw_page.specs.Texts.{text_of, each_text};

use crate::balances::sum_at;
use crate::cells::{column_look, table_look};
use crate::outlooks::put_outlooks;
use crate::pieces::{Piece, made, put_all};
use spec_data::{Name, OutOfMemory};
use spec_page::{EventRow, Money};
use std::alloc::Global;

/// What stands between two marks.
#[tactic(auto, unfolding(crate::specs::Frames::framed))]
pub(crate) fn put_framed<'a>(
    alloc: Global,
    out: &mut Vec<u8>,
    before: &'a [u8],
    inside: &'a [u8],
    behind: &'a [u8],
) -> Result<(), OutOfMemory>
    ensures { OnOk result (out.new.items ≡ out.old.items ++ framed before.now inside.now behind.now) }
{
    put_all(
        alloc,
        out,
        &[
            Piece::Mark(before),
            Piece::Mark(inside),
            Piece::Mark(behind),
        ],
    )
}

// ---- where the money is

fn put_bar_piece<'a>(
    alloc: Global,
    out: &mut Vec<u8>,
    look: &'a [u8],
    name: &'a [u8],
    value: u64,
) -> Result<(), OutOfMemory>
    ensures { OnOk result (out.new.items ≡ out.old.items ++ text_of (spec.bar_piece look.now name.now value)) }
{
    put_all(
        alloc,
        out,
        &[
            Piece::Mark(b"<div class=\""),
            Piece::Said(look),
            Piece::Mark(b"\" title=\""),
            Piece::Said(name),
            Piece::Mark(b"\" style=\"flex-grow:"),
            Piece::Number(value),
            Piece::Mark(b"\"><span>"),
            Piece::Said(name),
            Piece::Mark(b"</span></div>"),
        ],
    )
}

fn put_party_piece(
    alloc: Global,
    out: &mut Vec<u8>,
    money: &Money,
    column: usize,
    party: &Name,
) -> Result<(), OutOfMemory>
    ensures { OnOk result (out.new.items ≡ out.old.items ++ text_of (spec.party_piece money.now column party.now)) }
{
    let look = made(
        alloc,
        &[Piece::Mark(b"p"), Piece::PlainNumber(column_look(column))],
    )?;
    put_bar_piece(alloc, out, &look, party.bytes(), sum_at(column, money))
}

fn party_pieces(alloc: Global, parties: &[Name], money: &Money) -> Result<Vec<u8>, OutOfMemory>
    ensures { IfOk result (λ text. text.items ≡ each_text (each_from (spec.party_piece money.now) 0 parties.now)) }
{
    let mut text = Vec::new(alloc);
    for (column, party) in parties.iter().enumerate() {
        put_party_piece(alloc, &mut text, money, column, party)?;
    }
    Ok(text)
}

fn bar_pieces(alloc: Global, parties: &[Name], money: &Money) -> Result<Vec<u8>, OutOfMemory>
    ensures { IfOk result (λ text. text.items ≡ each_text (bar_elements parties.now money.now)) }
{
    let mut text = party_pieces(alloc, parties, money)?;
    put_bar_piece(alloc, &mut text, b"in", b"contract", money.contracts)?;
    put_bar_piece(alloc, &mut text, b"out", b"elsewhere", money.elsewhere)?;
    put_bar_piece(alloc, &mut text, b"fee", b"fees", money.fees)?;
    Ok(text)
}

/// Where the money is.
pub(crate) fn put_bar(
    alloc: Global,
    out: &mut Vec<u8>,
    parties: &[Name],
    money: &Money,
) -> Result<(), OutOfMemory>
    ensures { OnOk result (out.new.items ≡ out.old.items ++ text_of (spec.bar_part parties.now money.now)) }
{
    let pieces = bar_pieces(alloc, parties, money)?;
    put_framed(
        alloc,
        out,
        b"<div class=\"bar\" title=\"where the money is\">",
        &pieces,
        b"</div>",
    )
}

// ---- what can be done, and the slider

/// What can be done.
pub(crate) fn put_now(
    alloc: Global,
    out: &mut Vec<u8>,
    rows: &[EventRow],
) -> Result<(), OutOfMemory>
    ensures { OnOk result (out.new.items ≡ out.old.items ++ text_of (spec.outlook_part rows.now)) }
{
    let mut texts = Vec::new(alloc);
    put_outlooks(alloc, &mut texts, rows)?;
    put_framed(
        alloc,
        out,
        b"<div class=\"now\"><b>can now:</b> ",
        &texts,
        b"</div>",
    )
}

/// The slider over rows up to this number.
pub(crate) fn put_slider(alloc: Global, out: &mut Vec<u8>, last: u64) -> Result<(), OutOfMemory>
    ensures { OnOk result (out.new.items ≡ out.old.items ++ text_of (spec.slider_part last)) }
{
    put_all(
        alloc,
        out,
        &[
            Piece::Mark(b"<div class=\"ctl\"><input type=\"range\" id=\"range\" min=\"0\" max=\""),
            Piece::Number(last),
            Piece::Mark(b"\" value=\""),
            Piece::Number(last),
            Piece::Mark(b"\" aria-label=\"event\"><output id=\"said\"></output></div>"),
        ],
    )
}

// ---- texts

/// The contracts' text.
pub(crate) fn put_text(alloc: Global, out: &mut Vec<u8>, text: &[u8]) -> Result<(), OutOfMemory>
    ensures { OnOk result (out.new.items ≡ out.old.items ++ text_of (spec.text_part text.now)) }
{
    put_all(
        alloc,
        out,
        &[
            Piece::Mark(b"<details><summary>the contract's text</summary><pre>"),
            Piece::Said(text),
            Piece::Mark(b"</pre></details>"),
        ],
    )
}

fn put_heading_text<'a>(
    alloc: Global,
    out: &mut Vec<u8>,
    title: &'a [u8],
    worth: &'a [u8],
) -> Result<(), OutOfMemory>
    ensures { OnOk result (out.new.items ≡ out.old.items ++ text_of (heading title.now worth.now)) }
{
    put_all(
        alloc,
        out,
        &[
            Piece::Mark(b"<h1>"),
            Piece::Said(title),
            Piece::Mark(b"<small>"),
            Piece::Said(worth),
            Piece::Mark(b"</small></h1>"),
        ],
    )
}

/// The title, and what the deposits are worth.
pub(crate) fn put_heading(
    alloc: Global,
    out: &mut Vec<u8>,
    title: &[u8],
    total: u64,
) -> Result<(), OutOfMemory>
    ensures { OnOk result (out.new.items ≡ out.old.items ++ text_of (spec.heading_part title.now total)) }
{
    let worth = made(
        alloc,
        &[Piece::PlainSum(total), Piece::Mark(b" satoshi in deposits")],
    )?;
    put_heading_text(alloc, out, title, &worth)
}

// ---- the table

#[tactic(auto, unfolding(crate::specs::Frames::table_text))]
fn put_table_text<'a>(
    alloc: Global,
    out: &mut Vec<u8>,
    look: &'a [u8],
    bodies: &'a [u8],
) -> Result<(), OutOfMemory>
    ensures { OnOk result (out.new.items ≡ out.old.items ++ table_text look.now bodies.now) }
{
    put_all(
        alloc,
        out,
        &[
            Piece::Mark(b"<div class=\"scroll\"><table class=\""),
            Piece::Said(look),
            Piece::Mark(b"\">"),
            Piece::Mark(bodies),
            Piece::Mark(b"</table></div>"),
        ],
    )
}

/// A table of so many parties, whose bodies are written already.
pub(crate) fn put_table(
    alloc: Global,
    out: &mut Vec<u8>,
    count: usize,
    bodies: &[u8],
) -> Result<(), OutOfMemory>
    ensures { OnOk result (out.new.items ≡ out.old.items ++ table_text (look_of_table count) bodies.now) }
{
    put_table_text(alloc, out, table_look(count), bodies)
}
