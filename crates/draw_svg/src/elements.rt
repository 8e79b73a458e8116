//! A text at a place, with its frame and its mark.

ghost use Rattle.std.specs.Prelude.{◌≡◌, ◌+◌, ◌*◌, ◌++◌, ◌∷◌, [], map, codes, IfOk, OnOk};
ghost use Rattle.std.specs.Fmt.{decimal};
ghost use Rattle.spec_page.specs.Html.{element, nothing, said};
ghost use Rattle.spec_page.specs.Svg as spec;
ghost use Rattle.spec_page.specs.declared.svg_row.Kind.TheVariants as kinds;
ghost use Rattle.spec_page.specs.SvgItems.{kind_word as word_of_kind, status_class as class_of_status, item_class as class_of};
ghost use Rattle.draw_page.specs.Texts.{text_of, each_text};
ghost use Rattle.draw_svg.specs.PlacedTexts.{item_text};

use crate::sizes::front;
use draw_page::{Piece, further, made, put_all, status_word};
use spec_data::OutOfMemory;
use spec_page::{Item, Kind, Status};
use std::alloc::{AllocError, Global};

/// So many times a number, and so many more.
pub(crate) fn scaled(number: usize, times: u64, more: u64) -> Result<u64, OutOfMemory>
    ensures { IfOk result (λ n. n ≡ times * number + more) }
{
    let product = times.checked_mul(number as u64).ok_or(AllocError)?;
    product.checked_add(more).ok_or(AllocError)
}

// ---- classes

fn name_word(alloc: Global, column: u32) -> Result<Vec<u8>, OutOfMemory>
    ensures { IfOk result (λ text. text.items ≡ word_of_kind (kinds.Name column)) }
{
    made(
        alloc,
        &[
            Piece::Mark(b"name p"),
            Piece::PlainNumber(u64::from(column.min(6))),
        ],
    )
}

fn kind_word(alloc: Global, kind: Kind) -> Result<Vec<u8>, OutOfMemory>
    ensures { IfOk result (λ text. text.items ≡ word_of_kind kind) }
{
    match kind {
        Kind::Word => made(alloc, &[Piece::Mark(b"word")]),
        Kind::Strong => made(alloc, &[Piece::Mark(b"strong")]),
        Kind::Note => made(alloc, &[Piece::Mark(b"note")]),
        Kind::Bad => made(alloc, &[Piece::Mark(b"bad")]),
        Kind::Name(column) => name_word(alloc, column),
        Kind::Path => made(alloc, &[Piece::Mark(b"path")]),
        Kind::Chip => made(alloc, &[Piece::Mark(b"chip")]),
        Kind::Sum => made(alloc, &[Piece::Mark(b"sum")]),
    }
}

fn put_status(alloc: Global, out: &mut Vec<u8>, status: Option<Status>) -> Result<(), OutOfMemory>
    ensures { OnOk result (out.new.items ≡ out.old.items ++ class_of_status status) }
{
    match status {
        None => Ok(()),
        Some(status) => put_all(
            alloc,
            out,
            &[Piece::Mark(b" "), Piece::Mark(status_word(status))],
        ),
    }
}

fn item_class(alloc: Global, item: &Item) -> Result<Vec<u8>, OutOfMemory>
    ensures { IfOk result (λ text. text.items ≡ class_of item.now) }
{
    let mut text = kind_word(alloc, item.kind)?;
    put_status(alloc, &mut text, item.status)?;
    Ok(text)
}

// ---- elements

fn put_frame_text(
    alloc: Global,
    out: &mut Vec<u8>,
    class: &[u8],
    x: u64,
    y: u64,
    width: u64,
) -> Result<(), OutOfMemory>
    ensures { OnOk result (out.new.items ≡ out.old.items ++ text_of (element (codes "rect")
        ((codes "class", class.now) ∷ (codes "x", decimal x) ∷ (codes "y", decimal y) ∷ (codes "width", decimal width)
        ∷ (codes "height", codes "16") ∷ (codes "rx", codes "8") ∷ []) nothing)) }
{
    put_all(
        alloc,
        out,
        &[
            Piece::Mark(b"<rect class=\""),
            Piece::Said(class),
            Piece::Mark(b"\" x=\""),
            Piece::Number(x),
            Piece::Mark(b"\" y=\""),
            Piece::Number(y),
            Piece::Mark(b"\" width=\""),
            Piece::Number(width),
            Piece::Mark(b"\" height=\"16\" rx=\"8\"></rect>"),
        ],
    )
}

fn put_frame(
    alloc: Global,
    out: &mut Vec<u8>,
    line: usize,
    at: usize,
    item: &Item,
) -> Result<(), OutOfMemory>
    ensures { OnOk result (out.new.items ≡ out.old.items ++ text_of (spec.frame_element line at item.now)) }
{
    let class = item_class(alloc, item)?;
    let x = scaled(at, 8, 8)?;
    let y = scaled(line, 20, 10)?;
    let count = further(front(item.kind), item.text.as_slice().len())?;
    let width = scaled(count, 8, 4)?;
    put_frame_text(alloc, out, &class, x, y, width)
}

// Conditions have a frame.
fn put_frames(
    alloc: Global,
    out: &mut Vec<u8>,
    line: usize,
    at: usize,
    item: &Item,
) -> Result<(), OutOfMemory>
    ensures { OnOk result (out.new.items ≡ out.old.items ++ each_text (spec.frames_of line at item.now item.now.kind)) }
{
    match item.kind {
        Kind::Chip => put_frame(alloc, out, line, at, item),
        Kind::Word => Ok(()),
        Kind::Strong => Ok(()),
        Kind::Note => Ok(()),
        Kind::Bad => Ok(()),
        Kind::Name(_) => Ok(()),
        Kind::Path => Ok(()),
        Kind::Sum => Ok(()),
    }
}

fn put_outline<'a>(
    alloc: Global,
    out: &mut Vec<u8>,
    class: &'a [u8],
    outline: &'a [u8],
) -> Result<(), OutOfMemory>
    ensures { OnOk result (out.new.items ≡ out.old.items
        ++ text_of (element (codes "path") ((codes "class", class.now) ∷ (codes "d", outline.now) ∷ []) nothing)) }
{
    put_all(
        alloc,
        out,
        &[
            Piece::Mark(b"<path class=\""),
            Piece::Said(class),
            Piece::Mark(b"\" d=\""),
            Piece::Said(outline),
            Piece::Mark(b"\"></path>"),
        ],
    )
}

// A mark of this class and outline.
fn put_mark(
    alloc: Global,
    out: &mut Vec<u8>,
    line: usize,
    at: usize,
    class: &[u8],
    shape: &[u8],
) -> Result<(), OutOfMemory>
    ensures { OnOk result (out.new.items ≡ out.old.items ++ text_of (spec.mark_element line at (class.now, shape.now))) }
{
    let x = scaled(at, 8, 11)?;
    let y = scaled(line, 20, 18)?;
    let outline = made(
        alloc,
        &[
            Piece::Mark(b"M"),
            Piece::PlainNumber(x),
            Piece::Mark(b" "),
            Piece::PlainNumber(y),
            Piece::Mark(shape),
        ],
    )?;
    put_outline(alloc, out, class, &outline)
}

// Only of conditions it is marked that they are open.
fn put_open(
    alloc: Global,
    out: &mut Vec<u8>,
    line: usize,
    at: usize,
    kind: Kind,
) -> Result<(), OutOfMemory>
    ensures { OnOk result (out.new.items ≡ out.old.items ++ each_text (map (spec.mark_element line at) (spec.open_mark kind))) }
{
    match kind {
        Kind::Chip => put_mark(
            alloc,
            out,
            line,
            at,
            b"ring",
            b"a3 3 0 1 0 6 0a3 3 0 1 0-6 0",
        ),
        Kind::Word => Ok(()),
        Kind::Strong => Ok(()),
        Kind::Note => Ok(()),
        Kind::Bad => Ok(()),
        Kind::Name(_) => Ok(()),
        Kind::Path => Ok(()),
        Kind::Sum => Ok(()),
    }
}

fn put_marks(
    alloc: Global,
    out: &mut Vec<u8>,
    line: usize,
    at: usize,
    kind: Kind,
    status: Option<Status>,
) -> Result<(), OutOfMemory>
    ensures { OnOk result (out.new.items ≡ out.old.items ++ each_text (map (spec.mark_element line at) (spec.marks_of kind status))) }
{
    match status {
        None => Ok(()),
        Some(Status::Open) => put_open(alloc, out, line, at, kind),
        Some(Status::Offered) => put_mark(alloc, out, line, at, b"arrow", b"m0-4l8 4-8 4z"),
        Some(Status::Taken) => put_mark(alloc, out, line, at, b"tick", b"l3 3 5-7"),
        Some(Status::Met) => put_mark(alloc, out, line, at, b"tick", b"l3 3 5-7"),
        Some(Status::Gone) => put_mark(alloc, out, line, at, b"cross", b"m0-3l6 6m0-6l-6 6"),
    }
}

fn put_text_at<'a>(
    alloc: Global,
    out: &mut Vec<u8>,
    class: &'a [u8],
    x: u64,
    y: u64,
    length: u64,
    text: &'a [u8],
) -> Result<(), OutOfMemory>
    ensures { OnOk result (out.new.items ≡ out.old.items ++ text_of (element (codes "text")
        ((codes "class", class.now) ∷ (codes "x", decimal x) ∷ (codes "y", decimal y) ∷ (codes "textLength", decimal length) ∷ [])
        (said text.now))) }
{
    put_all(
        alloc,
        out,
        &[
            Piece::Mark(b"<text class=\""),
            Piece::Said(class),
            Piece::Mark(b"\" x=\""),
            Piece::Number(x),
            Piece::Mark(b"\" y=\""),
            Piece::Number(y),
            Piece::Mark(b"\" textLength=\""),
            Piece::Number(length),
            Piece::Mark(b"\">"),
            Piece::Said(text),
            Piece::Mark(b"</text>"),
        ],
    )
}

fn put_words(
    alloc: Global,
    out: &mut Vec<u8>,
    line: usize,
    at: usize,
    item: &Item,
) -> Result<(), OutOfMemory>
    ensures { OnOk result (out.new.items ≡ out.old.items ++ text_of (spec.text_element line at item.now)) }
{
    let class = item_class(alloc, item)?;
    let place = further(at, front(item.kind))?;
    let x = scaled(place, 8, 8)?;
    let y = scaled(line, 20, 22)?;
    let length = scaled(item.text.as_slice().len(), 8, 0)?;
    put_text_at(alloc, out, &class, x, y, length, item.text.as_slice())
}

/// A text at a place.
#[tactic(auto, using(std::proofs::Common::append_assoc, crate::proofs::PlaceLemmas::each_text_append), unfolding(crate::specs::PlacedTexts::item_text))]
pub(crate) fn put_item(
    alloc: Global,
    out: &mut Vec<u8>,
    line: usize,
    at: usize,
    item: &Item,
) -> Result<(), OutOfMemory>
    ensures { OnOk result (out.new.items ≡ out.old.items ++ item_text line at item.now) }
{
    put_frames(alloc, out, line, at, item)?;
    put_marks(alloc, out, line, at, item.kind, item.status)?;
    put_words(alloc, out, line, at, item)
}
