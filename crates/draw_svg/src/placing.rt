//! Rows with their texts, each at its place.

ghost use Rattle.std.specs.Prelude.{◌≡◌, ◌+◌, ◌-◌, ◌++◌, ◌∷◌, [], map, codes, OnOk};
ghost use Rattle.spec_page.specs.SvgItems.{items_size as size_of};
ghost use Rattle.spec_page.specs.SvgLayout as layout;
ghost use Rattle.spec_page.specs.Html.{element, nothing};
ghost use Rattle.std.specs.Fmt.{decimal};
ghost use Rattle.spec_page.specs.Svg as spec;
ghost use Rattle.draw_page.specs.Texts.{text_of};
ghost use Rattle.draw_svg.specs.Endings.{widths_of};
ghost use Rattle.draw_svg.specs.PlacedTexts.{item_text, places_text, row_tag, row_text, rows_text};

use crate::columns::Widths;
use crate::elements::{put_item, scaled};
use crate::flow::{Spot, behind, fitting, last_line, row_lines};
use crate::sizes::{items_size, size};
use bm_text::put;
use draw_page::{Piece, further, put_all};
use spec_data::OutOfMemory;
use spec_page::{Cell, GridRow, Item};
use std::alloc::Global;

// ---- texts

#[tactic(auto, using(std::proofs::Common::append_assoc))]
fn put_beside(
    alloc: Global,
    out: &mut Vec<u8>,
    line: usize,
    at: usize,
    items: &[Item],
) -> Result<(), OutOfMemory>
    ensures { OnOk result (out.new.items ≡ out.old.items ++ places_text (layout.beside line at items.now)) }
{
    let mut place = at;
    for item in items {
        put_item(alloc, out, line, place, item)?;
        let own = size(item)?;
        place = further(place, own)?;
    }
    Ok(())
}

// A text so many lines further down and characters to the right.
fn put_moved(
    alloc: Global,
    out: &mut Vec<u8>,
    line: usize,
    at: usize,
    spot: Spot,
    item: &Item,
) -> Result<(), OutOfMemory>
    ensures { OnOk result (out.new.items ≡ out.old.items
        ++ item_text (line + spot.line) (at + spot.at) item.now) }
{
    let own_line = further(line, spot.line)?;
    let own = further(at, spot.at)?;
    put_item(alloc, out, own_line, own, item)
}

// Texts in lines.
#[tactic(auto, using(std::proofs::Common::append_assoc))]
fn put_flow(
    alloc: Global,
    out: &mut Vec<u8>,
    line: usize,
    at: usize,
    begin: usize,
    limit: usize,
    items: &[Item],
) -> Result<(), OutOfMemory>
    ensures { OnOk result (out.new.items ≡ out.old.items
        ++ places_text (map (layout.moved line at) (layout.flowing begin limit (layout.spot 0 begin) items.now))) }
{
    let mut spot = Spot { line: 0, at: begin };
    for item in items {
        let own = size(item)?;
        let place = fitting(begin, limit, spot, own)?;
        put_moved(alloc, out, line, at, place, item)?;
        spot = behind(place, own)?;
    }
    Ok(())
}

// What stands in a column of so many characters, at its right.
fn put_cell(
    alloc: Global,
    out: &mut Vec<u8>,
    line: usize,
    at: usize,
    width: usize,
    cell: &Cell,
) -> Result<(), OutOfMemory>
    ensures { OnOk result (out.new.items ≡ out.old.items
        ++ places_text (layout.beside line (at + (width - size_of cell.now.items)) cell.now.items)) }
{
    let own = items_size(cell.items.as_slice())?;
    let place = further(at, width.saturating_sub(own))?;
    put_beside(alloc, out, line, place, cell.items.as_slice())
}

#[tactic(auto, using(std::proofs::Common::append_assoc, crate::proofs::PlaceLemmas::places_text_append))]
fn put_cells(
    alloc: Global,
    out: &mut Vec<u8>,
    line: usize,
    at: usize,
    widths: &[usize],
    cells: &[Cell],
) -> Result<(), OutOfMemory>
    ensures { OnOk result (out.new.items ≡ out.old.items ++ places_text (layout.cells_places line at widths.now cells.now)) }
{
    let mut place = at;
    let mut left = widths;
    let mut right = cells;
    while let Some((cell, cells)) = right.split_first() {
        let Some((width, widths)) = left.split_first() else {
            return Ok(());
        };
        put_cell(alloc, out, line, place, *width, cell)?;
        place = further(place, *width)?;
        left = widths;
        right = cells;
    }
    Ok(())
}

// All texts of a row.
#[tactic(auto, using(std::proofs::Common::append_assoc, crate::proofs::PlaceLemmas::places_text_append))]
fn put_places(
    alloc: Global,
    out: &mut Vec<u8>,
    widths: &Widths,
    line: usize,
    row: &GridRow,
) -> Result<(), OutOfMemory>
    ensures { OnOk result (out.new.items ≡ out.old.items ++ places_text (layout.row_places (widths_of widths.now) line row.now)) }
{
    put_beside(alloc, out, line, 0, row.path.as_slice())?;
    put_flow(
        alloc,
        out,
        line,
        widths.path,
        row.indent as usize,
        34,
        row.what.as_slice(),
    )?;
    let at = further(widths.path, widths.what)?;
    put_cells(
        alloc,
        out,
        line,
        at,
        widths.sums.as_slice(),
        row.sums.as_slice(),
    )
}

// ---- rows

// The tag before a row.
#[tactic(auto, using(std::proofs::Common::append_assoc), unfolding(spec_page::specs::Html::attribute_text, crate::specs::PlacedTexts::row_tag))]
fn put_tag<'a>(
    alloc: Global,
    out: &mut Vec<u8>,
    look: &'a [u8],
    id: &'a [u8],
) -> Result<(), OutOfMemory>
    ensures { OnOk result (out.new.items ≡ out.old.items ++ row_tag look.now id.now) }
{
    if id.is_empty() {
        return put_all(
            alloc,
            out,
            &[
                Piece::Mark(b"<g class=\""),
                Piece::Said(look),
                Piece::Mark(b"\">"),
            ],
        );
    }
    put_all(
        alloc,
        out,
        &[
            Piece::Mark(b"<g class=\""),
            Piece::Said(look),
            Piece::Mark(b"\" id=\""),
            Piece::Said(id),
            Piece::Mark(b"\">"),
        ],
    )
}

fn put_back_text(
    alloc: Global,
    out: &mut Vec<u8>,
    look: &[u8],
    y: u64,
    width: u64,
    height: u64,
) -> Result<(), OutOfMemory>
    ensures { OnOk result (out.new.items ≡ out.old.items ++ text_of (element (codes "rect")
        ((codes "class", look.now) ∷ (codes "x", codes "0") ∷ (codes "y", decimal y) ∷ (codes "width", decimal width)
        ∷ (codes "height", decimal height) ∷ []) nothing)) }
{
    put_all(
        alloc,
        out,
        &[
            Piece::Mark(b"<rect class=\""),
            Piece::Said(look),
            Piece::Mark(b"\" x=\"0\" y=\""),
            Piece::Number(y),
            Piece::Mark(b"\" width=\""),
            Piece::Number(width),
            Piece::Mark(b"\" height=\""),
            Piece::Number(height),
            Piece::Mark(b"\"></rect>"),
        ],
    )
}

// What stands behind a row.
fn put_back(
    alloc: Global,
    out: &mut Vec<u8>,
    width: usize,
    look: &[u8],
    line: usize,
    lines: usize,
) -> Result<(), OutOfMemory>
    ensures { OnOk result (out.new.items ≡ out.old.items ++ text_of (spec.back_element width look.now line lines)) }
{
    let y = scaled(line, 20, 8)?;
    let wide = scaled(width, 8, 16)?;
    let high = scaled(lines, 20, 0)?;
    put_back_text(alloc, out, look, y, wide, high)
}

fn put_parts<'a>(
    alloc: Global,
    out: &mut Vec<u8>,
    tag: &'a [u8],
    back: &'a [u8],
    places: &'a [u8],
) -> Result<(), OutOfMemory>
    ensures { OnOk result (out.new.items ≡ out.old.items ++ (tag.now ++ (back.now ++ (places.now ++ codes "</g>")))) }
{
    put_all(
        alloc,
        out,
        &[
            Piece::Mark(tag),
            Piece::Mark(back),
            Piece::Mark(places),
            Piece::Mark(b"</g>"),
        ],
    )
}

// A row whose texts are written already.
#[tactic(auto, unfolding(crate::specs::PlacedTexts::row_text))]
fn put_row_text<'a>(
    alloc: Global,
    out: &mut Vec<u8>,
    width: usize,
    look: &'a [u8],
    id: &'a [u8],
    line: usize,
    lines: usize,
    places: &[u8],
) -> Result<(), OutOfMemory>
    ensures { OnOk result (out.new.items ≡ out.old.items ++ row_text width look.now id.now line lines places.now) }
{
    let mut tag = Vec::new(alloc);
    put_tag(alloc, &mut tag, look, id)?;
    let mut back = Vec::new(alloc);
    put_back(alloc, &mut back, width, look, line, lines)?;
    put_parts(alloc, out, &tag, &back, places)
}

fn put_row(
    alloc: Global,
    out: &mut Vec<u8>,
    width: usize,
    widths: &Widths,
    line: usize,
    row: &GridRow,
) -> Result<(), OutOfMemory>
    ensures { OnOk result (out.new.items ≡ out.old.items
        ++ text_of (spec.row_element width (layout.placed_row (widths_of widths.now) line row.now))) }
{
    let lines = row_lines(row)?;
    let mut places = Vec::new(alloc);
    put_places(alloc, &mut places, widths, line, row)?;
    put_row_text(
        alloc,
        out,
        width,
        row.look.as_slice(),
        row.id.as_slice(),
        line,
        lines,
        &places,
    )
}

/// The rows of a drawing that is so wide, each on a line of its own.
#[tactic(auto, using(std::proofs::Common::append_assoc))]
pub(crate) fn put_rows(
    alloc: Global,
    out: &mut Vec<u8>,
    width: usize,
    widths: &Widths,
    rows: &[GridRow],
) -> Result<(), OutOfMemory>
    ensures { OnOk result (out.new.items ≡ out.old.items
        ++ rows_text width (layout.placed_rows (widths_of widths.now) 0 rows.now)) }
{
    let mut line = 0;
    for row in rows {
        put_row(alloc, out, width, widths, line, row)?;
        put(out, b"\n")?;
        let lines = row_lines(row)?;
        line = further(line, lines)?;
    }
    Ok(())
}

/// What can be done at the end, over all columns.
pub(crate) fn put_outlook(
    alloc: Global,
    out: &mut Vec<u8>,
    width: usize,
    table: usize,
    line: usize,
    items: &[Item],
) -> Result<(), OutOfMemory>
    ensures { OnOk result (out.new.items ≡ out.old.items
        ++ text_of (spec.row_element width (layout.outlook_row line (layout.outlook_places table items.now)))) }
{
    let last = last_line(0, table, items)?;
    let lines = further(last, 1)?;
    let mut places = Vec::new(alloc);
    put_flow(alloc, &mut places, line, 0, 0, table, items)?;
    put_row_text(alloc, out, width, b"now", b"", line, lines, &places)
}
