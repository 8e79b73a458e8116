//! The whole SVG.

ghost use Rattle.std.specs.Prelude.{◌≡◌, ◌++◌, ◌∷◌, [], codes, IfOk, OnOk};
ghost use Rattle.std.specs.Fmt.{decimal};
ghost use Rattle.spec_page.specs.Html.{element, raw, said};
ghost use Rattle.spec_page.specs.Svg as spec;
ghost use Rattle.spec_page.specs.SvgLayout as layout;
ghost use Rattle.spec_page.specs.SvgStyle.{svg_style};
ghost use Rattle.draw_page.specs.Texts.{text_of};
ghost use Rattle.draw_svg.specs.Endings.{widths_of};
ghost use Rattle.draw_svg.specs.PlacedTexts.{rows_text};
ghost use Rattle.draw_svg.specs.Documents.{root_tag, svg_before, svg_frame};

use crate::assets::{svg_style_0, svg_style_1};
use crate::columns::{Widths, lines_of, table_width, widths_for};
use crate::elements::scaled;
use crate::flow::{last_line, reach};
use crate::placing::{put_outlook, put_rows};
use crate::runs::{outlook_items, picture_rows};
use bm_text::put;
use draw_page::{Piece, further, made, put_all};
use spec_data::OutOfMemory;
use spec_page::{GridRow, Item, Picture};
use std::alloc::Global;

// ---- what stands before the rows

fn view_box(alloc: Global, width: u64, height: u64) -> Result<Vec<u8>, OutOfMemory>
    ensures { IfOk result (λ text. text.items ≡ codes "0 0 " ++ (decimal width ++ (codes " " ++ decimal height))) }
{
    made(
        alloc,
        &[
            Piece::Mark(b"0 0 "),
            Piece::PlainNumber(width),
            Piece::Mark(b" "),
            Piece::PlainNumber(height),
        ],
    )
}

fn put_root_tag(
    alloc: Global,
    out: &mut Vec<u8>,
    view: &[u8],
    width: u64,
    height: u64,
) -> Result<(), OutOfMemory>
    ensures { OnOk result (out.new.items ≡ out.old.items ++ root_tag view.now width height) }
{
    put_all(
        alloc,
        out,
        &[
            Piece::Mark(b"<svg xmlns=\"http://www.w3.org/2000/svg\" viewBox=\""),
            Piece::Said(view),
            Piece::Mark(b"\" width=\""),
            Piece::Number(width),
            Piece::Mark(b"\" height=\""),
            Piece::Number(height),
            Piece::Mark(b"\" role=\"img\">"),
        ],
    )
}

fn put_title(alloc: Global, out: &mut Vec<u8>, title: &[u8]) -> Result<(), OutOfMemory>
    ensures { OnOk result (out.new.items ≡ out.old.items ++ text_of (element (codes "title") [] (said title.now))) }
{
    put_all(
        alloc,
        out,
        &[
            Piece::Mark(b"<title>"),
            Piece::Said(title),
            Piece::Mark(b"</title>"),
        ],
    )
}

fn put_style(alloc: Global, out: &mut Vec<u8>) -> Result<(), OutOfMemory>
    ensures { OnOk result (out.new.items ≡ out.old.items ++ text_of (raw (codes "style") svg_style)) }
{
    put_all(
        alloc,
        out,
        &[
            Piece::Mark(b"<style>"),
            Piece::Mark(svg_style_0()),
            Piece::Mark(svg_style_1()),
            Piece::Mark(b"</style>"),
        ],
    )
}

fn put_paper(alloc: Global, out: &mut Vec<u8>, width: u64, height: u64) -> Result<(), OutOfMemory>
    ensures { OnOk result (out.new.items ≡ out.old.items ++ text_of (spec.paper_element width height)) }
{
    put_all(
        alloc,
        out,
        &[
            Piece::Mark(b"<rect class=\"paper\" width=\""),
            Piece::Number(width),
            Piece::Mark(b"\" height=\""),
            Piece::Number(height),
            Piece::Mark(b"\"></rect>"),
        ],
    )
}

#[tactic(auto, using(std::proofs::Common::append_assoc), unfolding(crate::specs::Documents::svg_before))]
fn put_before(
    alloc: Global,
    out: &mut Vec<u8>,
    title: &[u8],
    width: u64,
    height: u64,
) -> Result<(), OutOfMemory>
    ensures { OnOk result (out.new.items ≡ out.old.items ++ svg_before title.now width height) }
{
    let view = view_box(alloc, width, height)?;
    put_root_tag(alloc, out, &view, width, height)?;
    put_title(alloc, out, title)?;
    put(out, b"\n")?;
    put_style(alloc, out)?;
    put(out, b"\n")?;
    put_paper(alloc, out, width, height)?;
    put(out, b"\n")
}

// ---- the SVG

// With rows that are written already.
#[tactic(auto, using(std::proofs::Common::append_assoc), unfolding(crate::specs::Documents::svg_frame))]
fn put_frame(
    alloc: Global,
    out: &mut Vec<u8>,
    title: &[u8],
    width: u64,
    height: u64,
    rows: &[u8],
) -> Result<(), OutOfMemory>
    ensures { OnOk result (out.new.items ≡ out.old.items ++ svg_frame title.now width height rows.now) }
{
    put_before(alloc, out, title, width, height)?;
    put(out, rows)?;
    put(out, b"</svg>\n")
}

// All rows of a drawing that is so wide, each on a line of its own.
#[tactic(auto, using(std::proofs::Common::append_assoc, crate::proofs::DocumentLemmas::rows_text_append))]
fn all_rows(
    alloc: Global,
    widths: &Widths,
    rows: &[GridRow],
    items: &[Item],
    table: usize,
    width: usize,
    line: usize,
) -> Result<Vec<u8>, OutOfMemory>
    ensures { IfOk result (λ text. text.items ≡ rows_text width (layout.placed_rows (widths_of widths.now) 0 rows.now
        ++ layout.outlook_row line (layout.outlook_places table items.now) ∷ [])) }
{
    let mut text = Vec::new(alloc);
    put_rows(alloc, &mut text, width, widths, rows)?;
    put_outlook(alloc, &mut text, width, table, line, items)?;
    put(&mut text, b"\n")?;
    Ok(text)
}

// Of these rows, with these columns, and what can be done at the end.
fn put_drawing(
    alloc: Global,
    out: &mut Vec<u8>,
    title: &[u8],
    widths: &Widths,
    rows: &[GridRow],
    items: &[Item],
) -> Result<(), OutOfMemory>
    ensures { OnOk result (out.new.items ≡ out.old.items
        ++ spec.svg_document (spec.svg_of title.now (layout.drawing_with (widths_of widths.now) rows.now items.now))) }
{
    let table = table_width(widths)?;
    let width = table.max(reach(0, table, items)?);
    let line = lines_of(rows)?;
    let last = last_line(0, table, items)?;
    let lines = further(further(line, last)?, 1)?;
    let text = all_rows(alloc, widths, rows, items, table, width, line)?;
    let wide = scaled(width, 8, 16)?;
    let high = scaled(lines, 20, 16)?;
    put_frame(alloc, out, title, wide, high, &text)
}

/// Writes the rows of a picture as SVG, with this title.
pub fn write_svg(
    alloc: Global,
    out: &mut Vec<u8>,
    title: &[u8],
    picture: &Picture,
) -> Result<(), OutOfMemory>
    ensures { OnOk result (out.new.items ≡ out.old.items ++ spec.svg_document (spec.svg_of title.now (layout.drawing picture.now))) }
{
    let rows = picture_rows(alloc, picture)?;
    let items = outlook_items(alloc, picture.rows.as_slice())?;
    let widths = widths_for(alloc, rows.as_slice())?;
    put_drawing(
        alloc,
        out,
        title,
        &widths,
        rows.as_slice(),
        items.as_slice(),
    )
}
