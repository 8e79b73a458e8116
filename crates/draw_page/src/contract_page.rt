//! The page of a contract alone: without a run there is nothing to go through, and no script.

ghost use Rattle.std.specs.Prelude.{◌≡◌, ◌++◌, [], codes, IfOk, OnOk};
ghost use Rattle.spec_page.specs.Html.{element, said, document_text};
ghost use Rattle.spec_page.specs.Page as spec;
ghost use Rattle.draw_page.specs.Frames.{sheet_body_element};
ghost use Rattle.draw_page.specs.Texts.{text_of};

use crate::bodies::put_contract_body;
use crate::frames::{put_framed, put_table, put_text};
use crate::page::{page_head, put_document};
use crate::pieces::{Piece, put_all};
use crate::scene::{Columns, Scene};
use bm_text::put;
use spec_data::{Name, OutOfMemory};
use spec_page::Sheet;
use std::alloc::Global;

fn put_title(alloc: Global, out: &mut Vec<u8>, title: &[u8]) -> Result<(), OutOfMemory>
    ensures { OnOk result (out.new.items ≡ out.old.items ++ text_of (element (codes "h1") [] (said title.now))) }
{
    put_all(
        alloc,
        out,
        &[
            Piece::Mark(b"<h1>"),
            Piece::Said(title),
            Piece::Mark(b"</h1>"),
        ],
    )
}

fn sheet_bodies(alloc: Global, parties: &[Name], sheet: &Sheet) -> Result<Vec<u8>, OutOfMemory>
    ensures { IfOk result (λ text. text.items ≡ text_of (sheet_body_element parties.now sheet.now)) }
{
    let scene = Scene {
        columns: Columns {
            parties,
            elsewhere: false,
        },
        several: false,
        contract: 0,
        rows: &[],
    };
    let mut bodies = Vec::new(alloc);
    put_contract_body(alloc, &mut bodies, &scene, 0, sheet)?;
    Ok(bodies)
}

fn put_sheet_table(
    alloc: Global,
    out: &mut Vec<u8>,
    parties: &[Name],
    sheet: &Sheet,
) -> Result<(), OutOfMemory>
    ensures { OnOk result (out.new.items ≡ out.old.items ++ text_of (spec.sheet_table parties.now sheet.now)) }
{
    let bodies = sheet_bodies(alloc, parties, sheet)?;
    put_table(alloc, out, parties.len(), &bodies)
}

fn sheet_body(
    alloc: Global,
    title: &[u8],
    parties: &[Name],
    sheet: &Sheet,
    text: &[u8],
) -> Result<Vec<u8>, OutOfMemory>
    ensures { IfOk result (λ made. made.items ≡ text_of (spec.sheet_body title.now parties.now sheet.now text.now)) }
{
    let mut inside = Vec::new(alloc);
    put_title(alloc, &mut inside, title)?;
    put(&mut inside, b"\n")?;
    put_sheet_table(alloc, &mut inside, parties, sheet)?;
    put(&mut inside, b"\n")?;
    put_text(alloc, &mut inside, text)?;
    put(&mut inside, b"\n")?;
    let mut body = Vec::new(alloc);
    put_framed(alloc, &mut body, b"<body>", &inside, b"</body>")?;
    Ok(body)
}

/// The page of a contract of these parties, with this title and this text.
pub fn write_contract_page(
    alloc: Global,
    out: &mut Vec<u8>,
    title: &[u8],
    parties: &[Name],
    sheet: &Sheet,
    text: &[u8],
) -> Result<(), OutOfMemory>
    ensures { OnOk result (out.new.items ≡ out.old.items
        ++ document_text (spec.sheet_page title.now parties.now sheet.now text.now)) }
{
    let head = page_head(alloc, title)?;
    let body = sheet_body(alloc, title, parties, sheet, text)?;
    put_document(alloc, out, &head, &body)
}
