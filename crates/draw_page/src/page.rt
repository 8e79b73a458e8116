//! The whole page.

ghost use Rattle.std.specs.Prelude.{◌≡◌, ◌++◌, map, codes, IfOk, OnOk};
ghost use Rattle.spec_run.specs.Translation.{last_or};
ghost use Rattle.spec_page.specs.Html.{raw, document_text};
ghost use Rattle.spec_page.specs.Page as spec;
ghost use Rattle.spec_page.specs.Script.{script_text};
ghost use Rattle.spec_page.specs.Style as style;
ghost use Rattle.draw_page.specs.Documents.{head_before, top_elements, bottom_elements, document};
ghost use Rattle.draw_page.specs.Texts.{text_of, lines_text};

use crate::assets::{script_0, script_1, style_0, style_1, style_2, style_3, style_4};
use crate::bodies::put_tables;
use crate::frames::{put_bar, put_framed, put_heading, put_now, put_slider, put_text};
use crate::pieces::{Piece, put_all};
use bm_text::put;
use spec_data::{OutOfMemory, Seq};
use spec_page::{EventRow, Money, Picture};
use std::alloc::Global;

// ---- the head

#[tactic(auto, unfolding(crate::specs::Documents::head_before))]
fn put_before_style(alloc: Global, out: &mut Vec<u8>, title: &[u8]) -> Result<(), OutOfMemory>
    ensures { OnOk result (out.new.items ≡ out.old.items ++ head_before title.now) }
{
    put_all(
        alloc,
        out,
        &[
            Piece::Mark(
                b"<head><meta charset=\"utf-8\">\n\
<meta name=\"viewport\" content=\"width=device-width,initial-scale=1\">\n\
<meta http-equiv=\"Content-Security-Policy\" content=\"default-src 'none';style-src 'unsafe-inline';\
script-src 'sha256-YSnz3cepIaNsEgDAZDGUHftFt71mf1FVI8IVEsoNAK8=';base-uri 'none';form-action 'none'\">\n<title>",
            ),
            Piece::Said(title),
            Piece::Mark(b"</title>\n<style>"),
        ],
    )
}

fn put_style(alloc: Global, out: &mut Vec<u8>) -> Result<(), OutOfMemory>
    ensures { OnOk result (out.new.items ≡ out.old.items ++ style.style_text) }
{
    put_all(
        alloc,
        out,
        &[
            Piece::Mark(style_0()),
            Piece::Mark(style_1()),
            Piece::Mark(style_2()),
            Piece::Mark(style_3()),
            Piece::Mark(style_4()),
        ],
    )
}

pub(crate) fn page_head(alloc: Global, title: &[u8]) -> Result<Vec<u8>, OutOfMemory>
    ensures { IfOk result (λ text. text.items ≡ text_of (spec.head_part title.now)) }
{
    let mut text = Vec::new(alloc);
    put_before_style(alloc, &mut text, title)?;
    put_style(alloc, &mut text)?;
    put(&mut text, b"</style>\n</head>")?;
    Ok(text)
}

// ---- the body

#[tactic(auto, using(std::proofs::Common::append_assoc))]
fn put_top(
    alloc: Global,
    out: &mut Vec<u8>,
    title: &[u8],
    picture: &Picture,
    money: &Money,
) -> Result<(), OutOfMemory>
    ensures { OnOk result (out.new.items ≡ out.old.items ++ lines_text (top_elements title.now picture.now money.now)) }
{
    put_heading(alloc, out, title, picture.total)?;
    put(out, b"\n")?;
    put_bar(alloc, out, picture.parties.as_slice(), money)?;
    put(out, b"\n")?;
    put_slider(alloc, out, picture.rows.len().saturating_sub(1) as u64)?;
    put(out, b"\n")
}

fn put_script(alloc: Global, out: &mut Vec<u8>) -> Result<(), OutOfMemory>
    ensures { OnOk result (out.new.items ≡ out.old.items ++ text_of (raw (codes "script") script_text)) }
{
    put_all(
        alloc,
        out,
        &[
            Piece::Mark(b"<script>"),
            Piece::Mark(script_0()),
            Piece::Mark(script_1()),
            Piece::Mark(b"</script>"),
        ],
    )
}

#[tactic(auto, using(std::proofs::Common::append_assoc))]
fn put_bottom(
    alloc: Global,
    out: &mut Vec<u8>,
    picture: &Picture,
    money: &Money,
) -> Result<(), OutOfMemory>
    ensures { OnOk result (out.new.items ≡ out.old.items ++ lines_text (bottom_elements picture.now money.now)) }
{
    put_now(alloc, out, picture.rows.as_slice())?;
    put(out, b"\n")?;
    put_tables(alloc, out, picture, money)?;
    put(out, b"\n")?;
    put_text(alloc, out, picture.text.as_slice())?;
    put(out, b"\n")
}

fn page_body(
    alloc: Global,
    title: &[u8],
    picture: &Picture,
    money: &Money,
) -> Result<Vec<u8>, OutOfMemory>
    ensures { IfOk result (λ text. text.items ≡ text_of (spec.body_part title.now picture.now money.now)) }
{
    let mut inside = Vec::new(alloc);
    put_top(alloc, &mut inside, title, picture, money)?;
    put_bottom(alloc, &mut inside, picture, money)?;
    put_script(alloc, &mut inside)?;
    put(&mut inside, b"\n")?;
    let mut text = Vec::new(alloc);
    put_framed(alloc, &mut text, b"<body>", &inside, b"</body>")?;
    Ok(text)
}

// ---- the page

#[tactic(auto, unfolding(crate::specs::Documents::document))]
pub(crate) fn put_document<'a>(
    alloc: Global,
    out: &mut Vec<u8>,
    head: &'a [u8],
    body: &'a [u8],
) -> Result<(), OutOfMemory>
    ensures { OnOk result (out.new.items ≡ out.old.items ++ document head.now body.now) }
{
    put_all(
        alloc,
        out,
        &[
            Piece::Mark(b"<!doctype html>\n<html lang=\"en\">"),
            Piece::Mark(head),
            Piece::Mark(b"\n"),
            Piece::Mark(body),
            Piece::Mark(b"\n</html>\n"),
        ],
    )
}

fn last_money<'a>(none: &'a Money, rows: &'a [EventRow]) -> &'a Money
    ensures { result.now ≡ last_or none.now (map (λ r. r.money) rows.now) }
{
    let mut money = none;
    for row in rows {
        money = &row.money;
    }
    money
}

/// The page of a picture, with this title.
pub fn write_page(
    alloc: Global,
    out: &mut Vec<u8>,
    title: &[u8],
    picture: &Picture,
) -> Result<(), OutOfMemory>
    ensures { OnOk result (out.new.items ≡ out.old.items ++ document_text (spec.page_of title.now picture.now)) }
{
    let none = Money {
        parties: Seq::new(alloc),
        contracts: 0,
        elsewhere: 0,
        fees: 0,
    };
    let money = last_money(&none, picture.rows.as_slice());
    let head = page_head(alloc, title)?;
    let body = page_body(alloc, title, picture, money)?;
    put_document(alloc, out, &head, &body)
}
