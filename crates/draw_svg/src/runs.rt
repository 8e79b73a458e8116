//! The rows of a run.

ghost use Rattle.std.specs.Prelude.{◌≡◌, ◌++◌, ◌∷◌, [], codes, map, length, nat_lt, None, IfOk, OnOk};
ghost use Rattle.std.specs.Option.{option_copied};
ghost use Rattle.spec_run.specs.Translation.{last_or};
ghost use Rattle.spec_page.specs.Cells.{Columns};
ghost use Rattle.spec_page.specs.RunPart.{look_word as word_of};
ghost use Rattle.spec_page.specs.SvgRun as spec;

use crate::items::{item_if, put_said, said};
use crate::money::{money_cells, put_last_titles};
use crate::ways::{head_row, name_cells, put_sheets};
use draw_page::{Piece, is_elsewhere, look_word, made, number_text, row_id};
use spec_data::{Bytes, Name, OutOfMemory, Seq};
use spec_page::{EventRow, GridRow, Item, Kind, Look, Money, Picture, Status};
use std::alloc::Global;

fn note_kind(look: Look) -> Kind
    ensures { result ≡ spec.note_kind look }
{
    match look {
        Look::Refused => Kind::Bad,
        Look::Halt => Kind::Bad,
        Look::Start => Kind::Note,
        Look::Blocks => Kind::Note,
        Look::Done => Kind::Note,
        Look::Accepted => Kind::Note,
        Look::More => Kind::Note,
    }
}

fn event_look(alloc: Global, look: Look) -> Result<Bytes, OutOfMemory>
    ensures { IfOk result (λ text. text ≡ codes "ev " ++ word_of look) }
{
    let text = made(alloc, &[Piece::Mark(b"ev "), Piece::Mark(look_word(look))])?;
    Ok(Bytes::of(text))
}

// A row, behind one that left this money.
fn event_row(
    alloc: Global,
    parties: &[Name],
    elsewhere: bool,
    before: Option<&Money>,
    row: &EventRow,
) -> Result<GridRow, OutOfMemory>
    ensures { IfOk result (λ r. r ≡ spec.event_grid (record { parties = parties.now; elsewhere = elsewhere }) (option_copied before.entry) row.now) }
{
    let look = event_look(alloc, row.look)?;
    let id = row_id(alloc, row.first, row.look)?;
    let numbers = number_text(alloc, row)?;
    let path = item_if(alloc, Kind::Path, numbers)?;
    let mut what = said(alloc, Kind::Word, row.words.as_slice())?;
    put_said(alloc, &mut what, note_kind(row.look), row.note.as_slice())?;
    let sums = money_cells(alloc, parties, elsewhere, before, &row.money)?;
    Ok(GridRow {
        look,
        id: Bytes::of(id),
        indent: 0,
        path,
        what,
        sums,
    })
}

#[tactic(auto, using(std::proofs::Common::append_assoc))]
fn put_events(
    alloc: Global,
    rows: &mut Seq<GridRow>,
    parties: &[Name],
    elsewhere: bool,
    events: &[EventRow],
) -> Result<(), OutOfMemory>
    ensures { OnOk result (rows.new ≡ rows.old
        ++ spec.event_grids (record { parties = parties.now; elsewhere = elsewhere }) None events.now) }
{
    let mut before = None;
    for event in events {
        let row = event_row(alloc, parties, elsewhere, before, event)?;
        rows.push(row)?;
        before = Some(&event.money);
    }
    Ok(())
}

// All sums at the end.
fn end_row(
    alloc: Global,
    parties: &[Name],
    elsewhere: bool,
    money: &Money,
) -> Result<GridRow, OutOfMemory>
    ensures { IfOk result (λ r. r ≡ spec.end_grid (record { parties = parties.now; elsewhere = elsewhere }) money.now) }
{
    Ok(GridRow {
        look: Bytes::from_slice(alloc, b"total")?,
        id: Bytes::of(Vec::new(alloc)),
        indent: 0,
        path: Seq::new(alloc),
        what: said(alloc, Kind::Strong, b"at the end")?,
        sums: money_cells(alloc, parties, elsewhere, None, money)?,
    })
}

#[tactic(auto, using(std::proofs::Common::append_assoc))]
fn put_run(
    alloc: Global,
    rows: &mut Seq<GridRow>,
    parties: &[Name],
    elsewhere: bool,
    events: &[EventRow],
    money: &Money,
) -> Result<(), OutOfMemory>
    ensures { OnOk result (rows.new ≡ rows.old
        ++ spec.run_grids (record { parties = parties.now; elsewhere = elsewhere }) events.now money.now) }
{
    let mut names = name_cells(alloc, parties)?;
    put_last_titles(alloc, &mut names, elsewhere)?;
    let head = head_row(alloc, b"the run", names)?;
    rows.push(head)?;
    put_events(alloc, rows, parties, elsewhere, events)?;
    let end = end_row(alloc, parties, elsewhere, money)?;
    rows.push(end)?;
    Ok(())
}

// ---- the end

fn last_money<'a>(none: &'a Money, rows: &'a [EventRow]) -> &'a Money
    ensures { result.now ≡ last_or none.now (map (λ r. r.money) rows.now) }
{
    let mut money = none;
    for row in rows {
        money = &row.money;
    }
    money
}

fn last_looks<'a>(rows: &'a [EventRow]) -> &'a [Status]
    ensures { result.now ≡ spec.last_looks rows.now }
{
    let mut looks: &'a [Status] = &[];
    for row in rows {
        looks = row.looks.as_slice();
    }
    looks
}

fn last_outlook<'a>(rows: &'a [EventRow]) -> &'a [u8]
    ensures { result.now ≡ last_or [] (map (λ r. r.outlook) rows.now) }
{
    let mut text: &'a [u8] = &[];
    for row in rows {
        text = row.outlook.as_slice();
    }
    text
}

// ---- all

/// The rows of a picture, but what can be done at the end.
#[tactic(auto, using(std::proofs::Common::append_assoc))]
pub(crate) fn picture_rows(alloc: Global, picture: &Picture) -> Result<Seq<GridRow>, OutOfMemory>
    ensures { IfOk result (λ rows. rows ≡ spec.picture_grids picture.now) }
{
    let none = Money {
        parties: Seq::new(alloc),
        contracts: 0,
        elsewhere: 0,
        fees: 0,
    };
    let events = picture.rows.as_slice();
    let parties = picture.parties.as_slice();
    let several = picture.sheets.len() > 1;
    let mut rows = Seq::new(alloc);
    put_sheets(
        alloc,
        &mut rows,
        parties,
        several,
        last_looks(events),
        picture.sheets.as_slice(),
    )?;
    put_run(
        alloc,
        &mut rows,
        parties,
        is_elsewhere(events),
        events,
        last_money(&none, events),
    )?;
    Ok(rows)
}

/// What can be done at the end.
pub(crate) fn outlook_items(alloc: Global, rows: &[EventRow]) -> Result<Seq<Item>, OutOfMemory>
    ensures { IfOk result (λ items. items ≡ spec.outlook_items rows.now) }
{
    let mut items = said(alloc, Kind::Strong, b"can now:")?;
    put_said(alloc, &mut items, Kind::Word, last_outlook(rows))?;
    Ok(items)
}
