//! The table of a page.

ghost use Rattle.std.specs.Prelude.{◌≡◌, ◌++◌, [], length, nat_lt, codes, IfOk, OnOk};
ghost use Rattle.spec_page.specs.ContractPart as contract;
ghost use Rattle.spec_page.specs.Html.{element, lines_of};
ghost use Rattle.spec_page.specs.Page as spec;
ghost use Rattle.draw_page.specs.Frames.{body_elements};
ghost use Rattle.draw_page.specs.Scenes.{columns_of, scene_of};
ghost use Rattle.draw_page.specs.Texts.{text_of, each_text};

use crate::frames::{put_framed, put_table};
use crate::parts::{further, narrow, row_size};
use crate::run_rows::put_run;
use crate::scene::{Columns, Scene};
use crate::ways::put_contract;
use spec_data::{Name, OutOfMemory};
use spec_page::{EventRow, Money, Picture, Sheet, WayRow};
use std::alloc::Global;

/// Whether anything is elsewhere in one of the rows.
pub fn is_elsewhere(rows: &[EventRow]) -> bool
    ensures { result ≡ spec.is_elsewhere rows.now }
{
    for row in rows {
        if row.money.elsewhere > 0 {
            return true;
        }
    }
    false
}

fn rows_size(rows: &[WayRow]) -> Result<usize, OutOfMemory>
    ensures { IfOk result (λ n. n ≡ contract.rows_size rows.now) }
{
    let mut count = 0;
    for row in rows {
        let size = row_size(row)?;
        count = further(count, size)?;
    }
    Ok(count)
}

/// How many parts of a contract have a look.
pub fn sheet_size(sheet: &Sheet) -> Result<usize, OutOfMemory>
    ensures { IfOk result (λ n. n ≡ contract.sheet_size sheet.now) }
{
    let rows = rows_size(sheet.ways.as_slice())?;
    further(1, rows)
}

pub(crate) fn put_contract_body(
    alloc: Global,
    out: &mut Vec<u8>,
    scene: &Scene,
    part: usize,
    sheet: &Sheet,
) -> Result<(), OutOfMemory>
    ensures { OnOk result (out.new.items ≡ out.old.items
        ++ text_of (element (codes "tbody") [] (lines_of (contract.contract_elements (scene_of scene.now) part sheet.now)))) }
{
    let mut rows = Vec::new(alloc);
    put_contract(alloc, &mut rows, scene, part, sheet)?;
    put_framed(alloc, out, b"<tbody>", &rows, b"</tbody>")
}

fn put_run_body(
    alloc: Global,
    out: &mut Vec<u8>,
    columns: &Columns,
    count: u64,
    rows: &[EventRow],
    money: &Money,
) -> Result<(), OutOfMemory>
    ensures { OnOk result (out.new.items ≡ out.old.items ++ text_of (spec.run_body (columns_of columns.now) count rows.now money.now)) }
{
    let mut text = Vec::new(alloc);
    put_run(alloc, &mut text, columns, count, rows, money)?;
    put_framed(alloc, out, b"<tbody>", &text, b"</tbody>")
}

// The bodies of contracts of this run.
#[tactic(auto, using(std::proofs::Common::append_assoc))]
fn put_bodies<'a>(
    alloc: Global,
    out: &mut Vec<u8>,
    columns: &Columns<'a>,
    several: bool,
    rows: &'a [EventRow],
    sheets: &[Sheet],
) -> Result<(), OutOfMemory>
    ensures { OnOk result (out.new.items ≡ out.old.items
        ++ each_text (spec.contract_bodies (columns_of columns.now) several rows.now 0 0 sheets.now)) }
{
    let mut part = 0;
    for (contract, sheet) in sheets.iter().enumerate() {
        let number = narrow(contract)?;
        let scene = Scene {
            columns: *columns,
            several,
            contract: number,
            rows,
        };
        put_contract_body(alloc, out, &scene, part, sheet)?;
        let size = sheet_size(sheet)?;
        part = further(part, size)?;
    }
    Ok(())
}

// The bodies of all contracts, and of the run.
fn table_bodies<'a>(
    alloc: Global,
    parties: &'a [Name],
    elsewhere: bool,
    several: bool,
    rows: &'a [EventRow],
    sheets: &[Sheet],
    count: u64,
    money: &Money,
) -> Result<Vec<u8>, OutOfMemory>
    ensures { IfOk result (λ text. text.items
        ≡ each_text (body_elements parties.now elsewhere several rows.now sheets.now count money.now)) }
{
    let columns = Columns { parties, elsewhere };
    let mut text = Vec::new(alloc);
    put_bodies(alloc, &mut text, &columns, several, rows, sheets)?;
    put_run_body(alloc, &mut text, &columns, count, rows, money)?;
    Ok(text)
}

fn are_several(sheets: &[Sheet]) -> bool
    ensures { result ≡ nat_lt 1 (length sheets.now) }
{
    sheets.len() > 1
}

/// The rows of each contract, and the rows of the run, which left this money.
pub(crate) fn put_tables(
    alloc: Global,
    out: &mut Vec<u8>,
    picture: &Picture,
    money: &Money,
) -> Result<(), OutOfMemory>
    ensures { OnOk result (out.new.items ≡ out.old.items ++ text_of (spec.table_part picture.now money.now)) }
{
    let parties = picture.parties.as_slice();
    let rows = picture.rows.as_slice();
    let sheets = picture.sheets.as_slice();
    let elsewhere = is_elsewhere(rows);
    let several = are_several(sheets);
    let bodies = table_bodies(
        alloc,
        parties,
        elsewhere,
        several,
        rows,
        sheets,
        picture.count,
        money,
    )?;
    put_table(alloc, out, parties.len(), &bodies)
}
