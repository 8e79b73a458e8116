//! All that a picture shows.

ghost use Rattle.std.specs.Prelude.{◌≡◌, ◌≤◌, ◌<◌, ◌^◌, ◌∷◌, [], nat_lt, sum_by, length, map, true, IfOk};
ghost use Rattle.spec_data.specs.Ranges.{max_money};
ghost use Rattle.spec_run.specs.Translation.{opening_configuration};
ghost use Rattle.spec_text.specs.Canonical.{advert_text};
ghost use Rattle.spec_page.specs.Picture as spec;
ghost use Rattle.draw_rows.specs.Pictures.{picture_by, played_rows};
ghost use Rattle.draw_rows.specs.Settings.{setup_with, setup_in, IsSetting};

use crate::balances::{all_money, columns};
use crate::halted::Played;
use crate::payments::stakes;
use crate::rows::{run_rows, unopened_rows};
use crate::setting::Setting;
use crate::ways::way_rows;
use crate::words::put_joined;
use bm_calculus::Config;
use bm_print::print_advert;
use bm_wellformed::Checked;
use spec_data::{Bytes, MAX_MONEY, Name, OutOfMemory, Seq};
use spec_page::{EventRow, Picture, Sheet};
use spec_run::Header;
use spec_text::Entry;
use std::alloc::{AllocError, Global};

// ---- contracts

/// What is shown of a contract.
pub fn sheet_of(alloc: Global, checked: &Checked) -> Result<Sheet, OutOfMemory>
    ensures { IfOk result (λ x. x ≡ spec.sheet checked.now) }
{
    let advert = checked.advert();
    let stakes = stakes(alloc, &advert.pre)?;
    let ways = way_rows(alloc, advert)?;
    Ok(Sheet {
        fee: advert.fee,
        stakes,
        ways,
    })
}

fn sheets_of(alloc: Global, contracts: &[Checked]) -> Result<Seq<Sheet>, OutOfMemory>
    ensures { IfOk result (λ sheets. sheets ≡ map spec.sheet contracts.now) }
{
    let mut sheets = Seq::new(alloc);
    for checked in contracts {
        let sheet = sheet_of(alloc, checked)?;
        sheets.push(sheet)?;
    }
    Ok(sheets)
}

fn texts_of(alloc: Global, contracts: &[Checked]) -> Result<Vec<Bytes>, OutOfMemory>
    ensures { IfOk result (λ texts. texts.items ≡ map advert_text contracts.now) }
{
    let mut texts = Vec::new(alloc);
    for checked in contracts {
        let text = print_advert(alloc, checked.advert())?;
        texts.push(Bytes::of(text))?;
    }
    Ok(texts)
}

/// The texts of contracts, a line each.
pub fn contract_lines(alloc: Global, contracts: &[Checked]) -> Result<Bytes, OutOfMemory>
    ensures { IfOk result (λ text. text ≡ spec.contract_lines contracts.now) }
{
    let texts = texts_of(alloc, contracts)?;
    let mut lines = Vec::new(alloc);
    put_joined(&mut lines, b"\n", &texts)?;
    Ok(Bytes::of(lines))
}

// ---- the opening

// Whether deposits are as few as a header has, and worth as little.
fn may_open(deposits: &[(Name, u64)], total: u64) -> bool
    requires { total ≡ sum_by (λ d. d.1) deposits.now }
    ensures few { result ≡ true → length deposits.now < 2 ^ 32 }
    ensures money { result ≡ true → sum_by (λ d. d.1) deposits.now ≤ max_money }
{
    deposits.len() <= u32::MAX as usize && total <= MAX_MONEY
}

// The configuration before any event. Deposits that no header has count as out of memory.
fn opening(
    alloc: Global,
    header: &Header,
    contracts: &[Checked],
    total: u64,
) -> Result<Config, OutOfMemory>
    requires { total ≡ sum_by (λ d. d.1) header.now.deposits }
    ensures { IfOk result (λ g. g ≡ opening_configuration (setup_with header.now contracts.now)) }
{
    let deposits = header.deposits.as_slice();
    if !may_open(deposits, total) {
        return Err(AllocError);
    }
    Config::opening(
        alloc,
        header.parties.as_slice(),
        header.honest.as_slice(),
        deposits,
        contracts,
    )
}

// ---- the picture

fn are_several(contracts: &[Checked]) -> bool
    ensures { result ≡ nat_lt 1 (length contracts.now) }
{
    contracts.len() > 1
}

// The rows of a run, or of one whose opening collides.
fn rows_of(alloc: Global, setting: &Setting, events: &Played) -> Result<Seq<EventRow>, OutOfMemory>
    requires { IsSetting setting.now }
    ensures { IfOk result (λ rows. rows ≡ played_rows (setup_in setting.now) events.now) }
{
    let opening = opening(alloc, setting.header, setting.contracts, setting.total)?;
    match events {
        Played::Opened(entries, halted) => run_rows(alloc, setting, opening, entries, halted),
        Played::Unopened => unopened_rows(alloc, setting, opening),
    }
}

/// All that a picture shows of a run of so many events, with this header and these contracts.
pub fn picture_of(
    alloc: Global,
    header: &Header,
    contracts: &[Checked],
    count: u64,
    events: &Played,
) -> Result<Picture, OutOfMemory>
    ensures { IfOk result (λ p. p ≡ picture_by (setup_with header.now contracts.now) count events.now) }
{
    let parties = columns(alloc, contracts)?;
    let total = all_money(header.deposits.as_slice())?;
    let sheets = sheets_of(alloc, contracts)?;
    let text = contract_lines(alloc, contracts)?;
    let setting = Setting {
        header,
        contracts,
        parties: &parties,
        total,
        several: are_several(contracts),
    };
    let rows = rows_of(alloc, &setting, events)?;
    Ok(Picture {
        parties: Seq::of(parties),
        total,
        sheets,
        count,
        rows,
        text,
    })
}
