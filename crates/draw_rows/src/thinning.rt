//! At most so many rows are shown.

ghost use Rattle.std.specs.Prelude.{◌≡◌, ◌+◌, ◌-◌, IfOk};
ghost use Rattle.spec_page.specs.Stops as spec;
ghost use Rattle.draw_rows.specs.Turns as turns;

use spec_data::{OutOfMemory, Seq};
use spec_page::{EventRow, Look};
use std::alloc::{AllocError, Global};

/// So many rows are shown.
const MOST_ROWS: usize = 400;

fn is_refusal(look: Look) -> bool
    ensures { result ≡ spec.is_refusal look }
{
    match look {
        Look::Refused => true,
        _ => false,
    }
}

fn count_refused(rows: &[EventRow]) -> Result<usize, OutOfMemory>
    ensures { IfOk result (λ n. n ≡ turns.count_refused rows.now) }
{
    let mut count = 0usize;
    for row in rows {
        if is_refusal(row.look) {
            count = count.checked_add(1).ok_or(AllocError)?;
        }
    }
    Ok(count)
}

// The first so many that are refused, and the first so many others.
fn thinned(
    alloc: Global,
    refused: usize,
    others: usize,
    rows: Vec<EventRow>,
) -> Result<Seq<EventRow>, OutOfMemory>
    ensures { IfOk result (λ kept. kept ≡ turns.thinned refused others rows.items) }
{
    let mut kept = Seq::new(alloc);
    let mut refusals = refused;
    let mut room = others;
    for row in rows {
        if is_refusal(row.look) {
            if refusals >= 1 {
                kept.push(row)?;
            }
            refusals = refusals.saturating_sub(1);
        } else {
            if room >= 1 {
                kept.push(row)?;
            }
            room = room.saturating_sub(1);
        }
    }
    Ok(kept)
}

// All where they are few enough; else the refused ones go first.
pub(crate) fn shown_rows(alloc: Global, rows: Seq<EventRow>) -> Result<Seq<EventRow>, OutOfMemory>
    ensures { IfOk result (λ shown. shown ≡ turns.shown_rows rows) }
{
    if rows.len() <= MOST_ROWS {
        return Ok(rows);
    }
    let refused = count_refused(rows.as_slice())?;
    let others = rows.len().saturating_sub(refused);
    thinned(
        alloc,
        MOST_ROWS.saturating_sub(others),
        MOST_ROWS,
        rows.into_vec(),
    )
}

// How many events a row holds.
fn held_by(row: &EventRow) -> Result<usize, OutOfMemory>
    ensures { IfOk result (λ n. n ≡ row.now.last - row.now.first + 1) }
{
    let more = row.last.saturating_sub(row.first) as usize;
    more.checked_add(1).ok_or(AllocError)
}

pub(crate) fn held_in(rows: &[EventRow]) -> Result<usize, OutOfMemory>
    ensures { IfOk result (λ n. n ≡ turns.held_in rows.now) }
{
    let mut count = 0usize;
    for row in rows {
        let held = held_by(row)?;
        count = count.checked_add(held).ok_or(AllocError)?;
    }
    Ok(count)
}
