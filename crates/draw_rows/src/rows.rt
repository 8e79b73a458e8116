//! The rows of a run, each with what its events left.

ghost use Rattle.std.specs.Prelude.{◌≡◌, ◌+◌, ◌-◌, ◌++◌, ◌∷◌, [], Some, None, codes, map, length, IfOk, OnOk};
ghost use Rattle.spec_run.specs.Translation.{opening_configuration};
ghost use Rattle.spec_page.specs.declared.event_row.Look.TheVariants as looks;
ghost use Rattle.spec_page.specs.Moments.{first_moment as opening_moment};
ghost use Rattle.spec_page.specs.Stops as spec;
ghost use Rattle.draw_rows.specs.Halts.{halt_of};
ghost use Rattle.draw_rows.specs.Settings.{setup_in, IsSetting};
ghost use Rattle.draw_rows.specs.Turns as turns;

use crate::ends::put_end;
use crate::folds::{Fold, fold_of, longer, may_share, next_fold};
use crate::halted::Halted;
use crate::moments::{Moment, first_moment};
use crate::row::{bytes_of, first_row, fold_row, row_at};
use crate::setting::Setting;
use crate::thinning::{held_in, shown_rows};
use bm_calculus::Config;
use spec_data::{OutOfMemory, Seq};
use spec_page::{EventRow, Look};
use spec_text::Entry;
use std::alloc::Global;

// The fold with one event more, or the one behind it, where its row is added.
#[tactic(auto, unfolding(crate::specs::Turns::went, crate::specs::Turns::pushed))]
fn go_on(
    alloc: Global,
    rows: &mut Seq<EventRow>,
    setting: &Setting,
    fold: Fold,
    entry: &Entry,
) -> Result<Fold, OutOfMemory>
    requires { IsSetting setting.now }
    ensures rows { OnOk result (rows.new ≡ rows.old ++ turns.pushed (setup_in setting.now) fold entry.now) }
    ensures fold { IfOk result (λ f. f ≡ turns.went fold entry.now) }
{
    if may_share(alloc, &fold.entry, entry)? {
        return longer(alloc, fold, entry);
    }
    let row = fold_row(alloc, setting, &fold)?;
    rows.push(row)?;
    next_fold(alloc, fold, entry)
}

// Adds the rows of a fold and of the events behind it. What all left.
#[tactic(auto, using(std::proofs::Common::append_assoc, crate::proofs::Stepping::folds_step, crate::proofs::Stepping::went_moment))]
fn put_folds(
    alloc: Global,
    rows: &mut Seq<EventRow>,
    setting: &Setting,
    begins: Fold,
    entries: &[Entry],
) -> Result<Moment, OutOfMemory>
    requires { IsSetting setting.now }
    ensures rows { OnOk result (rows.new ≡ rows.old
        ++ map (turns.fold_row (setup_in setting.now)) (turns.folds_from begins entries.now)) }
    ensures moment { IfOk result (λ m. m ≡ turns.after_entries begins.moment entries.now) }
{
    let mut fold = begins;
    for entry in entries {
        fold = go_on(alloc, rows, setting, fold, entry)?;
    }
    let row = fold_row(alloc, setting, &fold)?;
    rows.push(row)?;
    Ok(fold.into_moment())
}

// Adds the rows of these events from this moment on. What they left.
fn put_events(
    alloc: Global,
    rows: &mut Seq<EventRow>,
    setting: &Setting,
    moment: Moment,
    entries: &[Entry],
) -> Result<Moment, OutOfMemory>
    requires { IsSetting setting.now }
    ensures rows { OnOk result (rows.new ≡ rows.old
        ++ map (turns.fold_row (setup_in setting.now)) (turns.folds_of moment entries.now)) }
    ensures moment { IfOk result (λ m. m ≡ turns.after_entries moment entries.now) }
{
    match entries.split_first() {
        None => Ok(moment),
        Some((first, others)) => {
            let fold = fold_of(alloc, moment, 1, first)?;
            put_folds(alloc, rows, setting, fold, others)
        }
    }
}

// Those of the events, as many as are shown, and what stands behind them.
fn later_rows(
    alloc: Global,
    setting: &Setting,
    moment: Moment,
    entries: &[Entry],
    halted: &Halted,
) -> Result<Seq<EventRow>, OutOfMemory>
    requires { IsSetting setting.now }
    ensures { IfOk result (λ rows. rows ≡ turns.ended (setup_in setting.now) (length entries.now) (halt_of halted.now)
        (turns.after_entries moment entries.now)
        (turns.shown_rows (map (turns.fold_row (setup_in setting.now)) (turns.folds_of moment entries.now)))) }
{
    let mut all = Seq::new(alloc);
    let end = put_events(alloc, &mut all, setting, moment, entries)?;
    let mut rows = shown_rows(alloc, all)?;
    let held = held_in(rows.as_slice())?;
    put_end(alloc, &mut rows, setting, &end, entries.len(), held, halted)?;
    Ok(rows)
}

#[tactic(auto, using(std::proofs::Common::append_assoc))]
fn put_rows(rows: &mut Seq<EventRow>, more: Seq<EventRow>) -> Result<(), OutOfMemory>
    ensures { OnOk result (rows.new ≡ rows.old ++ more) }
{
    for row in more.into_vec() {
        rows.push(row)?;
    }
    Ok(())
}

/// The rows of a run of these events, from this configuration on.
pub(crate) fn run_rows(
    alloc: Global,
    setting: &Setting,
    opening: Config,
    entries: &[Entry],
    halted: &Halted,
) -> Result<Seq<EventRow>, OutOfMemory>
    requires setting { IsSetting setting.now }
    requires opening { opening ≡ opening_configuration (setup_in setting.now) }
    ensures { IfOk result (λ rows. rows ≡ turns.rows_by (setup_in setting.now) entries.now (halt_of halted.now)) }
{
    let moment = first_moment(alloc, opening);
    let mut rows = Seq::new(alloc);
    let first = first_row(alloc, setting, &moment)?;
    rows.push(first)?;
    let later = later_rows(alloc, setting, moment, entries, halted)?;
    put_rows(&mut rows, later)?;
    Ok(rows)
}

/// The rows of a run whose opening collides.
pub(crate) fn unopened_rows(
    alloc: Global,
    setting: &Setting,
    opening: Config,
) -> Result<Seq<EventRow>, OutOfMemory>
    requires setting { IsSetting setting.now }
    requires opening { opening ≡ opening_configuration (setup_in setting.now) }
    ensures { IfOk result (λ rows. rows ≡ (spec.first_stop (setup_in setting.now)).row
        ∷ (spec.stop (setup_in setting.now) 1 1 looks.Halt (codes "the opening") (codes "two strings have one digest") [] None
        (opening_moment (setup_in setting.now))).row ∷ []) }
{
    let moment = first_moment(alloc, opening);
    let mut rows = Seq::new(alloc);
    let first = first_row(alloc, setting, &moment)?;
    rows.push(first)?;
    let words = bytes_of(alloc, b"the opening")?;
    let note = bytes_of(alloc, b"two strings have one digest")?;
    let lines = bytes_of(alloc, b"")?;
    let row = row_at(
        alloc,
        setting,
        &moment,
        1,
        1,
        Look::Halt,
        words,
        note,
        lines,
        None,
    )?;
    rows.push(row)?;
    Ok(rows)
}
