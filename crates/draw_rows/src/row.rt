//! A row of a run.

ghost use Rattle.std.specs.Prelude.{◌≡◌, ◌-◌, None, IfOk};
ghost use Rattle.spec_page.specs.Moments.{first_moment as opening_moment};
ghost use Rattle.spec_page.specs.Stops as spec;
ghost use Rattle.draw_rows.specs.Settings.{setup_in, IsSetting};
ghost use Rattle.draw_rows.specs.Turns as turns;

use crate::balances::money_of;
use crate::fold_words::{brings_blocks, fold_actor, fold_lines, fold_look, fold_words, note_of};
use crate::folds::{Fold, is_plain};
use crate::looks::looks_of;
use crate::moments::Moment;
use crate::outlooks::outlook_of;
use crate::setting::Setting;
use crate::standing::offered;
use crate::view::View;
use spec_data::{Bytes, Name, OutOfMemory};
use spec_page::{EventRow, Look};
use std::alloc::Global;
use std::marker::Model;

// A row of what these words say, after which the run stands at this moment.
pub(crate) fn row_at(
    alloc: Global,
    setting: &Setting,
    moment: &Moment,
    first: u32,
    last: u32,
    look: Look,
    words: Bytes,
    note: Bytes,
    lines: Bytes,
    who: Option<Name>,
) -> Result<EventRow, OutOfMemory>
    requires { IsSetting setting.now }
    ensures { IfOk result (λ row. row ≡ (spec.stop (setup_in setting.now) first last look words note lines who moment.now).row) }
{
    let taking = offered(alloc, moment)?;
    let view = View {
        moment,
        offered: &taking,
    };
    let outlook = outlook_of(alloc, setting, &view, look)?;
    let looks = looks_of(alloc, moment, &taking, setting.contracts)?;
    let money = money_of(alloc, setting.parties, setting.total, &moment.config)?;
    Ok(EventRow {
        first,
        last,
        look,
        words,
        note,
        lines,
        actor: who,
        height: moment.config.time(),
        money,
        looks,
        outlook,
    })
}

pub(crate) fn bytes_of(alloc: Global, text: &[u8]) -> Result<Bytes, OutOfMemory>
    ensures { IfOk result (λ b. b ≡ text.now) }
{
    Bytes::from_slice(alloc, text)
}

pub(crate) fn first_row(
    alloc: Global,
    setting: &Setting,
    moment: &Moment,
) -> Result<EventRow, OutOfMemory>
    requires setting { IsSetting setting.now }
    requires first { moment.now ≡ opening_moment (setup_in setting.now) }
    ensures { IfOk result (λ row. row ≡ (spec.first_stop (setup_in setting.now)).row) }
{
    let words = bytes_of(alloc, b"the deposits")?;
    let note = bytes_of(alloc, b"")?;
    let lines = bytes_of(alloc, b"")?;
    row_at(
        alloc,
        setting,
        moment,
        0,
        0,
        Look::Start,
        words,
        note,
        lines,
        None,
    )
}

/// The row of a fold.
pub(crate) fn fold_row(
    alloc: Global,
    setting: &Setting,
    fold: &Fold,
) -> Result<EventRow, OutOfMemory>
    requires { IsSetting setting.now }
    ensures { IfOk result (λ row. row ≡ turns.fold_row (setup_in setting.now) fold.now) }
{
    let moment = &fold.moment;
    let entry = &fold.entry;
    let plain = is_plain(alloc, fold)?;
    let blocks = brings_blocks(&entry.event);
    let look = fold_look(fold);
    let words = fold_words(alloc, setting.several, plain, fold)?;
    let note = note_of(alloc, blocks, moment.config.time(), &entry.outcome)?;
    let lines = fold_lines(alloc, plain, fold)?;
    let who = fold_actor(plain, fold);
    let (first, last) = (fold.first, fold.last);
    row_at(
        alloc, setting, moment, first, last, look, words, note, lines, who,
    )
}
