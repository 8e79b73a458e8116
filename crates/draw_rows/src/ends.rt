//! What stands behind the rows of events: how many are left out, and what halted the run.

ghost use Rattle.std.specs.Prelude.{◌≡◌, ◌+◌, ◌-◌, ◌++◌, [], None, map, IfOk, OnOk};
ghost use Rattle.spec_run.specs.Pending as pending;
ghost use Rattle.spec_text.specs.RunText.{event_text};
ghost use Rattle.spec_page.specs.declared.event_row.Look.TheVariants as looks;
ghost use Rattle.spec_page.specs.EventWords as words;
ghost use Rattle.spec_page.specs.Stops as spec;
ghost use Rattle.draw_rows.specs.Halts.{halt_of};
ghost use Rattle.draw_rows.specs.Settings.{setup_in, IsSetting};

use crate::event_words::{actor, put_event_words};
use crate::figures::{plus, put_sum};
use crate::halted::Halted;
use crate::moments::Moment;
use crate::row::{bytes_of, row_at};
use crate::setting::Setting;
use bm_runfile::put_event;
use bm_text::put;
use spec_data::{Bytes, Name, OutOfMemory, Seq};
use spec_page::{EventRow, Look};
use spec_run::Event;
use std::alloc::{AllocError, Global};

#[tactic(auto, using(std::proofs::Common::append_assoc))]
fn more_text(alloc: Global, more: usize) -> Result<Bytes, OutOfMemory>
    ensures { IfOk result (λ text. text ≡ spec.more_text more) }
{
    let mut text = Vec::new(alloc);
    put(&mut text, b"and ")?;
    put_sum(alloc, &mut text, more as u64)?;
    if more == 1 {
        put(&mut text, b" event more")?;
    } else {
        put(&mut text, b" events more")?;
    }
    Ok(Bytes::of(text))
}

// How many events are left out, where some are.
fn put_more(
    alloc: Global,
    rows: &mut Seq<EventRow>,
    setting: &Setting,
    moment: &Moment,
    number: u32,
    more: usize,
) -> Result<(), OutOfMemory>
    requires { IsSetting setting.now }
    ensures { OnOk result (rows.new ≡ rows.old
        ++ map (λ st. st.row) (spec.more_stops (setup_in setting.now) number more moment.now)) }
{
    if more == 0 {
        return Ok(());
    }
    let words = more_text(alloc, more)?;
    let note = bytes_of(alloc, b"")?;
    let lines = bytes_of(alloc, b"")?;
    let look = Look::More;
    let row = row_at(
        alloc, setting, moment, number, number, look, words, note, lines, None,
    )?;
    rows.push(row)?;
    Ok(())
}

fn halt_words(
    alloc: Global,
    several: bool,
    moment: &Moment,
    event: &Event,
) -> Result<Bytes, OutOfMemory>
    ensures { IfOk result (λ text. text ≡ words.event_words several moment.now.places [] event.now) }
{
    let mut text = Vec::new(alloc);
    put_event_words(alloc, &mut text, several, &moment.places, &[], event)?;
    Ok(Bytes::of(text))
}

// What halted the run, and how.
fn halt_row(
    alloc: Global,
    setting: &Setting,
    moment: &Moment,
    number: u32,
    event: &Event,
    note: Bytes,
) -> Result<EventRow, OutOfMemory>
    requires { IsSetting setting.now }
    ensures { IfOk result (λ row. row ≡ (spec.stop (setup_in setting.now) number number looks.Halt
        (words.event_words (words.are_several (setup_in setting.now)) moment.now.places [] event.now) note (event_text event.now)
        (words.actor [] event.now) moment.now).row) }
{
    let words = halt_words(alloc, setting.several, moment, event)?;
    let mut lines = Vec::new(alloc);
    put_event(alloc, &mut lines, event)?;
    let who = actor(&[], event);
    let lines = Bytes::of(lines);
    row_at(
        alloc,
        setting,
        moment,
        number,
        number,
        Look::Halt,
        words,
        note,
        lines,
        who,
    )
}

#[tactic(auto, using(std::proofs::Common::append_assoc))]
fn guess_text(alloc: Global, party: &Name, secret: &Name) -> Result<Bytes, OutOfMemory>
    ensures { IfOk result (λ text. text ≡ spec.halt_text (pending.Guessed party.now secret.now)) }
{
    let mut text = Vec::new(alloc);
    put(&mut text, b"guesses secret ")?;
    put(&mut text, secret.bytes())?;
    put(&mut text, b" of ")?;
    put(&mut text, party.bytes())?;
    Ok(Bytes::of(text))
}

fn put_halt(
    alloc: Global,
    rows: &mut Seq<EventRow>,
    setting: &Setting,
    moment: &Moment,
    number: u32,
    halted: &Halted,
) -> Result<(), OutOfMemory>
    requires { IsSetting setting.now }
    ensures { OnOk result (rows.new ≡ rows.old
        ++ map (λ st. st.row) (spec.halt_stops (setup_in setting.now) number (halt_of halted.now) moment.now)) }
{
    match halted {
        Halted::Nothing => Ok(()),
        Halted::Guesses {
            event,
            party,
            secret,
        } => {
            let note = guess_text(alloc, party, secret)?;
            let row = halt_row(alloc, setting, moment, number, event, note)?;
            rows.push(row)?;
            Ok(())
        }
        Halted::Collides(event) => {
            let note = bytes_of(alloc, b"two strings have one digest")?;
            let row = halt_row(alloc, setting, moment, number, event, note)?;
            rows.push(row)?;
            Ok(())
        }
    }
}

fn small(count: usize) -> Result<u32, OutOfMemory>
    ensures { IfOk result (λ n. n ≡ count) }
{
    if count > u32::MAX as usize {
        return Err(AllocError);
    }
    Ok(count as u32)
}

// Behind the rows of so many events, the rest.
#[tactic(auto, using(std::proofs::Common::append_assoc))]
pub(crate) fn put_end(
    alloc: Global,
    rows: &mut Seq<EventRow>,
    setting: &Setting,
    moment: &Moment,
    count: usize,
    held: usize,
    halted: &Halted,
) -> Result<(), OutOfMemory>
    requires { IsSetting setting.now }
    ensures { OnOk result (rows.new ≡ rows.old
        ++ (map (λ st. st.row) (spec.more_stops (setup_in setting.now) count (count - held) moment.now)
        ++ map (λ st. st.row) (spec.halt_stops (setup_in setting.now) (count + 1) (halt_of halted.now) moment.now))) }
{
    let number = small(count)?;
    put_more(
        alloc,
        rows,
        setting,
        moment,
        number,
        count.saturating_sub(held),
    )?;
    put_halt(alloc, rows, setting, moment, plus(number, 1)?, halted)
}
