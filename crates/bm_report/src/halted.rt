//! The text of a run that is halted.

ghost use Rattle.std.specs.Prelude.{◌≡◌, ◌<◌, ◌+◌, ◌^◌, ◌++◌, [], Some, None, length, IfOk, OnOk};
ghost use Rattle.spec_text.specs.PlayText as spec;
ghost use Rattle.bm_report.specs.Entries.{entries_by};
ghost use Rattle.spec_text.specs.PlayText.{guessed, collided};

use crate::entries::{put_entries, put_event_line, put_start};
use crate::last::{put_collided, put_guessed};
use bm_rows::Rows;
use bm_runfile::{Event, Header};
use spec_calculus::Step;
use spec_data::{Name, OutOfMemory};
use spec_run::Record;
use std::alloc::Global;

// The line of the event behind all that are recorded.
fn put_next_line(
    alloc: Global,
    out: &mut Vec<u8>,
    records: &[Record],
    steps: &Rows<Step>,
    event: &Event,
) -> Result<(), OutOfMemory>
    requires { length steps.now ≡ length records.now }
    ensures { OnOk result (out.new.items ≡ out.old.items
        ++ spec.event_line (length (entries_by records.now steps.now) + 1) event.now) }
{
    put_event_line(alloc, out, records.len() as u64 + 1, event)
}

// The lines of the opening, of all records, and of the event behind them.
#[tactic(auto, using(std::proofs::Common::append_assoc))]
fn put_up_to(
    alloc: Global,
    out: &mut Vec<u8>,
    deposits: &[(Name, u64)],
    records: &[Record],
    steps: &Rows<Step>,
    event: &Event,
) -> Result<(), OutOfMemory>
    requires { length steps.now ≡ length records.now }
    ensures { OnOk result (out.new.items ≡ out.old.items ++ (spec.start_lines 0 deposits.now
        ++ (spec.entries_text 1 (entries_by records.now steps.now)
        ++ spec.event_line (length (entries_by records.now steps.now) + 1) event.now))) }
{
    put_start(alloc, out, deposits)?;
    put_entries(alloc, out, records, steps)?;
    put_next_line(alloc, out, records, steps, event)
}

/// The text of a run in which this event guesses a secret.
#[tactic(auto, using(std::proofs::Common::append_assoc))]
pub(crate) fn guessed_text(
    alloc: Global,
    header: &Header,
    records: &[Record],
    steps: &Rows<Step>,
    event: &Event,
    party: &Name,
    secret: &Name,
) -> Result<Vec<u8>, OutOfMemory>
    requires { length steps.now ≡ length records.now }
    ensures { IfOk result (λ text. text.items ≡ spec.report_text header.now.deposits (entries_by records.now steps.now)
        (guessed event.now party.now secret.now)) }
{
    let mut out = Vec::new(alloc);
    put_up_to(
        alloc,
        &mut out,
        header.deposits.as_slice(),
        records,
        steps,
        event,
    )?;
    put_guessed(&mut out, party, secret)?;
    Ok(out)
}

/// The text of a run in which this event collides: two different strings have one digest, the earlier first.
#[tactic(auto, using(std::proofs::Common::append_assoc))]
pub(crate) fn collided_text(
    alloc: Global,
    header: &Header,
    records: &[Record],
    steps: &Rows<Step>,
    event: &Event,
    earlier: &[u8],
    later: &[u8],
) -> Result<Vec<u8>, OutOfMemory>
    requires { length steps.now ≡ length records.now }
    ensures { IfOk result (λ text. text.items ≡ spec.report_text header.now.deposits (entries_by records.now steps.now)
        (collided (Some event.now) earlier.now later.now)) }
{
    let mut out = Vec::new(alloc);
    put_up_to(
        alloc,
        &mut out,
        header.deposits.as_slice(),
        records,
        steps,
        event,
    )?;
    put_collided(alloc, &mut out, earlier, later)?;
    Ok(out)
}

/// The text of a run whose opening collides: the two strings alone, the earlier first.
pub(crate) fn collided_opening_text(
    alloc: Global,
    earlier: &[u8],
    later: &[u8],
) -> Result<Vec<u8>, OutOfMemory>
    ensures { IfOk result (λ text. text.items ≡ spec.report_text [] [] (collided None earlier.now later.now)) }
{
    let mut out = Vec::new(alloc);
    put_collided(alloc, &mut out, earlier, later)?;
    Ok(out)
}
