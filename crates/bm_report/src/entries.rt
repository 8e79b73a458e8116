//! The beginning of what is printed, and the events.

ghost use Rattle.std.specs.Prelude.{◌≡◌, ◌<◌, ◌≤◌, ◌+◌, ◌^◌, ◌++◌, codes, length, OnOk};
ghost use Rattle.std.specs.Fmt.{decimal};
ghost use Rattle.spec_text.specs.RunText.{output_text, newline};
ghost use Rattle.spec_text.specs.PlayText as spec;
ghost use Rattle.bm_report.specs.Entries.{entry_by, entries_by};

use crate::outcome::put_outcome;
use crate::step::put_steps;
use bm_rows::Rows;
use bm_runfile::{Event, put_byte, put_event};
use bm_text::{put, put_decimal};
use spec_calculus::Step;
use spec_data::{Name, OutOfMemory};
use spec_run::Record;
use std::alloc::Global;

#[tactic(auto, using(std::proofs::Common::append_assoc))]
fn put_start_head(
    alloc: Global,
    out: &mut Vec<u8>,
    number: u64,
    party: &Name,
) -> Result<(), OutOfMemory>
    ensures { OnOk result (out.new.items ≡ out.old.items ++ (codes "start " ++ (output_text number ++ (codes " " ++ party.now)))) }
{
    put(out, b"start #")?;
    put_decimal(alloc, out, number)?;
    put(out, b" ")?;
    put(out, party.bytes())
}

#[tactic(auto, using(std::proofs::Common::append_assoc))]
fn put_value_end(alloc: Global, out: &mut Vec<u8>, value: u64) -> Result<(), OutOfMemory>
    ensures { OnOk result (out.new.items ≡ out.old.items ++ (codes " " ++ (decimal value ++ newline))) }
{
    put(out, b" ")?;
    put_decimal(alloc, out, value)?;
    put(out, b"\n")
}

/// `start #n A v` for each deposit.
#[tactic(auto, using(std::proofs::Common::append_assoc))]
pub(crate) fn put_start(
    alloc: Global,
    out: &mut Vec<u8>,
    deposits: &[(Name, u64)],
) -> Result<(), OutOfMemory>
    ensures { OnOk result (out.new.items ≡ out.old.items ++ spec.start_lines 0 deposits.now) }
{
    let mut number = 0u64;
    for (party, value) in deposits {
        put_start_head(alloc, out, number, party)?;
        put_value_end(alloc, out, *value)?;
        number += 1;
    }
    Ok(())
}

/// `event I LINE`
#[tactic(auto, using(std::proofs::Common::append_assoc))]
pub(crate) fn put_event_line(
    alloc: Global,
    out: &mut Vec<u8>,
    number: u64,
    event: &Event,
) -> Result<(), OutOfMemory>
    ensures { OnOk result (out.new.items ≡ out.old.items ++ spec.event_line number event.now) }
{
    put(out, b"event ")?;
    put_decimal(alloc, out, number)?;
    put_byte(out, b' ')?;
    put_event(alloc, out, event)?;
    put_byte(out, b'\n')
}

#[tactic(auto, using(std::proofs::Common::append_assoc))]
fn put_entry(
    alloc: Global,
    out: &mut Vec<u8>,
    number: u64,
    recorded: &Record,
    steps: &[Step],
) -> Result<(), OutOfMemory>
    ensures { OnOk result (out.new.items ≡ out.old.items ++ spec.entry_text number (entry_by recorded.now steps.now)) }
{
    put_event_line(alloc, out, number, &recorded.event)?;
    put_outcome(alloc, out, &recorded.outcome)?;
    put_steps(alloc, out, &recorded.outcome, steps)
}

/// What the records came to, numbered from 1 on, each with its steps.
#[tactic(auto, using(std::proofs::Common::append_assoc))]
pub(crate) fn put_entries(
    alloc: Global,
    out: &mut Vec<u8>,
    records: &[Record],
    steps: &Rows<Step>,
) -> Result<(), OutOfMemory>
    requires { length steps.now ≡ length records.now }
    ensures { OnOk result (out.new.items ≡ out.old.items ++ spec.entries_text 1 (entries_by records.now steps.now)) }
{
    let mut number = 1u64;
    for (place, recorded) in records.iter().enumerate() {
        put_entry(alloc, out, number, recorded, steps.row(place))?;
        number += 1;
    }
    Ok(())
}
