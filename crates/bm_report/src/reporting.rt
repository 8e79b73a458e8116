//! The whole text of a run.

ghost use Rattle.std.specs.Prelude.{◌≡◌, length, IfOk};
ghost use Rattle.spec_text.specs.PlayText as spec;
ghost use Rattle.bm_report.specs.Entries.{entries_by};
ghost use Rattle.bm_report.specs.Endings.{ending_of, IsNumbered};

use crate::ending::Ending;
use crate::halted::{collided_opening_text, collided_text, guessed_text};
use crate::whole::whole_text;
use bm_rows::Rows;
use bm_runfile::{Event, Header};
use spec_calculus::Step;
use spec_data::OutOfMemory;
use spec_run::Record;
use std::alloc::Global;

/// The text of a run in which two strings collide, by the opening or by an event.
fn collision_text(
    alloc: Global,
    header: &Header,
    records: &[Record],
    steps: &Rows<Step>,
    event: &Option<Event>,
    first: &[u8],
    second: &[u8],
) -> Result<Vec<u8>, OutOfMemory>
    requires { length steps.now ≡ length records.now }
    ensures { IfOk result (λ text. text.items ≡ spec.report_text header.now.deposits (entries_by records.now steps.now)
        (spec.collided event.now first.now second.now)) }
{
    match event {
        None => collided_opening_text(alloc, first, second),
        Some(event) => collided_text(alloc, header, records, steps, event, first, second),
    }
}

/// What is printed of a run: the deposits of its header, its records with the steps of each, numbered from 1 on, and how it ends. A
/// collision of the opening is printed alone.
pub fn report(
    alloc: Global,
    header: &Header,
    records: &[Record],
    steps: &Rows<Step>,
    ending: &Ending,
) -> Result<Vec<u8>, OutOfMemory>
    requires each { length steps.now ≡ length records.now }
    requires numbered { IsNumbered ending.now }
    ensures { IfOk result (λ text. text.items ≡ spec.report_text header.now.deposits (entries_by records.now steps.now) (ending_of ending.now)) }
{
    match ending {
        Ending::Whole {
            tip,
            live,
            config,
            offers,
        } => {
            whole_text(
                alloc,
                header,
                records,
                steps,
                *tip,
                live.as_slice(),
                config,
                offers.as_slice(),
            )
        }
        Ending::Guessed {
            event,
            party,
            secret,
        } => guessed_text(alloc, header, records, steps, event, party, secret),
        Ending::Collided {
            event,
            first,
            second,
        } => {
            collision_text(
                alloc,
                header,
                records,
                steps,
                event,
                first.as_slice(),
                second.as_slice(),
            )
        }
    }
}
