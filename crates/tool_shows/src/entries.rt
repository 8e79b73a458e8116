//! What is shown of each event.

ghost use Rattle.std.specs.Prelude.{◌≡◌, length, IfOk};
ghost use Rattle.bm_report.specs.Entries.{entry_by, entries_by};

use bm_rows::Rows;
use spec_calculus::Step;
use spec_data::OutOfMemory;
use spec_run::Record;
use spec_text::Entry;
use spec_text::entry::copy_steps;
use std::alloc::Global;

fn entry_by(alloc: Global, recorded: &Record, steps: &[Step]) -> Result<Entry, OutOfMemory>
    ensures { IfOk result (λ entry. entry ≡ entry_by recorded.now steps.now) }
{
    Ok(Entry {
        event: recorded.event.copy(alloc)?,
        outcome: recorded.outcome.copy(alloc)?,
        steps: copy_steps(alloc, steps)?,
    })
}

/// An entry for each record, with its steps.
pub fn entries_by(
    alloc: Global,
    records: &[Record],
    steps: &Rows<Step>,
) -> Result<Vec<Entry>, OutOfMemory>
    requires { length steps.now ≡ length records.now }
    ensures { IfOk result (λ entries. entries.items ≡ entries_by records.now steps.now) }
{
    let mut entries = Vec::new(alloc);
    for (number, recorded) in records.iter().enumerate() {
        entries.push(entry_by(alloc, recorded, steps.row(number))?)?;
    }
    Ok(entries)
}
