//! The reply to a run that is shown event by event.

ghost use Rattle.std.specs.Prelude.{◌≡◌, length, IfOk};
ghost use Rattle.spec_text.specs.PlayText.{report_text};
ghost use Rattle.spec_tool.specs.Commands.{prints, ending_status};
ghost use Rattle.spec_tool.specs.Replies.{printed};
ghost use Rattle.bm_report.specs.Endings.{ending_of, IsNumbered};
ghost use Rattle.bm_report.specs.Entries.{entries_by};

use bm_report::{Ending, report};
use bm_rows::Rows;
use spec_calculus::Step;
use spec_data::OutOfMemory;
use spec_run::{Header, Record};
use spec_tool::Reply;
use std::alloc::Global;

// 0 where all events were played, 7 where a secret was guessed, 8 where strings collided.
fn ending_status(ending: &Ending) -> u8
    ensures { result ≡ ending_status (ending_of ending.now) }
{
    match ending {
        Ending::Whole { .. } => 0,
        Ending::Guessed { .. } => 7,
        Ending::Collided { .. } => 8,
    }
}

/// The report of a run with its status.
pub fn report_reply(
    alloc: Global,
    header: &Header,
    records: &[Record],
    steps: &Rows<Step>,
    ending: &Ending,
) -> Result<Reply, OutOfMemory>
    requires each { length steps.now ≡ length records.now }
    requires numbered { IsNumbered ending.now }
    ensures { IfOk result (λ reply. printed reply
        ≡ prints (ending_status (ending_of ending.now))
        (report_text header.now.deposits (entries_by records.now steps.now) (ending_of ending.now))) }
{
    let text = report(alloc, header, records, steps, ending)?;
    Ok(Reply::new(ending_status(ending), text))
}
