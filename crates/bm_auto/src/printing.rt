//! A run that went on is printed.

ghost use Rattle.std.specs.Prelude.{◌≡◌, ◌++◌, flat_map, IfOk, OnOk};
ghost use Rattle.spec_text.specs.RunText.{newline, event_text, run_text};
ghost use Rattle.spec_tool.specs.Commands.{prints};
ghost use Rattle.spec_tool.specs.Replies.{printed};
ghost use Rattle.bm_auto.specs.Longer.{longer};

use bm_runfile::{print_header, put_event};
use bm_text::put;
use spec_data::OutOfMemory;
use spec_run::{Event, Header};
use spec_tool::Reply;
use std::alloc::Global;

#[tactic(auto, using(std::proofs::Common::append_assoc))]
fn put_event_line(alloc: Global, out: &mut Vec<u8>, event: &Event) -> Result<(), OutOfMemory>
    ensures { OnOk result (out.new.items ≡ out.old.items ++ (event_text event.now ++ newline)) }
{
    put_event(alloc, out, event)?;
    put(out, b"\n")
}

fn put_events(alloc: Global, out: &mut Vec<u8>, events: &[Event]) -> Result<(), OutOfMemory>
    ensures { OnOk result (out.new.items ≡ out.old.items ++ flat_map (λ e. event_text e ++ newline) events.now) }
{
    for event in events {
        put_event_line(alloc, out, event)?;
    }
    Ok(())
}

// The text of a run with more events behind its own.
#[tactic(auto, using(std::proofs::Common::append_assoc, crate::proofs::Lines::lines_of_both))]
fn longer_text(
    alloc: Global,
    header: &Header,
    events: &[Event],
    more: &[Event],
) -> Result<Vec<u8>, OutOfMemory>
    ensures { IfOk result (λ text. text.items ≡ run_text (longer header.now events.now more.now)) }
{
    let mut out = print_header(alloc, header)?;
    put_events(alloc, &mut out, events)?;
    put_events(alloc, &mut out, more)?;
    Ok(out)
}

/// A run with more events behind its own, in canonical lines.
pub fn longer_reply(
    alloc: Global,
    header: &Header,
    events: &[Event],
    more: &[Event],
) -> Result<Reply, OutOfMemory>
    ensures { IfOk result (λ reply. printed reply ≡ prints 0 (run_text (longer header.now events.now more.now))) }
{
    let text = longer_text(alloc, header, events, more)?;
    Ok(Reply::new(0, text))
}
