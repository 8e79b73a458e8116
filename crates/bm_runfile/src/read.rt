//! Reads a whole run, line by line.

ghost use Rattle.std.specs.Prelude.{◌≡◌, ◌<◌, ◌≤◌, ◌+◌, ◌^◌, length, IfOk};
ghost use Rattle.spec_text.specs.Limits.{most_run_bytes};
ghost use Rattle.spec_text.specs.Lines.{lines_of};
ghost use Rattle.spec_text.specs.RunFile as spec;
ghost use Rattle.bm_runfile.specs.Gives.{at_line, Gives};

use crate::error::{LineError, RunError};
use crate::events::take_event;
use crate::header::{Said, take_line};
use crate::lines::first_line;
use spec_data::{MOST_EVENTS, Name, Seq};
use spec_run::{Event, Header, Run};
use std::alloc::Global;

fn at_line(error: LineError, line: u32) -> RunError
    ensures { result ≡ at_line error line }
{
    match error {
        LineError::Bad => RunError::BadLine(line),
        LineError::Over(limit) => RunError::Limit(limit, line),
        LineError::Memory => RunError::Memory,
    }
}

/// The header of a text, with the text after it and the number of its first line.
fn read_header(alloc: Global, text: &[u8]) -> Result<(Header, &[u8], u32), RunError>
    requires { length text.now ≤ most_run_bytes }
    ensures found { Gives (λ p. (p.0, lines_of p.1.now, p.2)) result (spec.read_header spec.no_header 1 (lines_of text.now)) }
    ensures line { IfOk result (λ p. p.2 + length p.1.now ≤ length text.now + 1) }
{
    let mut header = Header {
        parties: Seq::new(alloc),
        honest: Seq::new(alloc),
        secrets: Seq::new(alloc),
        deposits: Seq::new(alloc),
    };
    let mut rest = text;
    let mut line = 1u32;
    while !rest.is_empty() {
        let (prefix, more) = first_line(rest);
        match take_line(alloc, &mut header, prefix) {
            Ok(Said::Rule) => return Ok((header, more, line + 1)),
            Ok(Said::Empty | Said::Grown) => {}
            Err(error) => return Err(at_line(error, line)),
        }
        rest = more;
        line += 1;
    }
    Err(RunError::BadLine(line))
}

// How many events a text has at most: the shortest line of one has seven bytes, with its end.
fn most_events_in(text: &[u8]) -> usize {
    MOST_EVENTS.min(text.len() / 7 + 1)
}

/// The events of a text. Their room is taken at once.
fn read_events(
    alloc: Global,
    parties: &[Name],
    text: &[u8],
    first: u32,
) -> Result<Vec<Event>, RunError>
    requires { first + length text.now < 2 ^ 32 }
    ensures { Gives (λ v. v.items) result (spec.read_events parties.now 0 first (lines_of text.now)) }
{
    let mut events = Vec::with_capacity(alloc, most_events_in(text))?;
    let mut words = Vec::new(alloc);
    let mut rest = text;
    let mut line = first;
    while !rest.is_empty() {
        let (prefix, more) = first_line(rest);
        if let Err(error) = take_event(alloc, parties, &mut events, &mut words, prefix) {
            return Err(at_line(error, line));
        }
        rest = more;
        line += 1;
    }
    Ok(events)
}

/// The run that a text of at most 8,388,608 bytes spells, or why it spells none. The first line that is bad, too long
/// or one too many is named; without the line `--` it is the one after the last.
pub fn read_run(alloc: Global, text: &[u8]) -> Result<Run, RunError>
    requires { length text.now ≤ most_run_bytes }
    ensures { Gives (λ r. r) result (spec.read_run text.now) }
{
    let (header, rest, line) = read_header(alloc, text)?;
    let events = read_events(alloc, header.parties.as_slice(), rest, line)?;
    Ok(Run {
        header,
        events: Seq::of(events),
    })
}
