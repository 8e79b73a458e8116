//! Run files read and print back, the first line that doesn't count is named, and the largest text is read.

use bm_runfile::{RunError, RunLimit, print_event, print_header, read_run};
use spec_data::MOST_RUN_BYTES;
use spec_run::Event;
use std::alloc::{AllocError, Global};
use std::test::Fail;

// Every kind of line.
const LINES: &[u8] =
    b"party A\nparty B\nhonest A\nsecret A a 00ff\ndeposit A 5\ndeposit B 0\n--\nadvertise 0 x=#0 y=#1\ncommit 0 A\ncommit 0 B b=00000000000000000000000000000000000000000000000000000000000000ff\nendorse 0 A\ninit 0 B\nauthorise B #2 1\nreveal 0 A a\nfire init 0\nfire #3 0\npost 0a0b\nsign B B:0:r.1/2:Q 00000000000000000000000000000000000000000000000000000000000000ff\nsign B D:B 00000000000000000000000000000000000000000000000000000000000000ff\ngive A #0 #1 -> B 2 A 3\nappend ff\nmine 4294967295\n";

/// Why a text is no run; nothing if it is one.
fn fault(alloc: Global, text: &[u8]) -> Option<RunError> {
    if text.len() > MOST_RUN_BYTES {
        return None;
    }
    match read_run(alloc, text) {
        Ok(_) => None,
        Err(error) => Some(error),
    }
}

fn put_events(alloc: Global, out: &mut Vec<u8>, events: &[Event]) -> Result<(), RunError> {
    for event in events {
        let line = print_event(alloc, event)?;
        out.extend_from_slice(line.as_slice())?;
        out.push(b'\n')?;
    }
    Ok(())
}

/// What is printed of the run of a text.
fn printed(alloc: Global, text: &[u8]) -> Result<Vec<u8>, RunError> {
    if text.len() > MOST_RUN_BYTES {
        return Err(RunError::Memory);
    }
    let run = read_run(alloc, text)?;
    let mut printed = print_header(alloc, &run.header)?;
    put_events(alloc, &mut printed, run.events.as_slice())?;
    Ok(printed)
}

#[test]
fn every_kind_of_line_prints_back(rt: HostRuntime) -> Result<(), Fail> {
    let again = printed(rt.alloc(), LINES).map_err(|_| "refused")?;
    assert!(rt; again.as_slice() == LINES);
    Ok(())
}

// Texts that are no run, with their first line that doesn't count.
const BAD: [(&[u8], u32); 10] = [
    (b"", 1),
    (b"party A\n", 2),
    (b"party A\r\n\t \n party A\n--", 3),
    (b"party if\n--\n", 1),
    (b"party A\nsecret A a 00\n--\n", 2),
    (b"party A\ndeposit A 2100000000000000\ndeposit A 1\n--\n", 3),
    (b"--\nmine 1\nmine 0\nnothing", 3),
    (b"party A\n--\ngive A -> A 1\n", 3),
    (b"--\nfire init 00\n", 2),
    (
        b"party A\n--\nsign A D:A:B 00000000000000000000000000000000000000000000000000000000000000ff\n",
        3,
    ),
];

#[test]
fn the_first_line_that_does_not_count_is_named(rt: HostRuntime) -> Result<(), Fail> {
    for (text, line) in BAD {
        let fault = fault(rt.alloc(), text);
        assert!(rt; fault == Some(RunError::BadLine(line)), "{line}");
    }
    Ok(())
}

// A line of 830 bytes.
fn put_long_line(text: &mut Vec<u8>) -> Result<(), AllocError> {
    text.extend_from_slice(b"give A")?;
    for _ in 0..60 {
        text.extend_from_slice(b" #12345")?;
    }
    text.extend_from_slice(b" ->")?;
    for _ in 0..40 {
        text.extend_from_slice(b" B 1234567")?;
    }
    text.push(b'\n')?;
    Ok(())
}

// Ten thousand events on lines of 830 bytes, and perhaps one more.
fn largest(alloc: Global, more: &[u8]) -> Result<Vec<u8>, AllocError> {
    let mut text = Vec::from_slice(alloc, b"party A\nparty B\n--\n")?;
    for _ in 0..10_000 {
        put_long_line(&mut text)?;
    }
    text.extend_from_slice(more)?;
    Ok(text)
}

#[test]
fn the_largest_text_is_read(rt: HostRuntime) -> Result<(), Fail> {
    let text = largest(rt.alloc(), b"")?;
    assert!(rt; text.len() == 8_300_019);
    assert!(rt; fault(rt.alloc(), text.as_slice()).is_none());
    Ok(())
}

#[test]
fn one_event_more_is_not_read(rt: HostRuntime) -> Result<(), Fail> {
    let text = largest(rt.alloc(), b"mine 1\n")?;
    let fault = fault(rt.alloc(), text.as_slice());
    assert!(rt; fault == Some(RunError::Limit(RunLimit::Events, 10_004)));
    Ok(())
}
