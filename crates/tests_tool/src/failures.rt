//! Reads and writes that fail.

use crate::calls::{files_of, status_of};
use bm_hash::Sha;
use bm_io::{MemFiles, MemSink};
use std::alloc::Global;
use std::test::Fail;

// A timed commitment: A's secret or the time decides to whom the deposit goes.
const CONTRACT: &[u8] =
    b"{A:! 100000000 @ x | B:! 0 @ y | A: secret a} (reveal a . withdraw A + after 1000 : withdraw B)";

// A reveals its secret, and withdraws the deposit.
const RUN: &[u8] = b"\
party A
party B
honest A
secret A a 00112233445566778899aabbccddeeff
deposit A 100000000
deposit B 0
--
advertise 0 x=#0 y=#1
commit 0 A
commit 0 B
endorse 0 A
endorse 0 B
init 0 A
init 0 B
fire init 0
reveal 0 A a
fire #2 0
fire #3 0
";

// What is written of that run.
const TEXT: &[u8] = b"\
start #0 A 100000000
start #1 B 0
event 1 advertise 0 x=#0 y=#1
done
step advertise 0 x=#0 y=#1
event 2 commit 0 A
done
step commit 0 A a=0
event 3 commit 0 B
done
step commit 0 B
event 4 endorse 0 A
done
event 5 endorse 0 B
done
event 6 init 0 A
done
step authinit 0 A x
event 7 init 0 B
done
step authinit 0 B y
event 8 fire init 0
accepted spends #0 #1 makes #2 100000000 lock 0
step init 0 -> #2
event 9 reveal 0 A a
done
step reveal 0 A a
event 10 fire #2 0
accepted spends #2 makes #3 100000000 lock 0
step putreveal #2 0 -> #3
event 11 fire #3 0
accepted spends #3 makes #4 100000000 lock 0
step withdraw #3 0 -> #4
end
tip 0
live #4 100000000
time 0
deposit #4 A 100000000
secret 0 A a 0 revealed
";

fn commitment(alloc: Global) -> Result<MemFiles, Fail> {
    files_of(alloc, &[("run", RUN), ("contract", CONTRACT)])
}

// Whether the run, played to this sink, ends with this status, and the sink has this text.
fn plays(alloc: Global, out: &mut MemSink, status: u8, text: &[u8]) -> Result<bool, Fail> {
    let mut files = commitment(alloc)?;
    let ended = status_of(alloc, Sha, "play run contract", &mut files, out)?;
    Ok(ended == status && out.written() == text)
}

#[test]
fn a_sink_that_fails_has_a_front_of_the_text(rt: HostRuntime) -> Result<(), Fail> {
    for room in 0..TEXT.len() {
        let mut out = MemSink::new(rt.alloc(), TEXT.len(), Some(room))?;
        assert!(rt; plays(rt.alloc(), &mut out, 4, &TEXT[..room])?, "at {room}");
    }
    Ok(())
}

#[test]
fn a_sink_with_room_for_the_text_has_it(rt: HostRuntime) -> Result<(), Fail> {
    let mut out = MemSink::new(rt.alloc(), TEXT.len(), None)?;
    assert!(rt; plays(rt.alloc(), &mut out, 0, TEXT)?);
    Ok(())
}

// Whether the run, where the read of this number fails, ends with this status and text.
fn plays_but_for(alloc: Global, read: u64, status: u8, text: &[u8]) -> Result<bool, Fail> {
    let mut files = commitment(alloc)?;
    files.fail_call(read);
    let mut out = MemSink::new(alloc, TEXT.len(), None)?;
    let ended = status_of(alloc, Sha, "play run contract", &mut files, &mut out)?;
    Ok(ended == status && out.written() == text)
}

// Two files are read, so no third read fails.
#[test]
fn a_read_that_fails_is_told(rt: HostRuntime) -> Result<(), Fail> {
    let cases: [(u64, u8, &[u8]); 3] = [(0, 3, b""), (1, 3, b""), (2, 0, TEXT)];
    for (read, status, text) in cases {
        assert!(rt; plays_but_for(rt.alloc(), read, status, text)?, "at {read}");
    }
    Ok(())
}

// Whether a call, where the second line of the run is bad, ends with this status and text.
fn tells(alloc: Global, line: &str, status: u8, text: &[u8]) -> Result<bool, Fail> {
    let run = b"party A\nbadline\n--\n";
    let mut files = files_of(alloc, &[("run", run), ("contract", CONTRACT)])?;
    let mut out = MemSink::new(alloc, 64, None)?;
    let ended = status_of(alloc, Sha, line, &mut files, &mut out)?;
    Ok(ended == status && out.written() == text)
}

#[test]
fn a_file_that_is_not_there_comes_before_a_bad_line(rt: HostRuntime) -> Result<(), Fail> {
    let cases: [(&str, u8, &[u8]); 4] = [
        ("play run nothere", 3, b""),
        ("play nothere contract", 3, b""),
        ("check nothere", 3, b""),
        ("play run contract", 6, b"run refused line 2\n"),
    ];
    for (line, status, text) in cases {
        assert!(rt; tells(rt.alloc(), line, status, text)?, "{line}");
    }
    Ok(())
}

// Whether a check of one byte more than a contract may have, with room for so many bytes, ends with this status and text.
fn checks(alloc: Global, room: usize, status: u8, text: &[u8]) -> Result<bool, Fail> {
    let spaces = vec![in alloc; b' '; 1_048_577]?;
    let mut files = files_of(alloc, &[("contract", spaces.as_slice())])?;
    let mut out = MemSink::new(alloc, 64, Some(room))?;
    let ended = status_of(alloc, Sha, "check contract", &mut files, &mut out)?;
    Ok(ended == status && out.written() == text)
}

#[test]
fn a_refusal_that_is_not_written_is_told(rt: HostRuntime) -> Result<(), Fail> {
    let cases: [(usize, u8, &[u8]); 4] = [
        (0, 4, b""),
        (10, 4, b"contract 0"),
        (37, 4, b"contract 0 refused limit Text 1048576"),
        (38, 1, b"contract 0 refused limit Text 1048576\n"),
    ];
    for (room, status, text) in cases {
        assert!(rt; checks(rt.alloc(), room, status, text)?, "at {room}");
    }
    Ok(())
}
