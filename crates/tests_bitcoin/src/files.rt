//! Files and sinks, in memory and of the system.

use bm_io::{Files, MemFiles, MemSink, ReadError, Sink, StdFiles, StdSink, WriteFault};
use std::test::Fail;
use std::{fs, io};

#[test]
fn memory_is_read_and_written(rt: HostRuntime) -> Result<(), Fail> {
    let mut files = MemFiles::new(rt.alloc());
    files.add("first", b"some bytes")?;
    assert!(rt; files.read(rt.alloc(), "first", 10).is_ok());
    let mut out = MemSink::new(rt.alloc(), 8, None)?;
    assert!(rt; out.write_all(b"a piece\n").is_ok());
    Ok(())
}

#[test]
fn files_are_read(rt: HostRuntime) -> Result<(), Fail> {
    fs::write(&rt, "tests_bitcoin.txt", "some bytes")?;
    let mut files = StdFiles::new(&rt);
    let read = files.read(rt.alloc(), "tests_bitcoin.txt", 10)?;
    assert!(rt; read.as_slice() == b"some bytes".as_slice());
    let rows = [
        ("tests_bitcoin.txt", ReadError::TooLong),
        ("tests_bitcoin.none", ReadError::Failed),
    ];
    for (name, error) in rows {
        assert!(rt; files.read(rt.alloc(), name, 9) == Err(error), "{name}");
    }
    Ok(())
}

#[test]
fn sinks_are_written(rt: HostRuntime) -> Result<(), Fail> {
    let mut out = StdSink::new(io::writer(&rt));
    assert!(rt; out.write_all(b"a piece\n") == Ok(()));
    let mut room = [0; 3];
    let mut out = StdSink::new(room.as_mut_slice());
    assert!(rt; out.write_all(b"one") == Ok(()));
    assert!(rt; out.write_all(b"two") == Err(WriteFault));
    Ok(())
}
