//! Runs that are halted by two messages with one digest, or by a secret that somebody gives away.

use crate::calls::{files_of, status_of};
use bm_hash::{Hash32, Toy, Twin};
use bm_io::MemSink;
use spec_data::{Bytes, OutOfMemory};
use std::alloc::Global;
use std::test::Fail;

// Whether a run is played to this status and text.
fn plays<H: Hash32 + Drop>(
    alloc: Global,
    hash: H,
    run: &[u8],
    status: u8,
    text: &[u8],
) -> Result<bool, Fail> {
    let mut files = files_of(alloc, &[("run", run)])?;
    let mut out = MemSink::new(alloc, 256, None)?;
    let ended = status_of(alloc, hash, "play run", &mut files, &mut out)?;
    Ok(ended == status && out.written() == text)
}

// By the sum of bytes: what the deposit keys of two parties are made of; a transaction without outputs and its own digest.
#[test]
fn strings_of_an_opening_collide(rt: HostRuntime) -> Result<(), Fail> {
    let cases: [(&[u8], &[u8]); 2] = [
        (b"party AB\nparty BA\n--\n", b"collided 443a4142 443a4241\n"),
        (
            b"party A\n--\n",
            b"collided 02000000000000000000 0200000000000000000000000000000000000000000000000000000000000000\n",
        ),
    ];
    for (run, text) in cases {
        assert!(rt; plays(rt.alloc(), Toy, run, 8, text)?);
    }
    Ok(())
}

// A hash by which the byte 01 and this message have one digest.
fn twin(alloc: Global, message: &[u8]) -> Result<Twin, OutOfMemory> {
    Ok(Twin {
        first: Bytes::from_slice(alloc, &[1])?,
        second: Bytes::from_slice(alloc, message)?,
    })
}

// Whether a run by that hash is played to this status and text.
fn plays_by_twin(
    alloc: Global,
    message: &[u8],
    run: &[u8],
    status: u8,
    text: &[u8],
) -> Result<bool, Fail> {
    let hash = twin(alloc, message)?;
    plays(alloc, hash, run, status, text)
}

// Both twins are posted, and the second alone.
#[test]
fn a_posted_string_collides_with_its_twin(rt: HostRuntime) -> Result<(), Fail> {
    let cases: [(&[u8], u8, &[u8]); 2] = [
        (
            b"party A\n--\npost 01\npost 02\n",
            8,
            b"event 1 post 01\ndone\nevent 2 post 02\ncollided 01 02\n",
        ),
        (
            b"party A\n--\npost 02\n",
            0,
            b"event 1 post 02\ndone\nend\ntip 0\ntime 0\n",
        ),
    ];
    for (run, status, text) in cases {
        assert!(rt;
            plays_by_twin(rt.alloc(), &[2], run, status, text)?,
            "{status}"
        );
    }
    Ok(())
}

const BOTH_POSTED: &[u8] = b"\
party A
honest A
secret A a 03030303030303030303030303030303
--
post 01
post 03030303030303030303030303030303
";

const COLLIDED: &[u8] = b"\
event 1 post 01
done
event 2 post 03030303030303030303030303030303
collided 01 03030303030303030303030303030303
";

const SECRET_POSTED: &[u8] = b"\
party A
honest A
secret A a 03030303030303030303030303030303
--
post 03030303030303030303030303030303
";

const GUESSED: &[u8] = b"\
event 1 post 03030303030303030303030303030303
guessed A a
";

#[test]
fn a_collision_comes_before_a_guess(rt: HostRuntime) -> Result<(), Fail> {
    let cases: [(&[u8], u8, &[u8]); 2] = [(BOTH_POSTED, 8, COLLIDED), (SECRET_POSTED, 7, GUESSED)];
    for (run, status, text) in cases {
        assert!(rt;
            plays_by_twin(rt.alloc(), &[3; 16], run, status, text)?,
            "{status}"
        );
    }
    Ok(())
}
