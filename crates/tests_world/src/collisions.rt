//! Runs that are halted by two messages with one digest, or by a secret that somebody gives away.

use crate::worlds::{Played, played};
use bm_hash::{Hash32, Toy, Twin};
use bm_world::Halt;
use spec_data::{Bytes, OutOfMemory};
use std::alloc::Global;

// Whether these two messages collided, the earlier one first.
fn are_these(earlier: &Bytes, later: &Bytes, first: &[u8], second: &[u8]) -> bool {
    earlier.as_slice() == first && later.as_slice() == second
}

// Whether a run by the sum of bytes doesn't open, for these messages.
fn collides_at_first(alloc: Global, run: &[u8], first: &[u8], second: &[u8]) -> bool {
    match played(alloc, Toy, run, &[]) {
        Some(Err(Halt::Collided(earlier, later))) => are_these(&earlier, &later, first, second),
        _ => false,
    }
}

// The transaction of no outputs that opens a run without deposits.
const NOTHING: [u8; 10] = [2, 0, 0, 0, 0, 0, 0, 0, 0, 0];

// The sum of its bytes.
const SUM: [u8; 32] = [
    2, 0, 0, 0, 0, 0, 0, 0, 0, 0, 0, 0, 0, 0, 0, 0, 0, 0, 0, 0, 0, 0, 0, 0, 0, 0, 0, 0, 0, 0, 0, 0,
];

#[test]
fn strings_of_an_opening_collide(rt: HostRuntime) {
    let alloc = rt.alloc();
    assert!(rt; collides_at_first(alloc, b"party AB\nparty BA\n--\n", b"D:AB", b"D:BA"));
    assert!(rt; collides_at_first(alloc, b"party A\n--\n", &NOTHING, &SUM));
}

// Whether it is a collision of the byte 01 with this message, where there is to be one, and else a guess.
fn is_stop(halt: &Halt, message: &[u8], collides: bool) -> bool {
    match halt {
        Halt::Collided(earlier, later) => collides && are_these(earlier, later, &[1], message),
        Halt::Guessed { .. } => !collides,
        Halt::Memory => false,
    }
}

// Whether the event of the needed number is stopped so, or none.
fn is_stopped(
    stop: &Option<(usize, Halt)>,
    message: &[u8],
    required: Option<(usize, bool)>,
) -> bool {
    match (stop, required) {
        (None, None) => true,
        (Some((number, halt)), Some((place, collides))) => {
            *number == place && is_stop(halt, message, collides)
        }
        _ => false,
    }
}

// The same of a run that opened.
fn is_stopped_run<H: Hash32 + Drop>(
    played: &Played<H>,
    message: &[u8],
    required: Option<(usize, bool)>,
) -> bool {
    match played {
        Ok((_, stop)) => is_stopped(stop, message, required),
        Err(_) => false,
    }
}

// A hash by which the byte 01 and this message have one digest.
fn twin(alloc: Global, message: &[u8]) -> Result<Twin, OutOfMemory> {
    Ok(Twin {
        first: Bytes::from_slice(alloc, &[1])?,
        second: Bytes::from_slice(alloc, message)?,
    })
}

// Whether a run by that hash is stopped so.
fn stops(alloc: Global, message: &[u8], run: &[u8], required: Option<(usize, bool)>) -> bool {
    let Ok(hash) = twin(alloc, message) else {
        return false;
    };
    match played(alloc, hash, run, &[]) {
        Some(played) => is_stopped_run(&played, message, required),
        None => false,
    }
}

// A secret of sixteen bytes 03.
const SECRET: [u8; 16] = [3; 16];

// Both twins are posted; the second alone; both, and the second one is A's secret; that alone.
const BOTH: &[u8] = b"party A\n--\npost 01\npost 02\n";

const ALONE: &[u8] = b"party A\n--\npost 02\n";

const SECRET_LAST: &[u8] =
    b"party A\nhonest A\nsecret A a 03030303030303030303030303030303\n--\npost 01\npost 03030303030303030303030303030303\n";

const SECRET_ALONE: &[u8] =
    b"party A\nhonest A\nsecret A a 03030303030303030303030303030303\n--\npost 03030303030303030303030303030303\n";

#[test]
fn a_collision_comes_before_a_guess(rt: HostRuntime) {
    let alloc = rt.alloc();
    assert!(rt; stops(alloc, &[2], BOTH, Some((1, true))));
    assert!(rt; stops(alloc, &[2], ALONE, None));
    assert!(rt; stops(alloc, &SECRET, SECRET_LAST, Some((1, true))));
    assert!(rt; stops(alloc, &SECRET, SECRET_ALONE, Some((0, false))));
}
