//! Files of the system.

ghost use Rattle.std.specs.Prelude.{◌≡◌, ◌≤◌, ◌+◌, None, IfOk, IfErr, length, Err};
ghost use Rattle.bm_io.specs.Counts.{RoseBy};
ghost use Rattle.bm_io.specs.Files.{unread};

use crate::files::{Files, ReadError};
use crate::read_log::{NewReply, ReadLog};
use std::alloc::Global;
use std::fs;
use std::io::Read;
use std::marker::Model;

/// Files of the system, which tell nothing of their content. What each read answered stands in the log.
#[derive(Drop)]
pub struct StdFiles<R> {
    rt: R,
    faults: u64,
    taken: u64,
    log: ReadLog,
}

impl<R> Model for StdFiles<R> {
    ghost use Rattle.bm_io.specs.Files.{FilesOfSystem};

    ghost Value = { FilesOfSystem };

    ghost view = { λ f. record { faults = f.faults; taken = f.taken; log = f.log.replies } };
}

impl<R: std::rt::Files> StdFiles<R> {
    /// The files of this system, of which nothing was read yet.
    pub fn new(rt: R) -> StdFiles<R>
        ensures { result ≡ unread }
    {
        StdFiles {
            rt,
            faults: 0,
            taken: 0,
            log: ReadLog::new(),
        }
    }
}

/// The bytes that most files have at most.
const MOST_OFTEN: usize = 1_048_576;

// A list without the room that it doesn't need.
fn fitting(alloc: Global, bytes: Vec<u8>) -> Result<Vec<u8>, ReadError>
    ensures fits { IfOk result (λ v. v.items ≡ bytes.items) }
    ensures memory { IfErr result (λ e. e ≡ ReadError.Memory) }
{
    if bytes.len() >= MOST_OFTEN / 2 {
        return Ok(bytes);
    }
    match Vec::from_slice(alloc, &bytes) {
        Ok(few) => Ok(few),
        Err(_) => Err(ReadError::Memory),
    }
}

/// The bytes of a reader, at most `limit` of them. Counts the bytes taken, which are at most one
/// more than the limit.
fn take_all<T: Read>(
    alloc: Global,
    reader: &mut T,
    limit: usize,
    taken: &mut u64,
) -> Result<Vec<u8>, ReadError>
    ensures few { IfOk result (λ v. length v.items ≤ limit) }
    ensures later { taken.old ≤ taken.new }
    ensures too_long { result ≡ Err ReadError.TooLong → RoseBy (limit + 1) taken.old taken.new }
{
    let Ok(mut bytes) = Vec::with_capacity(alloc, limit.min(MOST_OFTEN)) else {
        return Err(ReadError::Memory);
    };
    let mut buf = [0u8; 4096];
    for _turn in 0..limit as u128 + 2 {
        let room = (limit - bytes.len()).min(4095) + 1;
        let count = match reader.read(&mut buf[..room]) {
            Ok(count) => count,
            Err(_) => return Err(ReadError::Failed),
        };
        if count == 0 {
            return fitting(alloc, bytes);
        }
        *taken = taken.saturating_add(count as u64);
        if count > limit - bytes.len() {
            return Err(ReadError::TooLong);
        }
        if bytes.extend_from_slice(&buf[..count]).is_err() {
            return Err(ReadError::Memory);
        }
    }
    unreachable!()
}

impl<R: std::rt::Files> Files for StdFiles<R> {
    ghost told = { λ _. None };

    ghost log = { λ s. s.log };

    ghost faults = { λ s. s.faults };

    ghost taken = { λ s. s.taken };

    fn read(&mut self, alloc: Global, name: &str, limit: usize) -> Result<Vec<u8>, ReadError> {
        let found = match fs::open(&self.rt, name) {
            Ok(mut file) => take_all(alloc, &mut file, limit, &mut self.taken),
            Err(_) => Err(ReadError::Failed),
        };
        if found == Err(ReadError::Failed) {
            self.faults = self.faults.saturating_add(1);
        }
        self.log = self.log.and(&NewReply::of(name, limit, &found));
        found
    }
}
