//! Files in memory.

ghost use Rattle.std.specs.Prelude.{◌≡◌, ◌≤◌, ℕ, [], ◌∷◌, ◌++◌, IfOk, OnOk, OnErr, Some, None, Ok, length};
ghost use Rattle.std.specs.Option.{option_copied};
ghost use Rattle.spec_data.specs.Lists.{look_up};
ghost use Rattle.bm_io.specs.Files.{Reads, CausesTooLong, Causes, IsUnlessMemory, shown, within, answer_of, no_files, with_file};
ghost use Rattle.bm_io.specs.Files.{after_read, after_search, taken_after};
ghost use Rattle.bm_io.specs.Logs.{reply_of};

use crate::files::{Files, ReadError};
use crate::read_log::{NewReply, ReadLog};
use spec_data::{Bytes, OutOfMemory};
use std::alloc::Global;
use std::marker::Model;

/// Files in memory, which tell all of themselves.
#[derive(Drop)]
pub struct MemFiles {
    alloc: Global,
    files: Vec<(Bytes, Bytes)>,
    asked: Vec<Bytes>,
    failing: Option<u64>,
    faults: u64,
    taken: u64,
    log: ReadLog,
}

impl Model for MemFiles {
    ghost use Rattle.bm_io.specs.Files.{FilesInMemory};

    ghost Value = { FilesInMemory };

    ghost view = { λ f. record { told = record { files = f.files.items; asked = f.asked.items; failing = f.failing }; faults = f.faults; taken = f.taken; log = f.log.replies } };
}

impl MemFiles {
    /// No files.
    pub fn new(alloc: Global) -> MemFiles
        ensures { result ≡ no_files }
    {
        MemFiles {
            alloc,
            files: Vec::new(alloc),
            asked: Vec::new(alloc),
            failing: None,
            faults: 0,
            taken: 0,
            log: ReadLog::new(),
        }
    }

    /// The read of this number fails, counted from 0.
    pub fn fail_call(&mut self, number: u64)
        ensures { self.new ≡ record self.old { told = record self.old.told { failing = Some number } } }
    {
        self.failing = Some(number);
    }

    /// Adds a file, or gives it new bytes.
    pub fn add(&mut self, name: &str, bytes: &[u8]) -> Result<(), OutOfMemory>
        ensures ok { OnOk result (self.new
            ≡ record self.old { told = record self.old.told { files = with_file name.now bytes.now self.old.told.files } }) }
        ensures err { OnErr result (self.new ≡ self.old) }
    {
        let bytes = Bytes::from_slice(self.alloc, bytes)?;
        put_file(self.alloc, &mut self.files, name.as_bytes(), bytes)
    }
}

/// Puts the bytes under their name.
fn put_file(
    alloc: Global,
    files: &mut Vec<(Bytes, Bytes)>,
    name: &[u8],
    bytes: Bytes,
) -> Result<(), OutOfMemory>
    ensures ok { OnOk result (files.new.items ≡ with_file name.now bytes files.old.items) }
    ensures err { OnErr result (files.new.items ≡ files.old.items) }
{
    let mut place = 0;
    while place < files.len() {
        if files[place].0.as_slice() == name {
            files[place].1 = bytes;
            return Ok(());
        }
        place += 1;
    }
    files.push((Bytes::from_slice(alloc, name)?, bytes))?;
    Ok(())
}

/// The bytes of the file of this name.
fn file_of<'a>(files: &'a [(Bytes, Bytes)], name: &[u8]) -> Option<&'a [u8]>
    ensures { option_copied result ≡ look_up name.now files.now }
{
    for file in files {
        if file.0.as_slice() == name {
            return Some(file.1.as_slice());
        }
    }
    None
}

/// A copy of the bytes, if they are no more than the limit.
fn copied(alloc: Global, bytes: &[u8], limit: usize) -> Result<Vec<u8>, ReadError>
    ensures { IsUnlessMemory (shown (λ v. v.items) result) (within limit bytes.now) }
{
    if bytes.len() > limit {
        return Err(ReadError::TooLong);
    }
    match Vec::from_slice(alloc, bytes) {
        Ok(bytes) => Ok(bytes),
        Err(_) => Err(ReadError::Memory),
    }
}

/// Counts the bytes that a read took which answers this.
fn count(taken: &mut u64, limit: usize, found: &Result<Vec<u8>, ReadError>)
    ensures after { taken.new ≡ taken_after taken.old limit (shown (λ v. v.items) found.now) }
    ensures later { taken.old ≤ taken.new }
    ensures too_long { CausesTooLong taken.old taken.new limit found.now }
{
    match found {
        Ok(bytes) => *taken = taken.saturating_add(bytes.len() as u64),
        Err(ReadError::TooLong) => *taken = taken.saturating_add(limit as u64).saturating_add(1),
        Err(ReadError::Failed) | Err(ReadError::Memory) => {}
    }
}

impl MemFiles {
    /// What a read answers. It leaves the count of bytes taken and the log as they were.
    fn search(&mut self, alloc: Global, name: &str, limit: usize) -> Result<Vec<u8>, ReadError>
        ensures few { IfOk result (λ v. length v.items ≤ limit) }
        ensures reads { Reads (Some self.old.told) (Some self.new.told) name.now limit (shown (λ v. v.items) result) }
        ensures cause { Causes self.old.faults self.new.faults result }
        ensures after { self.new ≡ after_search self.old name.now result }
    {
        let Ok(asked) = Bytes::from_slice(self.alloc, name.as_bytes()) else {
            return Err(ReadError::Memory);
        };
        let number = self.asked.len() as u64;
        let found = if self.failing == Some(number) {
            Err(ReadError::Failed)
        } else {
            match file_of(self.files.as_slice(), name.as_bytes()) {
                None => Err(ReadError::Failed),
                Some(bytes) => copied(alloc, bytes, limit),
            }
        };
        if found == Err(ReadError::Memory) {
            return found;
        }
        if self.asked.push(asked).is_err() {
            return Err(ReadError::Memory);
        }
        if found == Err(ReadError::Failed) {
            self.faults = self.faults.saturating_add(1);
        }
        found
    }
}

impl Files for MemFiles {
    ghost told = { λ s. Some s.told };

    ghost log = { λ s. s.log };

    ghost faults = { λ s. s.faults };

    ghost taken = { λ s. s.taken };

    fn read(&mut self, alloc: Global, name: &str, limit: usize) -> Result<Vec<u8>, ReadError>
        ensures few { IfOk result (λ v. length v.items ≤ limit) }
        ensures cause { Causes self.old.faults self.new.faults result }
        ensures taken { self.old.taken ≤ self.new.taken }
        ensures too_long { CausesTooLong self.old.taken self.new.taken limit result }
        ensures logged { self.new.log ≡ self.old.log ++ reply_of name.now limit (shown (λ v. v.items) result) ∷ [] }
        ensures reads { Reads (Some self.old.told) (Some self.new.told) name.now limit (shown (λ v. v.items) result) }
        ensures after { self.new ≡ after_read self.old name.now limit (shown (λ v. v.items) result) }
    {
        let found = self.search(alloc, name, limit);
        count(&mut self.taken, limit, &found);
        self.log = self.log.and(&NewReply::of(name, limit, &found));
        found
    }
}
