//! Byte strings one after another in one buffer.

ghost use Rattle.std.specs.Prelude.{◌≡◌, ◌<◌, ◌≤◌, ◌++◌, ◌∷◌, [], OnOk, OnErr, length, slice_index_or, slice_range, take};
ghost use Rattle.bm_hash.specs.Pieces.{start_at};

use spec_data::OutOfMemory;
use std::alloc::Global;
use std::marker::Model;

/// Byte strings one after another in one buffer, with the end of each. A million strings so take two allocations and not a million.
pub struct Pieces {
    bytes: Vec<u8>,
    ends: Vec<usize>,
}

impl Model for Pieces {
    ghost use Rattle.std.specs.Prelude.{List, ℕ, length};
    ghost use Rattle.bm_hash.specs.Pieces.{pieces_from, AreEnds};

    ghost Value = { List (List ℕ) };

    ghost view = { λ p. pieces_from 0 p.bytes.items p.ends.items };

    ghost invariant = { λ p. AreEnds 0 p.ends.items (length p.bytes.items) };
}

impl Drop for Pieces {
    fn drop(self) {
        let Pieces { bytes: _, ends: _ } = self;
    }
}

// Where the string of this number begins: where the one before it ends.
fn start_of(ends: &[usize], number: usize) -> usize
    requires { number ≤ length ends.now }
    ensures { result ≡ start_at 0 ends.now number }
{
    match number.checked_sub(1) {
        Some(before) => ends[before],
        None => 0,
    }
}

// The part of some bytes from one place to another.
fn part_of(bytes: &[u8], start: usize, end: usize) -> &[u8]
    requires low { start ≤ end }
    requires high { end ≤ length bytes.now }
    ensures { result.now ≡ slice_range bytes.now start end }
{
    &bytes[start..end]
}

impl Pieces {
    /// No string; it takes no memory.
    pub fn new(alloc: Global) -> Pieces
        ensures { result ≡ [] }
    {
        Pieces {
            bytes: Vec::new(alloc),
            ends: Vec::new(alloc),
        }
    }

    /// How many strings there are.
    pub fn len(&self) -> usize
        ensures { result ≡ length self.now }
    {
        self.ends.len()
    }

    /// The string of this number, counted from 0.
    pub fn get(&self, number: usize) -> &[u8]
        requires { number < length self.now }
        ensures { result.now ≡ slice_index_or self.now number [] }
    {
        let start = start_of(&self.ends, number);
        part_of(&self.bytes, start, self.ends[number])
    }

    /// Adds a string at the end.
    pub fn push(&mut self, string: &[u8]) -> Result<(), OutOfMemory>
        ensures ok { OnOk result (self.new ≡ self.old ++ string.now ∷ []) }
        ensures err { OnErr result (self.new ≡ self.old) }
    {
        self.ends.reserve(1)?;
        self.bytes.extend_from_slice(string)?;
        self.ends.push_reserved(self.bytes.len());
        Ok(())
    }

    /// Takes room for strings of so many bytes, where there is memory for it. Nothing changes.
    pub fn expect(&mut self, bytes: usize)
        ensures { self.new ≡ self.old }
    {
        let _ = self.bytes.reserve(bytes);
    }

    /// Leaves the first strings, this many.
    pub fn truncate(&mut self, count: usize)
        requires { count ≤ length self.old }
        ensures { self.new ≡ take count self.old }
    {
        let end = start_of(&self.ends, count);
        self.bytes.truncate(end);
        self.ends.truncate(count);
    }
}
