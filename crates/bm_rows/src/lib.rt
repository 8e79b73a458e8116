//! Many short lists in one piece of memory, each found by its number. Runs keep steps and spent outputs so.
#![tactic(auto)]

ghost use Rattle.std.specs.Prelude.{◌≡◌, ◌<◌, ◌≤◌, ◌++◌, ◌∷◌, [], IfOk, OnOk, OnErr, length, slice_index_or, slice_range};
ghost use Rattle.bm_rows.specs.Laid.{start_at};

use spec_data::OutOfMemory;
use std::alloc::Global;
use std::marker::Model;

/// Lists that are laid end to end in the room of one, each found by its number: many short lists take no memory of their own.
pub struct Rows<T> {
    cells: Vec<T>,
    // Where each list ends among the cells.
    ends: Vec<usize>,
}

impl<T> Model for Rows<T> {
    ghost use Rattle.std.specs.Prelude.{List, length};
    ghost use Rattle.bm_rows.specs.Laid.{rows_from, AreEnds};

    ghost Value = { List (List T) };

    ghost view = { λ r. rows_from 0 r.cells.items r.ends.items };

    ghost invariant = { λ r. AreEnds 0 r.ends.items (length r.cells.items) };
}

impl<T: Drop> Drop for Rows<T> {
    fn drop(self) {
        let Rows { cells: _, ends: _ } = self;
    }
}

// Where the list of this number begins: where the one before it ends.
fn start_of(ends: &[usize], number: usize) -> usize
    requires { number ≤ length ends.now }
    ensures { result ≡ start_at 0 ends.now number }
{
    match number.checked_sub(1) {
        Some(before) => ends[before],
        None => 0,
    }
}

// The cells from one place to another.
fn part_of<T>(cells: &[T], start: usize, end: usize) -> &[T]
    requires low { start ≤ end }
    requires high { end ≤ length cells.now }
    ensures { result.now ≡ slice_range cells.now start end }
{
    &cells[start..end]
}

impl<T> Rows<T> {
    /// No list; it takes no memory.
    pub fn new(alloc: Global) -> Rows<T>
        ensures { result ≡ [] }
    {
        Rows {
            cells: Vec::new(alloc),
            ends: Vec::new(alloc),
        }
    }

    /// No list, with room for so many of one element each.
    pub fn with_capacity(alloc: Global, lists: usize) -> Result<Rows<T>, OutOfMemory>
    where
        T: Drop,
        ensures { IfOk result (λ rows. rows ≡ []) }
    {
        Ok(Rows {
            cells: Vec::with_capacity(alloc, lists)?,
            ends: Vec::with_capacity(alloc, lists)?,
        })
    }

    /// How many lists there are.
    pub fn len(&self) -> usize
        ensures { result ≡ length self.now }
    {
        self.ends.len()
    }

    /// The list of this number, counted from 0.
    pub fn row(&self, number: usize) -> &[T]
        requires { number < length self.now }
        ensures { result.now ≡ slice_index_or self.now number result.now }
    {
        let start = start_of(&self.ends, number);
        part_of(&self.cells, start, self.ends[number])
    }

    /// Adds a list at the end. Its elements are taken, and it keeps its room.
    pub fn push(&mut self, row: &mut Vec<T>) -> Result<(), OutOfMemory>
        ensures ok { OnOk result (self.new ≡ self.old ++ row.old.items ∷ []) }
        ensures taken { OnOk result (row.new.items ≡ []) }
        ensures err { OnErr result (self.new ≡ self.old) }
    {
        // Room for the end comes first, so that no cells are to be taken back where there is none.
        self.ends.reserve(1)?;
        self.cells.append(row)?;
        self.ends.push_reserved(self.cells.len());
        Ok(())
    }
}
