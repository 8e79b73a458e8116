//! A list, as contracts see it.

ghost use Rattle.std.specs.Prelude.{◌≡◌, ℕ, ◌<◌, ◌≤◌, ◌↔◌, List, ◌∷◌, [], ◌++◌, length, take, IsTrue, IfOk, OnOk, OnErr};

use std::alloc::{AllocError, Global};
use std::marker::Model;

/// A vector that contracts see as the list of its elements.
pub struct Seq<T> {
    held: Vec<T>,
}

impl<T> Model for Seq<T> {
    ghost use Rattle.std.specs.Prelude.{List};

    ghost Value = { List T };

    ghost view = { λ a. a.held.items };
}

impl<T: Drop> Drop for Seq<T> {
    fn drop(self) {
        let Seq { held: _ } = self;
    }
}

impl<T> Seq<T> {
    /// The list of these elements.
    pub fn of(held: Vec<T>) -> Seq<T>
        ensures { result ≡ held.items }
    {
        Seq { held }
    }

    /// A list of nothing; it takes no memory.
    pub fn new(alloc: Global) -> Seq<T>
        ensures { result ≡ [] }
    {
        Seq {
            held: Vec::new(alloc),
        }
    }

    /// A list of nothing, with room for so many elements.
    pub fn with_capacity(alloc: Global, count: usize) -> Result<Seq<T>, AllocError>
        ensures { IfOk result (λ list. list ≡ []) }
    {
        Ok(Seq {
            held: Vec::with_capacity(alloc, count)?,
        })
    }

    /// The elements, taken out of the list.
    pub fn into_vec(self) -> Vec<T>
        ensures { result.items ≡ self }
    {
        let Seq { held } = self;
        held
    }

    /// The elements in order.
    pub fn as_slice(&self) -> &[T]
        ensures { result.now ≡ self.now }
    {
        self.held.as_slice()
    }

    /// Adds an element at the end.
    pub fn push(&mut self, value: T) -> Result<(), AllocError>
    where
        T: Drop,
        ensures ok { OnOk result (self.new ≡ self.old ++ value ∷ []) }
        ensures err { OnErr result (self.new ≡ self.old) }
    {
        self.held.push(value)?;
        Ok(())
    }

    /// The first so many elements; it takes no memory.
    pub fn truncate(&mut self, count: usize)
    where
        T: Drop,
        ensures { self.new ≡ take count self.old }
    {
        self.held.truncate(count);
    }

    /// How many elements there are.
    pub fn len(&self) -> usize
        ensures { result ≡ length self.now }
    {
        self.held.len()
    }

    /// Whether there is no element.
    pub fn is_empty(&self) -> bool
        ensures { IsTrue result ↔ (self.now ≡ []) }
    {
        self.held.is_empty()
    }

    /// A list of the same elements.
    pub fn copy(&self, alloc: Global) -> Result<Seq<T>, AllocError>
    where
        T: Copy + Drop,
        ensures { IfOk result (λ list. list ≡ self.now) }
    {
        Ok(Seq::of(Vec::from_slice(alloc, self.as_slice())?))
    }
}
