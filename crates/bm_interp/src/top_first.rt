//! A stack, seen from its top.

ghost use Rattle.std.specs.Prelude.{◌≡◌, ◌∷◌, [], length, IfOk, OnOk, OnErr, IfSome, IfNone, Some, slice_get, List, ℕ};
ghost use Rattle.bm_interp.specs.Resuming.{all_hold};
ghost use Rattle.std.specs.List.{list_all};
ghost use Rattle.std.specs.Option.{option_copied};

use spec_data::OutOfMemory;
use std::alloc::Global;
use std::marker::Model;

/// A stack.
pub struct Stack<T> {
    items: Vec<T>,
}

impl<T> Model for Stack<T> {
    ghost use Rattle.std.specs.Prelude.{List, reverse};

    ghost Value = { List T };

    ghost view = { λ s. reverse s.items.items };
}

impl<T: Drop> Drop for Stack<T> {
    fn drop(self) {
        let Stack { items: _ } = self;
    }
}

impl<T: Drop> Stack<T> {
    /// A stack without an item.
    pub fn new(alloc: Global) -> Stack<T>
        ensures { result ≡ [] }
    {
        Stack {
            items: Vec::new(alloc),
        }
    }

    /// How many items there are.
    pub fn len(&self) -> usize
        ensures { result ≡ length self.now }
    {
        self.items.len()
    }

    /// Lays the item on top.
    pub fn push(&mut self, item: T) -> Result<(), OutOfMemory>
        ensures ok { OnOk result (self.new ≡ item ∷ self.old) }
        ensures err { OnErr result (self.new ≡ self.old) }
    {
        self.items.push(item)?;
        Ok(())
    }

    /// Takes the top item off, where there is one.
    pub fn pop(&mut self) -> Option<T>
        ensures some { IfSome result (λ item. self.old ≡ item ∷ self.new) }
        ensures none { IfNone result (self.old ≡ []) }
        ensures none_left { IfNone result (self.new ≡ []) }
    {
        self.items.pop()
    }

    /// The item this many places under the top.
    pub fn get(&self, place: usize) -> Option<&T>
        ensures { option_copied result ≡ slice_get self.now place }
    {
        let len = self.items.len();
        if place < len {
            return Some(&self.items[len - 1 - place]);
        }
        None
    }
}

impl Stack<bool> {
    /// Whether all hold.
    pub fn all_hold(&self) -> bool
        ensures { result ≡ all_hold self.now }
    {
        all_true(self.items.as_slice())
    }
}

fn all_true(flags: &[bool]) -> bool
    ensures { result ≡ list_all (λ c. c) flags.now }
{
    flags.iter().all(|c| *c)
}
