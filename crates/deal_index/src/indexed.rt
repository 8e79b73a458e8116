//! Items in order, each found by a byte string.

ghost use Rattle.std.specs.Prelude.{List, ℕ, Bool, true, ◌≡◌, ◌++◌, ◌∷◌, [], length, map, slice_get, Option, OnOk, OnErr};
ghost use Rattle.std.specs.List.{find, list_all};
ghost use Rattle.std.specs.Option.{option_map};
ghost use Rattle.std.specs.Str.{bytes_eq};
ghost use Rattle.spec_data.specs.Lists.{are_different};
ghost use Rattle.bm_hash_strings.specs.Placed.{first_place};

use bm_hash_strings::Strings;
use spec_data::{OutOfMemory, Seq};
use std::alloc::Global;
use std::cell::Cell;
use std::marker::Model;

/// What is found by a byte string.
pub trait Keyed {
    // the string that an item is found by
    ghost key_of: { Self → List ℕ };

    // whether its numbers are within the bounds of their types, so that the string tells them apart
    ghost is_sized: { Self → Bool };
}

/// Items in order. The first of each key is found in the time of a few comparisons, however the keys are chosen; in the time of one, where
/// keys that all differ are looked up in their order.
pub struct Indexed<T: Keyed> {
    items: Seq<T>,
    keys: Strings,
    // whether the keys all differ
    are_apart: bool,
    // the place behind the one found last, where the next key is looked for first
    next: Cell<usize>,
}

impl<T: Keyed> Model for Indexed<T> {
    ghost use Rattle.std.specs.Prelude.{◌≡◌, List, map, true};
    ghost use Rattle.std.specs.List.{list_all};
    ghost use Rattle.spec_data.specs.Lists.{are_different};

    ghost Value = { List T };

    ghost view = { λ x. x.items };

    ghost invariant = { λ x. (x.are_apart ≡ are_different x.keys) × (x.keys ≡ map T.key_of x.items) × (list_all T.is_sized x.items ≡ true) };
}

impl<T: Keyed + Drop> Drop for Indexed<T> {
    fn drop(self) {
        let Indexed {
            items: _,
            keys: _,
            are_apart: _,
            next: _,
        } = self;
    }
}

// Adds a key at the end, and keeps whether all of them differ.
fn add_key(keys: &mut Strings, are_apart: &mut bool, key: &[u8]) -> Result<(), OutOfMemory>
    requires apart { are_apart.old ≡ are_different keys.old }
    ensures ok { OnOk result (keys.new ≡ keys.old ++ key.now ∷ []) }
    ensures err { OnErr result (keys.new ≡ keys.old) }
    ensures apart { are_apart.new ≡ are_different keys.new }
{
    let is_new = keys.add_telling(key)?;
    *are_apart = *are_apart && is_new;
    Ok(())
}

// The place of the first key that is this one. It is first looked for where the next key is.
fn find_place(keys: &Strings, are_apart: bool, next: &Cell<usize>, key: &[u8]) -> Option<usize>
    requires apart { are_apart ≡ are_different keys.now }
    ensures { result ≡ first_place keys.now key.now }
{
    let place = next.get();
    if are_apart && keys.stands_at(place, key) {
        next.set(place.wrapping_add(1));
        return Some(place);
    }
    let found = keys.place(key);
    if let Some(place) = found {
        next.set(place.wrapping_add(1));
    }
    found
}

// The item at a place.
fn item_at<T>(items: &[T], place: usize) -> Option<&T>
    ensures { option_map (λ x. x.now) result ≡ slice_get items.now place }
{
    items.get(place)
}

impl<T: Keyed + Drop> Indexed<T> {
    /// No item; it takes no memory.
    pub fn new(alloc: Global) -> Indexed<T>
        ensures { result ≡ [] }
    {
        Indexed {
            items: Seq::new(alloc),
            keys: Strings::new(alloc),
            are_apart: true,
            next: Cell::new(0),
        }
    }

    /// The items in order.
    pub fn as_slice(&self) -> &[T]
        ensures { result.now ≡ self.now }
    {
        self.items.as_slice()
    }

    /// How many items there are.
    pub fn len(&self) -> usize
        ensures { result ≡ length self.now }
    {
        self.items.len()
    }

    /// Adds an item at the end, which is found by this key.
    pub fn push(&mut self, item: T, key: Vec<u8>) -> Result<(), OutOfMemory>
        requires key { key.items ≡ T.key_of item }
        requires sized { T.is_sized item ≡ true }
        ensures ok { OnOk result (self.new ≡ self.old ++ item ∷ []) }
        ensures err { OnErr result (self.new ≡ self.old) }
    {
        let place = self.items.len();
        self.items.push(item)?;
        match add_key(&mut self.keys, &mut self.are_apart, &key) {
            Ok(()) => Ok(()),
            Err(error) => {
                self.items.truncate(place);
                Err(error)
            }
        }
    }

    /// The first item of a key.
    pub fn find(&self, key: &[u8]) -> Option<&T>
        ensures found { option_map (λ x. x.now) result ≡ find (λ x. bytes_eq (T.key_of x) key.now) self.now }
        ensures sized { list_all T.is_sized self.now ≡ true }
    {
        match find_place(&self.keys, self.are_apart, &self.next, key) {
            Some(place) => item_at(self.items.as_slice(), place),
            None => None,
        }
    }
}
