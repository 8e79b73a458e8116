//! Posted strings, of which the latest stand in no index yet.

ghost use Rattle.std.specs.Prelude.{◌≡◌, ◌++◌, ◌∷◌, [], ◌≤◌, length, take, OnOk, OnErr};
ghost use Rattle.spec_data.specs.Lists.{is_among};

use bm_hash::Pieces;
use bm_hash_strings::Strings;
use spec_data::OutOfMemory;
use std::alloc::{AllocError, Global};
use std::marker::Model;

/// Posted strings in order. Most are never asked for, so they are put in the index only where they may be: the latest, which aren't in it
/// yet, are gone through one by one.
pub(crate) struct Posts {
    indexed: Strings,
    latest: Pieces,
    count: usize,
}

impl Model for Posts {
    ghost use Rattle.std.specs.Prelude.{◌≡◌, List, ℕ, ◌++◌, length};

    ghost Value = { List (List ℕ) };

    ghost view = { λ p. p.indexed ++ p.latest };

    ghost invariant = { λ p. p.count ≡ length (p.indexed ++ p.latest) };
}

impl Drop for Posts {
    fn drop(self) {
        let Posts {
            indexed: _,
            latest: _,
            count: _,
        } = self;
    }
}

// Whether the string is one of these, each of which is compared with it.
fn is_one_of(strings: &Pieces, string: &[u8]) -> bool
    ensures { result ≡ is_among string.now strings.now }
{
    for number in 0..strings.len() {
        if strings.get(number) == string {
            return true;
        }
    }
    false
}

// Adds these strings. After an error some of them are added.
fn add_all(indexed: &mut Strings, strings: &Pieces) -> Result<(), OutOfMemory>
    ensures ok { OnOk result (indexed.new ≡ indexed.old ++ strings.now) }
    ensures more { length indexed.old ≤ length indexed.new }
    ensures prefix { take (length indexed.old) indexed.new ≡ indexed.old }
{
    for number in 0..strings.len() {
        indexed.add(strings.get(number))?;
    }
    Ok(())
}

// Adds these strings, or none of them.
fn add_all_or_none(indexed: &mut Strings, strings: &Pieces) -> Result<(), OutOfMemory>
    ensures ok { OnOk result (indexed.new ≡ indexed.old ++ strings.now) }
    ensures err { OnErr result (indexed.new ≡ indexed.old) }
{
    let count = indexed.count();
    if let Err(error) = add_all(indexed, strings) {
        indexed.cut(count);
        return Err(error);
    }
    Ok(())
}

// Leaves the first of these strings, this many.
fn cut_to(indexed: &mut Strings, latest: &mut Pieces, count: usize)
    requires { count ≤ length (indexed.old ++ latest.old) }
    ensures { indexed.new ++ latest.new ≡ take count (indexed.old ++ latest.old) }
{
    let before = indexed.count();
    if count < before {
        latest.truncate(0);
        indexed.cut(count);
        return;
    }
    latest.truncate(count - before);
}

impl Posts {
    /// No string; it takes no memory.
    pub(crate) fn new(alloc: Global) -> Posts
        ensures { result ≡ [] }
    {
        Posts {
            indexed: Strings::new(alloc),
            latest: Pieces::new(alloc),
            count: 0,
        }
    }

    /// How many strings there are.
    pub(crate) fn count(&self) -> usize
        ensures { result ≡ length self.now }
    {
        self.count
    }

    /// Whether the string is there.
    pub(crate) fn has(&self, string: &[u8]) -> bool
        ensures { result ≡ is_among string.now self.now }
    {
        self.indexed.has(string) || is_one_of(&self.latest, string)
    }

    /// Adds a string at the end.
    pub(crate) fn add(&mut self, string: &[u8]) -> Result<(), OutOfMemory>
        ensures ok { OnOk result (self.new ≡ self.old ++ string.now ∷ []) }
        ensures err { OnErr result (self.new ≡ self.old) }
    {
        let Some(count) = self.count.checked_add(1) else {
            return Err(AllocError);
        };
        self.latest.push(string)?;
        self.count = count;
        Ok(())
    }

    /// Puts the latest strings in the index, where there is memory for it. Nothing changes.
    pub(crate) fn index(&mut self)
        ensures { self.new ≡ self.old }
    {
        if add_all_or_none(&mut self.indexed, &self.latest).is_ok() {
            self.latest.truncate(0);
        }
    }

    /// Leaves the first `count` strings; it takes no memory.
    pub(crate) fn cut(&mut self, count: usize)
        requires { count ≤ length self.old }
        ensures { self.new ≡ take count self.old }
    {
        cut_to(&mut self.indexed, &mut self.latest, count);
        self.count = count;
    }
}
