//! Strings that are shown.

ghost use Rattle.std.specs.Prelude.{◌≡◌, ℕ, List, ◌++◌, ◌∷◌, [], ◌==◌, length, map, option_map, IfSome, OnOk};
ghost use Rattle.spec_data.specs.Lists.{is_among};
ghost use Rattle.bm_translate.specs.Shown.{behind, is_one_of};

use bm_exchange::{Strings, are_same};
use spec_data::{Bytes, OutOfMemory};
use std::alloc::Global;
use std::marker::Model;

/// What shows strings.
pub(crate) trait Shows {
    // the strings
    ghost strings: { Self → List (List ℕ) };

    /// Whether the string is there, and is shown.
    fn shows(&self, string: &Option<Bytes>) -> bool
        ensures { result ≡ is_one_of (strings self.now) string.now };
}

/// One string alone.
#[derive(Clone, Copy)]
pub(crate) struct Only<'a> {
    pub(crate) string: &'a [u8],
}

impl<'a> Shows for Only<'a> {
    ghost strings = { λ o. o.string.now ∷ [] };

    fn shows(&self, string: &Option<Bytes>) -> bool {
        match string {
            Some(string) => are_same(self.string, string.as_slice()),
            None => false,
        }
    }
}

impl<'a> Shows for Shown<'a> {
    ghost strings = { λ s. s };

    fn shows(&self, string: &Option<Bytes>) -> bool {
        match string {
            Some(string) => self.has(string.as_slice()),
            None => false,
        }
    }
}

// So many strings are compared one by one.
const FEW: usize = 16;

/// Strings in order, mostly few or none. The first of them are lent, and are compared one by one; those behind are copied into an
/// index, so that no look-up goes through many. No strings take no memory.
pub struct Shown<'a> {
    alloc: Global,
    few: Vec<&'a [u8]>,
    more: Option<Box<Strings>>,
}

impl<'a> Model for Shown<'a> {
    ghost use Rattle.std.specs.Prelude.{List, ℕ, ◌++◌, map, option_map};
    ghost use Rattle.bm_translate.specs.Shown.{behind};

    ghost Value = { List (List ℕ) };

    ghost view = { λ s. map (λ b. b.now) s.few.items ++ behind (option_map (λ b. b.value) s.more) };
}

impl<'a> Drop for Shown<'a> {
    fn drop(self) {
        let Shown {
            alloc: _,
            few: _,
            more: _,
        } = self;
    }
}

// Adds a string to those that are lent.
fn add_lent<'a>(few: &mut Vec<&'a [u8]>, string: &'a [u8]) -> Result<(), OutOfMemory>
    ensures { OnOk result (map (λ b. b.now) few.new.items ≡ map (λ b. b.now) few.old.items ++ string.now ∷ []) }
{
    few.push(string)?;
    Ok(())
}

// Adds a string to those of an index, which is made for the first.
fn add_copied(
    alloc: Global,
    more: &mut Option<Box<Strings>>,
    string: &[u8],
) -> Result<(), OutOfMemory>
    ensures { OnOk result (behind (option_map (λ b. b.value) more.new) ≡ behind (option_map (λ b. b.value) more.old) ++ string.now ∷ []) }
{
    match more {
        Some(strings) => strings.add(string),
        None => {
            let mut strings = Strings::new(alloc);
            strings.add(string)?;
            *more = Some(Box::new(alloc, strings)?);
            Ok(())
        }
    }
}

// Whether the string is one of a few.
fn is_lent(few: &[&[u8]], string: &[u8]) -> bool
    ensures { result ≡ is_among string.now (map (λ b. b.now) few.now) }
{
    for one in few {
        if are_same(one, string) {
            return true;
        }
    }
    false
}

// Whether the string is in the index, where there is one.
fn is_copied(more: &Option<Box<Strings>>, string: &[u8]) -> bool
    ensures { result ≡ is_among string.now (behind (option_map (λ b. b.value) more.now)) }
{
    match more {
        Some(strings) => strings.has(string),
        None => false,
    }
}

// How many strings the index has, where there is one.
fn copied_count(more: &Option<Box<Strings>>) -> usize
    ensures { result ≡ length (behind (option_map (λ b. b.value) more.now)) }
{
    match more {
        Some(strings) => strings.count(),
        None => 0,
    }
}

impl<'a> Shown<'a> {
    /// No string.
    pub fn new(alloc: Global) -> Shown<'a>
        ensures { result ≡ [] }
    {
        Shown {
            alloc,
            few: Vec::new(alloc),
            more: None,
        }
    }

    /// Adds a string at the end.
    pub fn add(&mut self, string: &'a [u8]) -> Result<(), OutOfMemory>
        ensures { OnOk result (self.new ≡ self.old ++ string.now ∷ []) }
    {
        if self.few.len() < FEW && self.more.is_none() {
            add_lent(&mut self.few, string)
        } else {
            add_copied(self.alloc, &mut self.more, string)
        }
    }

    /// Whether there is no string.
    pub fn is_empty(&self) -> bool
        ensures { result ≡ (length self.now == 0) }
    {
        self.few.is_empty() && copied_count(&self.more) == 0
    }

    /// The string, where there is one alone.
    pub(crate) fn only(&self) -> Option<Only<'a>>
        ensures { IfSome result (λ o. self.now ≡ o.string.now ∷ []) }
    {
        match self.few.as_slice() {
            [string] if self.more.is_none() => Some(Only { string }),
            _ => None,
        }
    }

    /// Whether the string is there.
    #[tactic(auto, using(crate::proofs::Known::among_both))]
    pub fn has(&self, string: &[u8]) -> bool
        ensures { result ≡ is_among string.now self.now }
    {
        is_lent(&self.few, string) || is_copied(&self.more, string)
    }
}
