//! The strings that were given to secrets.

ghost use Rattle.std.specs.Prelude.{◌≡◌, ◌≤◌, ◌++◌, ◌∷◌, [], length, map, option_map, true, IfOk, IfSome, OnOk, OnErr};
ghost use Rattle.std.specs.List.{find, list_all};
ghost use Rattle.std.specs.Str.{bytes_eq};
ghost use Rattle.spec_data.specs.Ranges.{most_item_bytes};
ghost use Rattle.spec_deal.specs.SecretFile.{has_length, string_for};
ghost use Rattle.spec_deal.specs.declared.entry.Shown.{Shown as Told};
ghost use Rattle.deal_secrets.specs.Seen.{shown_in, shown_by};

use deal_index::{Indexed, Keyed};
use spec_data::{Bytes, LEAST_SECRET_BYTES, MOST_ITEM_BYTES, Name, OutOfMemory};
use spec_deal::Shown;
use std::alloc::Global;
use std::marker::Model;

/// A string, found by the name of its secret.
pub(crate) struct Entry {
    pub(crate) shown: Shown,
}

impl Drop for Entry {
    fn drop(self) {
        let Entry { shown: _ } = self;
    }
}

impl Keyed for Entry {
    ghost use Rattle.spec_deal.specs.SecretFile.{has_length};

    ghost key_of = { λ entry. entry.shown.name };

    ghost is_sized = { λ entry. has_length entry.shown.bytes };
}

/// The strings that were given, in order, each with the line that gives it. Each has as many bytes as a secret may have, and is
/// found by the name of its secret.
pub struct Strings {
    entries: Indexed<Entry>,
}

impl Model for Strings {
    ghost use Rattle.std.specs.Prelude.{List, map};
    ghost use Rattle.spec_deal.specs.declared.entry.Shown.{Shown as Told};
    ghost use Rattle.deal_secrets.specs.Seen.{shown_in};

    ghost Value = { List Told };

    ghost view = { λ strings. map shown_in strings.entries };
}

impl Drop for Strings {
    fn drop(self) {
        let Strings { entries: _ } = self;
    }
}

// The string that was found.
fn bytes_of(entry: Option<&Entry>) -> Option<&Bytes>
    ensures { option_map (λ b. b.now) result ≡ option_map (λ (x : Told). x.bytes) (option_map shown_in (option_map (λ e. e.now) entry.entry)) }
{
    match entry {
        Some(entry) => Some(&entry.shown.bytes),
        None => None,
    }
}

// The line that gives the string that was found.
fn line_of(entry: Option<&Entry>) -> Option<u32>
    ensures { result ≡ option_map (λ (x : Told). x.line) (option_map shown_in (option_map (λ e. e.now) entry.entry)) }
{
    match entry {
        Some(entry) => Some(entry.shown.line),
        None => None,
    }
}

impl Strings {
    /// No string; it takes no memory.
    pub fn new(alloc: Global) -> Strings
        ensures { result ≡ [] }
    {
        Strings {
            entries: Indexed::new(alloc),
        }
    }

    /// The strings in order.
    pub(crate) fn entries(&self) -> &[Entry]
        ensures { map shown_in result.now ≡ self.now }
    {
        self.entries.as_slice()
    }

    /// The string of the secret of this name.
    pub fn string(&self, name: &Name) -> Option<&Bytes>
        ensures string { option_map (λ b. b.now) result ≡ string_for self.now name.now }
        ensures short { IfSome result (λ b. length b.now ≤ most_item_bytes) }
    {
        bytes_of(self.entries.find(name.bytes()))
    }

    /// The line that gives the string of the secret of this name.
    pub(crate) fn line_for(&self, name: &Name) -> Option<u32>
        ensures { result ≡ option_map (λ (x : Told). x.line) (find (λ (x : Told). bytes_eq x.name name.now) self.now) }
    {
        line_of(self.entries.find(name.bytes()))
    }

    /// Adds a string.
    pub(crate) fn push(&mut self, alloc: Global, shown: Shown) -> Result<(), OutOfMemory>
        requires { has_length shown.bytes ≡ true }
        ensures ok { OnOk result (self.new ≡ self.old ++ shown ∷ []) }
        ensures err { OnErr result (self.new ≡ self.old) }
    {
        let key = Vec::from_slice(alloc, shown.name.bytes())?;
        self.entries.push(Entry { shown }, key)
    }
}

// Whether a string has as many bytes as a secret may have.
pub(crate) fn has_length(bytes: &[u8]) -> bool
    ensures { result ≡ has_length bytes.now }
{
    LEAST_SECRET_BYTES <= bytes.len() && bytes.len() <= MOST_ITEM_BYTES
}

// What is known of all that were given: each has as many bytes as a secret may have.
fn are_sized(entries: &Indexed<Entry>)
    ensures { list_all (λ e. has_length e.shown.bytes) entries.now ≡ true }
{
    let _ = entries.find(b"");
}

// One string more.
fn add(
    alloc: Global,
    all: &mut Strings,
    line: u32,
    name: Name,
    bytes: &Bytes,
) -> Result<(), OutOfMemory>
    requires { has_length bytes.now ≡ true }
    ensures { OnOk result (all.new ≡ all.old ++ record { line = line; name = name; bytes = bytes.now } ∷ []) }
{
    let bytes = bytes.copy(alloc)?;
    all.push(alloc, Shown { line, name, bytes })
}

// All of these strings more.
fn add_all(alloc: Global, all: &mut Strings, given: &[Entry]) -> Result<(), OutOfMemory>
    requires { list_all (λ e. has_length e.shown.bytes) given.now ≡ true }
    ensures { OnOk result (all.new ≡ all.old ++ map shown_in given.now) }
{
    for entry in given {
        let shown = &entry.shown;
        add(alloc, all, shown.line, shown.name, &shown.bytes)?;
    }
    Ok(())
}

// These strings, which no line gives.
fn shown_alone(alloc: Global, shown: &[(Name, Bytes)]) -> Result<Strings, OutOfMemory>
    requires { list_all (λ p. has_length p.1) shown.now ≡ true }
    ensures { IfOk result (λ all. all ≡ map shown_by shown.now) }
{
    let mut all = Strings::new(alloc);
    for (name, bytes) in shown {
        add(alloc, &mut all, 0, *name, bytes)?;
    }
    Ok(all)
}

/// These strings, which no line gives, and behind them those that were given. Each has as many bytes as a secret may have.
pub fn known(
    alloc: Global,
    shown: &[(Name, Bytes)],
    given: &Strings,
) -> Result<Strings, OutOfMemory>
    requires { list_all (λ p. has_length p.1) shown.now ≡ true }
    ensures { IfOk result (λ all. all ≡ map shown_by shown.now ++ given.now) }
{
    are_sized(&given.entries);
    let mut all = shown_alone(alloc, shown)?;
    add_all(alloc, &mut all, given.entries.as_slice())?;
    Ok(all)
}
