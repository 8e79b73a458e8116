//! Strings in order, with an index that tells where each stands first.

ghost use Rattle.std.specs.Prelude.{List, ℕ, ◌≡◌, ◌++◌, ◌∷◌, [], ◌<◌, ◌≤◌, ◌-◌, true, false, if◌then◌else◌, length, not, take, is_some, IfOk, OnOk, OnErr};
ghost use Rattle.spec_data.specs.Lists.{is_among};
ghost use Rattle.bm_hash_strings.specs.Placed.{first_place, fingerprint_of, place_by_fingerprint, stands_at, IsPlaced};

use crate::places::{
    Places, add_fingerprint, fingerprint_of, fingerprint_place, is_here, other_place,
};
use bm_hash::Pieces;
use spec_data::OutOfMemory;
use std::alloc::{AllocError, Global};
use std::collections::BTreeMap;
use std::marker::Model;

/// Strings in order. A string may stand more than once; whether it is there is answered by the index.
pub struct Strings {
    alloc: Global,
    strings: Pieces,
    places: Places,
}

impl Model for Strings {
    ghost use Rattle.std.specs.Prelude.{List, ℕ};
    ghost use Rattle.bm_hash_strings.specs.Placed.{IsPlaced};

    ghost Value = { List (List ℕ) };

    ghost view = { λ s. s.strings };

    ghost invariant = { λ s. IsPlaced s.strings s.places };
}

impl Drop for Strings {
    fn drop(self) {
        let Strings {
            alloc: _,
            strings: _,
            places: _,
        } = self;
    }
}

impl Strings {
    /// No string; it takes no memory.
    pub fn new(alloc: Global) -> Strings
        ensures { result ≡ [] }
    {
        let places = Places {
            by_fingerprint: BTreeMap::new(alloc),
            others: BTreeMap::new(alloc),
        };
        Strings {
            alloc,
            strings: Pieces::new(alloc),
            places,
        }
    }

    /// How many strings there are.
    pub fn count(&self) -> usize
        ensures { result ≡ length self.now }
    {
        self.strings.len()
    }

    /// Whether the string is there.
    pub fn has(&self, string: &[u8]) -> bool
        ensures { result ≡ is_among string.now self.now }
    {
        has_string(&self.strings, &self.places, string)
    }

    /// The first place of the string, counted from 0.
    pub fn place(&self, string: &[u8]) -> Option<usize>
        ensures { result ≡ first_place self.now string.now }
    {
        place_of(&self.strings, &self.places, string)
    }

    /// Whether this string stands at a place.
    pub fn stands_at(&self, place: usize, string: &[u8]) -> bool
        ensures { result ≡ stands_at self.now place string.now }
    {
        place < self.strings.len() && self.strings.get(place) == string
    }

    /// Adds a string at the end.
    pub fn add(&mut self, string: &[u8]) -> Result<(), OutOfMemory>
        ensures ok { OnOk result (self.new ≡ self.old ++ string.now ∷ []) }
        ensures err { OnErr result (self.new ≡ self.old) }
    {
        add_string(self.alloc, &mut self.strings, &mut self.places, string)?;
        Ok(())
    }

    /// Adds a string at the end, and tells whether it wasn't there.
    pub fn add_telling(&mut self, string: &[u8]) -> Result<bool, OutOfMemory>
        ensures ok { OnOk result (self.new ≡ self.old ++ string.now ∷ []) }
        ensures new { IfOk result (λ new. new ≡ not (is_among string.now self.old)) }
        ensures err { OnErr result (self.new ≡ self.old) }
    {
        add_string(self.alloc, &mut self.strings, &mut self.places, string)
    }

    /// Adds a string at the end, unless it is there. It answers a place of it.
    pub fn add_once(&mut self, string: &[u8]) -> Result<usize, OutOfMemory>
        ensures ok { OnOk result (self.new ≡ if is_among string.now self.old then self.old else self.old ++ string.now ∷ []) }
        ensures err { OnErr result (self.new ≡ self.old) }
    {
        add_once(self.alloc, &mut self.strings, &mut self.places, string)
    }

    /// Leaves the first `count` strings; it takes no memory.
    pub fn cut(&mut self, count: usize)
        requires { count ≤ length self.old }
        ensures { self.new ≡ take count self.old }
    {
        cut_strings(&mut self.strings, &mut self.places, count);
    }
}

// The first place of the string.
fn place_of(strings: &Pieces, places: &Places, string: &[u8]) -> Option<usize>
    requires placed { IsPlaced strings.now places.now }
    ensures { result ≡ first_place strings.now string.now }
{
    match fingerprint_place(&places.by_fingerprint, fingerprint_of(string)) {
        Some(first) => {
            if strings.get(first) == string {
                Some(first)
            } else {
                other_place(&places.others, string)
            }
        }
        None => None,
    }
}

// Whether the string is there.
fn is_there(strings: &Pieces, places: &Places, string: &[u8]) -> bool
    requires placed { IsPlaced strings.now places.now }
    ensures { result ≡ is_among string.now strings.now }
{
    place_of(strings, places, string).is_some()
}

// Whether the string is there. One string alone, as most events post, is compared without the index.
fn has_string(strings: &Pieces, places: &Places, string: &[u8]) -> bool
    requires placed { IsPlaced strings.now places.now }
    ensures { result ≡ is_among string.now strings.now }
{
    if strings.len() == 1 {
        return strings.get(0) == string;
    }
    is_there(strings, places, string)
}

// Adds a string if none has its fingerprint, and tells whether it was added. The index is gone down once for both.
fn add_first(strings: &mut Pieces, places: &mut Places, string: &[u8]) -> Result<bool, OutOfMemory>
    requires placed { IsPlaced strings.old places.old }
    ensures ok { IfOk result (λ added. strings.new ≡ if added then strings.old ++ string.now ∷ [] else strings.old) }
    ensures taken { IfOk result (λ added. added ≡ false → is_some (place_by_fingerprint places.new.by_fingerprint (fingerprint_of string.now)) ≡ true) }
    ensures new { IfOk result (λ added. added ≡ true → is_among string.now strings.old ≡ false) }
    ensures err { OnErr result (strings.new ≡ strings.old) }
    ensures placed { IsPlaced strings.new places.new }
{
    let place = strings.len();
    strings.push(string)?;
    let Ok(first) = add_fingerprint(&mut places.by_fingerprint, fingerprint_of(string), place)
    else {
        strings.truncate(place);
        return Err(AllocError);
    };
    if first == place {
        return Ok(true);
    }
    strings.truncate(place);
    Ok(false)
}

// Adds a string that isn't there, though another of its fingerprint is.
fn add_other(
    alloc: Global,
    strings: &mut Pieces,
    places: &mut Places,
    string: &[u8],
) -> Result<(), OutOfMemory>
    requires placed { IsPlaced strings.old places.old }
    requires new { is_among string.now strings.old ≡ false }
    requires taken { is_some (place_by_fingerprint places.old.by_fingerprint (fingerprint_of string.now)) ≡ true }
    ensures ok { OnOk result (strings.new ≡ strings.old ++ string.now ∷ []) }
    ensures err { OnErr result (strings.new ≡ strings.old) }
    ensures placed { IsPlaced strings.new places.new }
{
    let key = Vec::from_slice(alloc, string)?;
    let place = strings.len();
    strings.push(string)?;
    if places.others.insert(key, place).is_err() {
        strings.truncate(place);
        return Err(AllocError);
    }
    Ok(())
}

// Adds a string that stands earlier.
fn add_again(strings: &mut Pieces, places: &Places, string: &[u8]) -> Result<(), OutOfMemory>
    requires placed { IsPlaced strings.old places.now }
    requires there { is_among string.now strings.old ≡ true }
    ensures ok { OnOk result (strings.new ≡ strings.old ++ string.now ∷ []) }
    ensures err { OnErr result (strings.new ≡ strings.old) }
    ensures placed { IsPlaced strings.new places.now }
{
    strings.push(string)?;
    Ok(())
}

// Adds a string at the end, and tells whether it wasn't there.
fn add_string(
    alloc: Global,
    strings: &mut Pieces,
    places: &mut Places,
    string: &[u8],
) -> Result<bool, OutOfMemory>
    requires placed { IsPlaced strings.old places.old }
    ensures ok { OnOk result (strings.new ≡ strings.old ++ string.now ∷ []) }
    ensures new { IfOk result (λ new. new ≡ not (is_among string.now strings.old)) }
    ensures err { OnErr result (strings.new ≡ strings.old) }
    ensures placed { IsPlaced strings.new places.new }
{
    if add_first(strings, places, string)? {
        return Ok(true);
    }
    if is_there(strings, places, string) {
        add_again(strings, places, string)?;
        Ok(false)
    } else {
        add_other(alloc, strings, places, string)?;
        Ok(true)
    }
}

// Adds a string at the end, unless it is there. Its first place then.
fn add_once(
    alloc: Global,
    strings: &mut Pieces,
    places: &mut Places,
    string: &[u8],
) -> Result<usize, OutOfMemory>
    requires placed { IsPlaced strings.old places.old }
    ensures ok { OnOk result (strings.new ≡ if is_among string.now strings.old then strings.old else strings.old ++ string.now ∷ []) }
    ensures err { OnErr result (strings.new ≡ strings.old) }
    ensures placed { IsPlaced strings.new places.new }
{
    let count = strings.len();
    if add_first(strings, places, string)? {
        return Ok(count);
    }
    if let Some(place) = place_of(strings, places, string) {
        return Ok(place);
    }
    add_other(alloc, strings, places, string)?;
    Ok(count)
}

// Takes the place of the last string out of the index, if it is the first of this string.
fn forget_last(places: &mut Places, string: &[u8], place: usize)
    ensures { (prefix : List (List ℕ)) → place ≡ length prefix → IsPlaced (prefix ++ string.now ∷ []) places.old → IsPlaced prefix places.new }
{
    let fingerprint = fingerprint_of(string);
    if is_here(places.by_fingerprint.get(&fingerprint), place) {
        places.by_fingerprint.remove(&fingerprint);
    } else if is_here(places.others.get(string), place) {
        places.others.remove(string);
    }
}

// Takes the last string away.
fn drop_last(strings: &mut Pieces, places: &mut Places)
    requires some { 0 < length strings.old }
    requires placed { IsPlaced strings.old places.old }
    ensures prefix { strings.new ≡ take (length strings.old - 1) strings.old }
    ensures placed { IsPlaced strings.new places.new }
{
    let place = strings.len() - 1;
    forget_last(places, strings.get(place), place);
    strings.truncate(place);
}

// Leaves the first `count` strings.
fn cut_strings(strings: &mut Pieces, places: &mut Places, count: usize)
    requires within { count ≤ length strings.old }
    requires placed { IsPlaced strings.old places.old }
    ensures prefix { strings.new ≡ take count strings.old }
    ensures placed { IsPlaced strings.new places.new }
{
    while strings.len() > count {
        drop_last(strings, places);
    }
}
