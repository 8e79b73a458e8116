//! The live outputs in order of birth, with the birth number at each place.

ghost use Rattle.std.specs.Prelude.{◌≡◌, ◌↔◌, ◌++◌, ◌-◌, ◌∷◌, [], None, IsTrue, OnOk, OnErr, is_some, length, map, not, slice_get, take};
ghost use Rattle.std.specs.List.{filter, list_any};
ghost use Rattle.std.specs.Map.{remove_entry};
ghost use Rattle.std.specs.Option.{option_copied};
ghost use Rattle.std.specs.Str.{bytes_eq};
ghost use Rattle.indexmap.specs.IndexMap.{get};
ghost use Rattle.spec_bitcoin.specs.Live.{at_place, same_outpoint, without, IsNewTxid};
ghost use Rattle.spec_bitcoin.specs.Verdict.{first_missing, has_repeat, spent_number};
ghost use Rattle.bm_ledger.specs.Ordered.{numbered, AreInOrder, AreIndexed, LosesPlaces, number_at};

use super::numbers::{Entry, find_number, place_of_number};
use bm_repeats::are_distinct;
use indexmap::IndexMap;
use spec_bitcoin::{OutPoint, TxIn, TxOut};
use spec_data::OutOfMemory;
use std::alloc::Global;
use std::collections::VecDeque;
use std::marker::Model;

/// The live outputs with their birth numbers, in order of birth. A place is found through its number, and so the entries stand in a
/// row from which the oldest goes fast: a map in order of birth would have to move all that follow it.
#[derive(Drop)]
pub(crate) struct Live {
    entries: VecDeque<Entry>,
    numbers: IndexMap<OutPoint, u32>,
}

impl Model for Live {
    ghost use Rattle.std.specs.Prelude.{List};
    ghost use Rattle.indexmap.specs.IndexMap.{get};
    ghost use Rattle.spec_bitcoin.specs.Live.{Entry, same_outpoint};
    ghost use Rattle.bm_ledger.specs.Ordered.{AreIndexed};

    ghost Value = { List Entry };

    ghost view = { λ l. l.entries.items };

    ghost invariant = { λ l. AreIndexed (get same_outpoint l.numbers) l.entries.items };
}

// Takes out the entry at a place, if there is one. What it answers is of the time alone: how many entries stand on the shorter side,
// which are moved.
fn take_out(
    entries: &mut VecDeque<Entry>,
    numbers: &mut IndexMap<OutPoint, u32>,
    place: &OutPoint,
) -> usize
    requires indexed { AreIndexed (get same_outpoint numbers.old) entries.old.items }
    ensures removed { entries.new.items ≡ remove_entry (same_outpoint place.now) entries.old.items }
    ensures indexed { AreIndexed (get same_outpoint numbers.new) entries.new.items }
{
    if let Some(number) = numbers.swap_remove(place) {
        let index = place_of_number(entries, number);
        let _ = entries.remove(index);
        return index.min(entries.len().saturating_sub(index));
    }
    0
}

// Forgets the numbers of the outputs that are spent.
fn forget_numbers(numbers: &mut IndexMap<OutPoint, u32>, inputs: &[TxIn])
    ensures { LosesPlaces (get same_outpoint numbers.old) (get same_outpoint numbers.new) (map (λ i. i.prev) inputs.now) }
{
    for input in inputs {
        let _ = numbers.swap_remove(&input.prev);
    }
}

// Keeps the entries whose places have numbers, in one pass.
fn keep_numbered(entries: &mut VecDeque<Entry>, numbers: &IndexMap<OutPoint, u32>)
    ensures { entries.new.items ≡ filter (λ e. is_some (get same_outpoint numbers.now e.0)) entries.old.items }
{
    entries.retain(|entry| numbers.contains_key(&entry.0));
}

// Takes out the entries of the outputs that are spent.
fn take_out_all(
    entries: &mut VecDeque<Entry>,
    numbers: &mut IndexMap<OutPoint, u32>,
    inputs: &[TxIn],
)
    requires indexed { AreIndexed (get same_outpoint numbers.old) entries.old.items }
    ensures removed { entries.new.items ≡ without entries.old.items (map (λ i. i.prev) inputs.now) }
    ensures indexed { AreIndexed (get same_outpoint numbers.new) entries.new.items }
{
    forget_numbers(numbers, inputs);
    keep_numbered(entries, numbers);
}

// Whether one of the outputs at these places was made by a transaction of this txid.
fn is_made(places: &[OutPoint], txid: &[u8; 32]) -> bool
    ensures { result ≡ list_any (λ p. bytes_eq txid.now p.txid) places.now }
{
    places.iter().any(|place| *txid == place.txid)
}

impl Live {
    /// No outputs.
    pub(crate) fn new(alloc: Global) -> Live
        ensures { result ≡ [] }
    {
        Live {
            entries: VecDeque::new(alloc),
            numbers: IndexMap::new(alloc),
        }
    }

    /// How many there are.
    pub(crate) fn len(&self) -> usize
        ensures { result ≡ length self.now }
    {
        self.entries.len()
    }

    /// The entry at this index of the list.
    pub(crate) fn get(&self, index: usize) -> Option<&Entry>
        ensures { option_copied result ≡ slice_get self.now index }
    {
        self.entries.get(index)
    }

    /// Whether there is an output at a place.
    pub(crate) fn contains(&self, place: &OutPoint) -> bool
        ensures { result ≡ is_some (at_place self.now place.now) }
    {
        self.numbers.contains_key(place)
    }

    /// The birth number of the output at a place.
    pub(crate) fn number(&self, place: &OutPoint) -> Option<u32>
        ensures { result ≡ number_at self.now place.now }
    {
        self.numbers.get(place).copied()
    }

    /// Whether two of the inputs spend one output, where each spends a live one, of this birth number: no number is born twice.
    pub(crate) fn is_spent_twice(&self, alloc: Global, inputs: &[TxIn], numbers: &[u32]) -> bool
        requires live { first_missing self.now inputs.now ≡ None }
        requires numbers { numbers.now ≡ map (spent_number self.now) inputs.now }
        ensures { result ≡ has_repeat inputs.now }
    {
        // The field is named so that what is known of all is known here: they stand in order of birth.
        let _ = &self.numbers;
        !are_distinct(alloc, numbers)
    }

    /// The output at a place, with its birth number.
    pub(crate) fn find(&self, place: &OutPoint) -> Option<&(u32, TxOut)>
        ensures { option_copied result ≡ at_place self.now place.now }
    {
        let number = self.numbers.get(place)?;
        let entry = find_number(&self.entries, *number)?;
        Some(&entry.1)
    }

    /// The entry of this birth number.
    pub(crate) fn find_number(&self, number: u32) -> Option<&Entry>
        ensures { option_copied result ≡ numbered self.now number }
    {
        find_number(&self.entries, number)
    }

    /// Whether no output was made by a transaction of this txid. It looks at the places alone, which lie closer together.
    pub(crate) fn is_new(&self, txid: &[u8; 32]) -> bool
        ensures { IsTrue result ↔ IsNewTxid self.now txid.now }
    {
        !is_made(self.numbers.keys().as_slice(), txid)
    }

    /// Adds an output at the end.
    pub(crate) fn add(
        &mut self,
        place: OutPoint,
        number: u32,
        output: TxOut,
    ) -> Result<(), OutOfMemory>
        requires order { AreInOrder 0 number self.old }
        requires new { at_place self.old place ≡ None }
        ensures ok { OnOk result (self.new ≡ self.old ++ (place, (number, output)) ∷ []) }
        ensures err { OnErr result (self.new ≡ self.old) }
    {
        self.entries.reserve(1)?;
        self.numbers.insert(place, number)?;
        self.entries.push_back_reserved((place, (number, output)));
        Ok(())
    }

    /// Removes the output at a place, if there is one. The others keep their order. It answers how many of them were moved.
    pub(crate) fn remove(&mut self, place: &OutPoint) -> usize
        ensures { self.new ≡ remove_entry (same_outpoint place.now) self.old }
    {
        take_out(&mut self.entries, &mut self.numbers, place)
    }

    /// Removes the outputs that are spent, in one pass over all. The others keep their order.
    pub(crate) fn remove_all(&mut self, inputs: &[TxIn])
        ensures { self.new ≡ without self.old (map (λ i. i.prev) inputs.now) }
    {
        take_out_all(&mut self.entries, &mut self.numbers, inputs);
    }

    // Removes the last output.
    fn remove_last(&mut self)
        ensures { self.new ≡ take (length self.old - 1) self.old }
    {
        if let Some((place, _)) = self.entries.pop_back() {
            let _ = self.numbers.swap_remove(&place);
        }
    }

    /// Keeps the first outputs, this many, and cuts off the others.
    pub(crate) fn truncate(&mut self, len: usize)
        ensures { self.new ≡ take len self.old }
    {
        while self.len() > len {
            self.remove_last();
        }
    }
}
