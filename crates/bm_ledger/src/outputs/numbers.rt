//! Entries in order of birth, each found by its birth number.

ghost use Rattle.std.specs.Prelude.{◌≡◌, ◌^◌, nat_lt, slice_get, IfSome, Some};
ghost use Rattle.std.specs.Option.{option_and_then, option_copied, option_map};
ghost use Rattle.bm_ledger.specs.Ordered.{numbered, if_numbered, AreInOrder};

use spec_bitcoin::{OutPoint, TxOut};
use std::collections::VecDeque;

/// The place of a live output, its birth number, and the output.
pub(crate) type Entry = (OutPoint, (u32, TxOut));

// Where the entry of this birth number stands, if none is spent of those that came between the first one and it.
fn place_from_first(entries: &VecDeque<Entry>, number: u32) -> Option<usize>
    ensures { IfSome result (λ place. option_map (λ e. e.1.0) (slice_get entries.now.items place) ≡ Some number) }
{
    let first = entries.get(0)?;
    let place = number.checked_sub(first.1.0)? as usize;
    let entry = entries.get(place)?;
    if entry.1.0 == number {
        Some(place)
    } else {
        None
    }
}

/// Where the entry of this birth number stands, if there is one: after those of lower numbers.
pub(crate) fn place_of_number(entries: &VecDeque<Entry>, number: u32) -> usize
    requires order { AreInOrder 0 (2 ^ 32) entries.now.items }
    ensures { numbered entries.now.items number ≡ option_and_then (if_numbered number) (slice_get entries.now.items result) }
{
    if let Some(place) = place_from_first(entries, number) {
        return place;
    }
    entries.partition_point(
        |entry: &Entry| -> bool
            ensures { result ≡ nat_lt entry.now.1.0 number }
        { entry.1.0 < number },
    )
}

/// The entry of this birth number.
pub(crate) fn find_number(entries: &VecDeque<Entry>, number: u32) -> Option<&Entry>
    requires order { AreInOrder 0 (2 ^ 32) entries.now.items }
    ensures { option_copied result ≡ numbered entries.now.items number }
{
    let entry = entries.get(place_of_number(entries, number))?;
    if entry.1.0 == number {
        Some(entry)
    } else {
        None
    }
}
