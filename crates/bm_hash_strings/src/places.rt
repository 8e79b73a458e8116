//! Where strings stand first.

ghost use Rattle.std.specs.Prelude.{◌≡◌, Some, IfOk, OnErr};
ghost use Rattle.std.specs.BTreeMap.{UpdatesBy};
ghost use Rattle.std.specs.Option.{option_copied, unwrap_or};
ghost use Rattle.std.specs.Ordering.{nat_cmp};
ghost use Rattle.bm_hash_strings.specs.Placed.{first_number, last_number, fingerprint_of, place_by_fingerprint, found_at, is_place};

use spec_data::OutOfMemory;
use std::collections::BTreeMap;

/// Where strings stand first. A string is found by its fingerprint, a number of 64 bits, and where an earlier string has this fingerprint,
/// by all its bytes. So nearly every look-up compares numbers alone, and strings that are chosen to have one fingerprint cost what all
/// would without fingerprints.
#[derive(Drop)]
pub(crate) struct Places {
    pub(crate) by_fingerprint: BTreeMap<u64, usize>,
    pub(crate) others: BTreeMap<Vec<u8>, usize>,
}

// The number that the first eight bytes of a string are, the lowest first, and 0 of a shorter one.
fn first_number(string: &[u8]) -> u64
    ensures { result ≡ first_number string.now }
{
    match string.first_chunk() {
        Some(first) => u64::from_le_bytes(*first),
        None => 0,
    }
}

// The number that its last eight bytes are.
fn last_number(string: &[u8]) -> u64
    ensures { result ≡ last_number string.now }
{
    match string.last_chunk() {
        Some(last) => u64::from_le_bytes(*last),
        None => 0,
    }
}

/// The fingerprint of a string: the sum of the numbers that its first eight bytes and its last eight are. Whoever chooses strings may
/// choose them of one fingerprint; they are then found by all their bytes.
#[tactic(auto, unfolding(crate::specs::Placed::fingerprint_of))]
pub(crate) fn fingerprint_of(string: &[u8]) -> u64
    ensures { result ≡ fingerprint_of string.now }
{
    first_number(string).wrapping_add(last_number(string))
}

/// Puts the place of a fingerprint in the index, unless an earlier string has it; the place that the fingerprint has then.
pub(crate) fn add_fingerprint(
    by_fingerprint: &mut BTreeMap<u64, usize>,
    fingerprint: u64,
    place: usize,
) -> Result<usize, OutOfMemory>
    ensures first { IfOk result (λ first. first ≡ unwrap_or (place_by_fingerprint by_fingerprint.old fingerprint) place) }
    ensures put { IfOk result (λ first. UpdatesBy nat_cmp (λ k. nat_cmp fingerprint k) by_fingerprint.old by_fingerprint.new (Some first)) }
    ensures err { OnErr result (by_fingerprint.new.entries ≡ by_fingerprint.old.entries) }
{
    let first = *by_fingerprint.entry(fingerprint)?.or_insert(place);
    Ok(first)
}

/// Whether the place that was found is this one.
pub(crate) fn is_here(found: Option<&usize>, place: usize) -> bool
    ensures { result ≡ is_place (option_copied found.entry) place }
{
    match found {
        Some(first) => *first == place,
        None => false,
    }
}

/// The place of the first string of a fingerprint.
pub(crate) fn fingerprint_place(
    by_fingerprint: &BTreeMap<u64, usize>,
    fingerprint: u64,
) -> Option<usize>
    ensures { result ≡ place_by_fingerprint by_fingerprint.now fingerprint }
{
    by_fingerprint.get(&fingerprint).copied()
}

/// The place of a string whose fingerprint an earlier one has.
pub(crate) fn other_place(others: &BTreeMap<Vec<u8>, usize>, string: &[u8]) -> Option<usize>
    ensures { result ≡ found_at others.now string.now }
{
    others.get(string).copied()
}
