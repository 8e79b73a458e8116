//! Where pairs are looked for first.

use std::alloc::Global;

// In how many slots in a row a number may be kept.
const ROW: usize = 4;

// What a slot has in which no number is kept.
const FREE: u64 = u64::MAX;

// What is multiplied by to spread the bits of a fingerprint upwards: odd, and near to 2^64 divided by the golden ratio.
const SPREAD: u64 = 0x9E37_79B1_85EB_CA87;

/// The numbers of pairs, each in a slot that the pair's fingerprint tells. A slot has the upper half of the fingerprint, and below it the
/// number. They are only cached: a number may be missing, or another pair may have it, so whoever asks compares the pair of this number. No
/// clause says what is kept.
#[derive(Drop)]
pub(crate) struct Cache {
    alloc: Global,
    slots: Vec<u64>,
}

// The number that the first eight of these bytes are, the lowest first.
fn first_number(bytes: &[u8]) -> u64 {
    match bytes.first_chunk() {
        Some(first) => u64::from_le_bytes(*first),
        None => 0,
    }
}

// The number that the last eight of these bytes are.
fn last_number(bytes: &[u8]) -> u64 {
    match bytes.last_chunk() {
        Some(last) => u64::from_le_bytes(*last),
        None => 0,
    }
}

/// The fingerprint of a pair, made of the last bytes of its key and of both ends of its digest. Whoever chooses digests may choose them of
/// one fingerprint; nearly all of those are not cached then.
pub(crate) fn pair_fingerprint(key: &[u8; 33], digest: &[u8; 32]) -> u64 {
    last_number(key)
        .wrapping_add(first_number(digest))
        .wrapping_mul(SPREAD)
        .wrapping_add(last_number(digest))
        .wrapping_mul(SPREAD)
}

// The slots of the row of a fingerprint: rows follow one another as fingerprints do.
fn row_of(slots: &[u64], fingerprint: u64) -> usize {
    let rows = slots.len().saturating_sub(ROW) as u64;
    ((fingerprint >> 32).wrapping_mul(rows) >> 32) as usize
}

// The slots of a row.
fn row_at(slots: &[u64], first: usize) -> &[u64] {
    match slots.get(first..first.saturating_add(ROW)) {
        Some(row) => row,
        None => &[],
    }
}

// The slot for what is kept: the one that has it or the first free one, or, where none is free, the one whose turn it is.
fn slot_for(slots: &[u64], first: usize, kept: u64) -> usize {
    for (k, known) in row_at(slots, first).iter().enumerate() {
        if *known == FREE || *known == kept {
            return first.saturating_add(k);
        }
    }
    first.saturating_add(kept as usize % ROW)
}

// Keeps the upper half of a fingerprint and a number.
fn keep(slots: &mut [u64], kept: u64) {
    let slot = slot_for(slots, row_of(slots, kept), kept);
    if let Some(known) = slots.get_mut(slot) {
        *known = kept;
    }
}

impl Cache {
    /// No number; it takes no memory.
    pub(crate) fn new(alloc: Global) -> Cache {
        Cache {
            alloc,
            slots: Vec::new(alloc),
        }
    }

    /// The first number that is kept for this fingerprint, or one that no pair has.
    pub(crate) fn find(&self, fingerprint: u64) -> usize {
        for kept in row_at(&self.slots, row_of(&self.slots, fingerprint)) {
            if *kept >> 32 == fingerprint >> 32 {
                return (*kept & 0xffff_ffff) as usize;
            }
        }
        usize::MAX
    }

    // More slots for so many numbers, where not half of them would be free. Where there is no memory for them, those that are there are
    // shared.
    fn spread(&mut self, count: usize) {
        if count < self.slots.len() / 2 {
            return;
        }
        let more = count.saturating_mul(4).saturating_add(64);
        let Ok(mut slots) = vec![in self.alloc; FREE; more] else {
            return;
        };
        for kept in &self.slots {
            if *kept != FREE {
                keep(&mut slots, *kept);
            }
        }
        self.slots = slots;
    }

    /// Keeps the number of a pair of this fingerprint, unless it is beyond the four thousand millions that a slot can tell.
    pub(crate) fn note(&mut self, fingerprint: u64, number: usize) {
        if number >= u32::MAX as usize {
            return;
        }
        self.spread(number);
        keep(&mut self.slots, fingerprint >> 32 << 32 | number as u64);
    }
}
