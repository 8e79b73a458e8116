//! Where messages stand, found without their digests.

ghost use Rattle.std.specs.Prelude.{◌≡◌, [], IfSome, slice_index_or, true};

use crate::fingerprints::fingerprint_of;
use crate::pieces::Pieces;
use std::alloc::Global;

// In how many slots in a row a place may be kept.
const ROW: usize = 8;

// The most slots for short messages: what is asked for again was nearly always asked for shortly before, and few slots stay near in memory.
const MOST: usize = 1 << 12;

// From how many bytes on a message is long. Long ones are few and costly to hash: they have slots of their own.
const LONG: usize = 512;

// The slots for long messages.
const OF_LONG: usize = 512;

// How many bytes of each end of a long message its fingerprint is made of.
const END: usize = 128;

// How many of the first messages are kept anew in more slots: they are the labels and scripts of the deposits of sixteen parties, which are
// asked for as long as a run lasts.
const FIRST: usize = 32;

// What a slot has in which no place is kept.
const FREE: u32 = u32::MAX;

// The part of a slot that is a place. The byte above it is one of the fingerprint: so a message that stands far back in memory isn't looked at
// for nothing.
const PLACE: u32 = 0xff_ffff;

/// The places of messages that were asked for of late, each in a slot that the message's fingerprint tells. They are cache entries: a place may be
/// missing, or another message may stand there, so whoever asks is told a place only where the message was seen to stand. No clause says
/// what is kept. Of a fingerprint its upper half is used.
#[derive(Drop)]
pub(crate) struct Cache {
    alloc: Global,
    short: Vec<u32>,
    long: Vec<u32>,
    ahead: [usize; 2],
    last: bool,
}

/// The fingerprint by which the place of a message is kept. Of a long message the ends are mixed alone: they tell nearly all apart, and what stands
/// at a place is compared whole.
pub(crate) fn cache_key(message: &[u8]) -> u64 {
    if message.len() < LONG {
        return fingerprint_of(message);
    }
    let Some(prefix) = message.first_chunk::<END>() else {
        return 0;
    };
    let Some(back) = message.last_chunk::<END>() else {
        return 0;
    };
    fingerprint_of(prefix).rotate_left(1) ^ fingerprint_of(back)
}

// The half of a fingerprint that tells the slot.
fn half_of(fingerprint: u64) -> u32 {
    (fingerprint >> 32) as u32
}

// The first slot of the row of a fingerprint: rows follow one another as fingerprints do.
fn row_of(slots: &[u32], fingerprint: u32) -> usize {
    let rows = slots.len().saturating_sub(ROW) as u64;
    (u64::from(fingerprint).wrapping_mul(rows) >> 32) as usize
}

// The slots of a row.
fn row_at(slots: &[u32], first: usize) -> &[u32] {
    match slots.get(first..first.saturating_add(ROW)) {
        Some(row) => row,
        None => &[],
    }
}

// The first free slot of a row, or, where none is free, the one that is a place's turn.
fn slot_for(slots: &[u32], first: usize, place: usize) -> usize {
    for (k, kept) in row_at(slots, first).iter().enumerate() {
        if *kept == FREE {
            return first.saturating_add(k);
        }
    }
    first.saturating_add(place % ROW)
}

// Keeps a place, unless it is beyond the sixteen millions that a slot can tell.
fn keep(slots: &mut [u32], fingerprint: u32, place: usize) {
    if place >= PLACE as usize {
        return;
    }
    let slot = slot_for(slots, row_of(slots, fingerprint), place);
    if let Some(kept) = slots.get_mut(slot) {
        *kept = fingerprint << 24 | place as u32;
    }
}

// Whether the message stands at a place.
fn stands_at(messages: &Pieces, place: usize, message: &[u8]) -> bool
    ensures { result ≡ true → slice_index_or messages.now place [] ≡ message.now }
{
    if place >= messages.len() {
        return false;
    }
    messages.get(place) == message
}

// The first of the places in a row, of those kept for this fingerprint, at which the message stands.
fn place_in(row: &[u32], messages: &Pieces, fingerprint: u32, message: &[u8]) -> Option<usize>
    ensures { IfSome result (λ place. slice_index_or messages.now place [] ≡ message.now) }
{
    for kept in row {
        if *kept == FREE {
            return None;
        }
        let place = (*kept & PLACE) as usize;
        if *kept >> 24 == fingerprint & 0xff && stands_at(messages, place, message) {
            return Some(place);
        }
    }
    None
}

impl Cache {
    /// No place; it takes no memory.
    pub(crate) fn new(alloc: Global) -> Cache {
        Cache {
            alloc,
            short: Vec::new(alloc),
            long: Vec::new(alloc),
            ahead: [0; 2],
            last: false,
        }
    }

    /// The place of a message that stands behind one of the two that were found last.
    pub(crate) fn find_ahead(&mut self, messages: &Pieces, message: &[u8]) -> Option<usize>
        ensures { IfSome result (λ place. slice_index_or messages.now place [] ≡ message.now) }
    {
        let [first, second] = self.ahead;
        if stands_at(messages, first, message) {
            self.ahead = [first.saturating_add(1), second];
            self.last = false;
            return Some(first);
        }
        if stands_at(messages, second, message) {
            self.ahead = [first, second.saturating_add(1)];
            self.last = true;
            return Some(second);
        }
        None
    }

    // What was found at a place is followed from there, instead of what was followed less recently.
    fn follow(&mut self, place: usize) {
        let [first, second] = self.ahead;
        if self.last {
            self.ahead = [place.saturating_add(1), second];
        } else {
            self.ahead = [first, place.saturating_add(1)];
        }
        self.last = !self.last;
    }

    // The slots for messages of so many bytes.
    fn slots(&self, bytes: usize) -> &[u32] {
        if bytes < LONG {
            &self.short
        } else {
            &self.long
        }
    }

    /// The place of a message of this fingerprint, where one is kept at which it stands.
    pub(crate) fn place_of(
        &self,
        messages: &Pieces,
        fingerprint: u64,
        message: &[u8],
    ) -> Option<usize>
        ensures { IfSome result (λ place. slice_index_or messages.now place [] ≡ message.now) }
    {
        let fingerprint = half_of(fingerprint);
        let slots = self.slots(message.len());
        place_in(
            row_at(slots, row_of(slots, fingerprint)),
            messages,
            fingerprint,
            message,
        )
    }

    /// The same place, from which is followed what is asked for next.
    pub(crate) fn find(
        &mut self,
        messages: &Pieces,
        fingerprint: u64,
        message: &[u8],
    ) -> Option<usize>
        ensures { IfSome result (λ place. slice_index_or messages.now place [] ≡ message.now) }
    {
        let place = self.place_of(messages, fingerprint, message)?;
        self.follow(place);
        Some(place)
    }

    // Keeps the place of a message of so many bytes.
    fn note(&mut self, fingerprint: u64, bytes: usize, place: usize) {
        if bytes < LONG {
            keep(&mut self.short, half_of(fingerprint), place);
        } else {
            keep(&mut self.long, half_of(fingerprint), place);
        }
    }

    /// Keeps the place of a message anew, whose entry was lost: one that is asked for often would else be hashed each time.
    pub(crate) fn renew(&mut self, fingerprint: u64, message: &[u8], place: usize) {
        self.note(fingerprint, message.len(), place);
        self.follow(place);
    }

    // Keeps the place of the message that stands there.
    fn note_at(&mut self, messages: &Pieces, place: usize) {
        if place < messages.len() {
            let message = messages.get(place);
            self.note(cache_key(message), message.len(), place);
        }
    }

    // More slots, where there may be more and a quarter of them isn't free. But for the first messages they begin free: what is asked for
    // is soon kept there again. Where there is no memory for them, those that are there are shared.
    fn spread(&mut self, messages: &Pieces) {
        let count = messages.len();
        if self.short.len() >= MOST || count / 3 < self.short.len() / 4 {
            return;
        }
        let more = count.saturating_mul(2).saturating_add(64).min(MOST);
        let Ok(slots) = vec![in self.alloc; FREE; more] else {
            return;
        };
        self.short = slots;
        for place in 0..FIRST {
            self.note_at(messages, place);
        }
    }

    // The slots for long messages, taken with the first of these.
    fn spread_long(&mut self) {
        if !self.long.is_empty() {
            return;
        }
        if let Ok(slots) = vec![in self.alloc; FREE; OF_LONG] {
            self.long = slots;
        }
    }

    /// Keeps the place of the last message, which has this fingerprint.
    pub(crate) fn note_last(&mut self, fingerprint: u64, message: &[u8], messages: &Pieces) {
        if message.len() < LONG {
            self.spread(messages);
        } else {
            self.spread_long();
        }
        self.note(fingerprint, message.len(), messages.len().saturating_sub(1));
    }
}
