//! The list of signatures of a run, called its book: which key has signed which digest. Signatures are ideal here, so
//! one is valid exactly if its pair is in the list.
#![tactic(auto)]

ghost use Rattle.std.specs.Prelude.{◌≡◌, ◌≤◌, ◌++◌, ◌∷◌, [], OnOk, OnErr, if◌then◌else◌, length, take, true};
ghost use Rattle.spec_data.specs.Lists.{is_among};
ghost use Rattle.spec_bitcoin.specs.Keys.{has_signed};

mod cache;

use crate::cache::{Cache, pair_fingerprint};
use bm_hash_strings::Strings;
use spec_data::OutOfMemory;
use std::alloc::Global;
use std::marker::Model;

// A key and a digest as an entry of the index. Each has its size by its type.
fn entry_of(key: &[u8; 33], digest: &[u8; 32]) -> [u8; 65]
    ensures entry { result ≡ key.now ++ digest.now }
    ensures key { length key.now ≡ 33 }
    ensures digest { length digest.now ≡ 32 }
{
    let mut entry = [0; 65];
    entry[33..].copy_from_slice(digest);
    entry[..33].copy_from_slice(key);
    entry
}

// Whether an entry stands in the index. It is looked for first where the cache has it.
fn stands(entries: &Strings, cache: &Cache, fingerprint: u64, entry: &[u8; 65]) -> bool
    ensures { result ≡ is_among entry.now entries.now }
{
    if entries.stands_at(cache.find(fingerprint), entry) {
        return true;
    }
    entries.has(entry)
}

/// The different pairs of key and digest, in order of signing. Whoever writes a run chooses the digests, so they stand in an index that
/// is ordered: it answers in the time of a few comparisons, however they are chosen. Before it a cache is asked, which has
/// nearly all pairs that weren't chosen to meet in it: most look-ups compare one pair.
pub struct Book {
    entries: Strings,
    cache: Cache,
    // The number behind that of the pair that was signed last. It only says where a pair is looked for first.
    next: usize,
}

impl Model for Book {
    ghost use Rattle.std.specs.Prelude.{◌≡◌, List, true};
    ghost use Rattle.spec_bitcoin.specs.Keys.{Pair};
    ghost use Rattle.bm_book.specs.Entries.{pairs_of, are_entries};

    ghost Value = { List Pair };

    ghost view = { λ b. pairs_of b.entries };

    ghost invariant = { λ b. are_entries b.entries ≡ true };
}

impl Drop for Book {
    fn drop(self) {
        let Book {
            entries: _,
            cache: _,
            next: _,
        } = self;
    }
}

impl Book {
    /// A book of no pair; it takes no memory.
    pub fn new(alloc: Global) -> Book
        ensures { result ≡ [] }
    {
        Book {
            entries: Strings::new(alloc),
            cache: Cache::new(alloc),
            next: 0,
        }
    }

    /// How many pairs there are.
    pub fn count(&self) -> usize
        ensures { result ≡ length self.now }
    {
        self.entries.count()
    }

    /// Whether the key has signed the digest.
    pub fn has(&self, key: &[u8; 33], digest: &[u8; 32]) -> bool
        ensures { result ≡ has_signed self.now key.now digest.now }
    {
        stands(
            &self.entries,
            &self.cache,
            pair_fingerprint(key, digest),
            &entry_of(key, digest),
        )
    }

    /// Whether these bytes are a key that has signed the digest. Bytes of another length are no key.
    pub fn has_signed(&self, key: &[u8], digest: &[u8; 32]) -> bool
        ensures signed { result ≡ has_signed self.now key.now digest.now }
        ensures sized { result ≡ true → length key.now ≡ 33 }
    {
        match <[u8; 33]>::try_from(key) {
            Ok(key) => stands(
                &self.entries,
                &self.cache,
                pair_fingerprint(&key, digest),
                &entry_of(&key, digest),
            ),
            Err(_) => false,
        }
    }

    /// Adds a pair at the end, unless it is there. Who signs again what was signed, in the same order, has each pair found behind the
    /// one before it.
    pub fn sign(&mut self, key: [u8; 33], digest: [u8; 32]) -> Result<(), OutOfMemory>
        ensures ok { OnOk result (self.new ≡ (if has_signed self.old key digest then self.old else self.old ++ (key, digest) ∷ [])) }
        ensures err { OnErr result (self.new ≡ self.old) }
    {
        let entry = entry_of(&key, &digest);
        if self.entries.stands_at(self.next, &entry) {
            self.next = self.next.wrapping_add(1);
            return Ok(());
        }
        let place = self.entries.add_once(&entry)?;
        self.cache.note(pair_fingerprint(&key, &digest), place);
        self.next = place.wrapping_add(1);
        Ok(())
    }

    /// Leaves the first `count` pairs; it takes no memory.
    pub fn cut(&mut self, count: usize)
        requires { count ≤ length self.old }
        ensures { self.new ≡ take count self.old }
    {
        self.entries.cut(count);
    }
}
