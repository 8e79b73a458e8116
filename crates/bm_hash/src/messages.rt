//! The messages that were hashed.

ghost use Rattle.std.specs.Prelude.{◌≡◌, ◌++◌, ◌∷◌, [], IfOk, OnOk, OnErr, length, is_some, IfNone, IfSome, Some, None, slice_index_or, true};
ghost use Rattle.std.specs.Option.{option_map, option_copied};
ghost use Rattle.std.specs.Vec.{vec_len};
ghost use Rattle.indexmap.specs.IndexMap.{IsUnchanged};
ghost use Rattle.bm_hash.specs.Keys.{place_in, Places};
ghost use Rattle.bm_hash.specs.declared.messages.TrailError.TheVariants.{Collided, Memory};
ghost use Rattle.bm_hash.specs.Messages.{evidence_of, message_of, IsAt};
ghost use Rattle.bm_hash.specs.Trails.{Hashed, Hashes, IsCollision, HaveApartDigests};

use crate::cache::{Cache, cache_key};
use crate::hashing::Hash32;
use crate::key::Key;
use crate::pieces::Pieces;
use indexmap::IndexMap;
use spec_data::OutOfMemory;
use std::alloc::{AllocError, AllocFailed, Global};
use std::marker::Model;

// The bytes of messages for which room is taken with the first: of room that isn't filled the system gives nothing, and less is copied as it grows.
const ROOM: usize = 1 << 21;

/// Why a message was not hashed.
#[derive(Clone, Copy, Debug, PartialEq, Eq)]
pub enum TrailError {
    /// Two different messages have one digest.
    Collided,
    /// Out of memory.
    Memory,
}

impl<T: Drop> From<AllocFailed<T>> for TrailError {
    ghost from_gives = { λ _ r. r ≡ Memory };

    fn from(_error: AllocFailed<T>) -> TrailError {
        TrailError::Memory
    }
}

impl From<AllocError> for TrailError {
    ghost from_gives = { λ _ r. r ≡ Memory };

    fn from(_error: AllocError) -> TrailError {
        TrailError::Memory
    }
}

/// The different messages that were hashed, in order.
pub struct Trail<H: Hash32> {
    hasher: H,
    messages: Pieces,
    index: IndexMap<Key, usize>,
    collision: Option<usize>,
    cache: Cache,
}

impl<H: Hash32> Model for Trail<H> {
    ghost use Rattle.bm_hash.specs.Keys.{place_in};
    ghost use Rattle.bm_hash.specs.Messages.{Noted, IsTrail};

    ghost Value = { Noted H };

    ghost view = { λ t. record { hasher = t.hasher; messages = t.messages } };

    ghost invariant = { λ t. IsTrail (H.digest_of t.hasher) t.messages (place_in t.index) t.collision };
}

impl<H: Hash32 + Drop> Drop for Trail<H> {
    fn drop(self) {
        let Trail {
            hasher: _,
            messages: _,
            index: _,
            collision: _,
            cache: _,
        } = self;
    }
}

// Makes room for three times as many as there are, where there is none for one more: what is put anew into a larger table lies far apart
// in memory, so that is done seldom. Where there is no memory for so many, the next one asks for what it needs.
fn widen(index: &mut IndexMap<Key, usize>)
    ensures { IsUnchanged index.old index.new }
{
    let count = index.len();
    if count == index.capacity() {
        let _ = index.reserve(count.saturating_mul(3));
    }
}

// Adds the place of a digest.
fn add_place(
    index: &mut IndexMap<Key, usize>,
    digest: [u8; 32],
    place: usize,
) -> Result<(), OutOfMemory>
    ensures indexed { OnOk result (Places index.old index.new digest place) }
    ensures unindexed { OnErr result (IsUnchanged index.old index.new) }
{
    widen(index);
    index.insert(Key { digest }, place)?;
    Ok(())
}

// Adds a message with its digest.
fn add_message(
    messages: &mut Pieces,
    index: &mut IndexMap<Key, usize>,
    digest: [u8; 32],
    message: &[u8],
) -> Result<(), OutOfMemory>
    ensures added { OnOk result (messages.new ≡ messages.old ++ message.now ∷ []) }
    ensures indexed { OnOk result (Places index.old index.new digest (length messages.old)) }
    ensures same { OnErr result (messages.new ≡ messages.old) }
    ensures unindexed { OnErr result (IsUnchanged index.old index.new) }
{
    let place = messages.len();
    if place == 0 {
        messages.expect(ROOM);
    }
    messages.push(message)?;
    if add_place(index, digest, place).is_err() {
        messages.truncate(place);
        return Err(AllocError);
    }
    Ok(())
}

// The digest of the message at a place, where the index leads from it to this very place.
fn digest_at(index: &IndexMap<Key, usize>, place: usize) -> Option<[u8; 32]>
    ensures { IfSome result (λ d. place_in index.now d ≡ Some place) }
{
    let (key, first) = index.get_index(place)?;
    if *first == place {
        Some(key.digest)
    } else {
        None
    }
}

// The digest of a message, if it stands behind one that was found.
fn digest_ahead(
    messages: &Pieces,
    index: &IndexMap<Key, usize>,
    cache: &mut Cache,
    message: &[u8],
) -> Option<[u8; 32]>
    ensures { IfSome result (λ d. IsAt messages.now (place_in index.now d) message.now) }
{
    let place = cache.find_ahead(messages, message)?;
    digest_at(index, place)
}

// The digest of a message, if a cache entry leads to the place where it stands.
fn known_digest(
    messages: &Pieces,
    index: &IndexMap<Key, usize>,
    cache: &mut Cache,
    fingerprint: u64,
    message: &[u8],
) -> Option<[u8; 32]>
    ensures { IfSome result (λ d. IsAt messages.now (place_in index.now d) message.now) }
{
    let place = cache.find(messages, fingerprint, message)?;
    digest_at(index, place)
}

// The same without a note of what was asked for.
fn noted_digest(
    messages: &Pieces,
    index: &IndexMap<Key, usize>,
    cache: &Cache,
    message: &[u8],
) -> Option<[u8; 32]>
    ensures { IfSome result (λ d. IsAt messages.now (place_in index.now d) message.now) }
{
    let place = cache.place_of(messages, cache_key(message), message)?;
    digest_at(index, place)
}

impl<H: Hash32 + Drop> Trail<H> {
    /// A trail of no message.
    pub fn new(alloc: Global, hasher: H) -> Trail<H>
        ensures { result ≡ (record { hasher = hasher; messages = [] }) }
    {
        Trail {
            hasher,
            messages: Pieces::new(alloc),
            index: IndexMap::new(alloc),
            collision: None,
            cache: Cache::new(alloc),
        }
    }

    /// The hash function of the trail.
    pub fn hasher(&self) -> &H
        ensures { result.now ≡ self.now.hasher }
    {
        &self.hasher
    }

    // The digest of a message of this fingerprint that stands on a trail on which nothing collided. To hash it once more would change nothing.
    fn recall(&mut self, fingerprint: u64, message: &[u8]) -> Option<[u8; 32]>
        ensures same { self.new ≡ self.old }
        ensures digest { IfSome result (λ d. d ≡ H.digest_of self.old.hasher message.now) }
        ensures trail { IfSome result (λ d. Hashed (H.digest_of self.old.hasher) self.old.messages self.old.messages (message.now ∷ [])) }
    {
        if self.collision.is_some() {
            return None;
        }
        known_digest(
            &self.messages,
            &self.index,
            &mut self.cache,
            fingerprint,
            message,
        )
    }

    // The same for a message that stands behind one that was found: what was hashed in turn is often asked for in turn.
    fn recall_ahead(&mut self, message: &[u8]) -> Option<[u8; 32]>
        ensures same { self.new ≡ self.old }
        ensures digest { IfSome result (λ d. d ≡ H.digest_of self.old.hasher message.now) }
        ensures trail { IfSome result (λ d. Hashed (H.digest_of self.old.hasher) self.old.messages self.old.messages (message.now ∷ [])) }
    {
        if self.collision.is_some() {
            return None;
        }
        digest_ahead(&self.messages, &self.index, &mut self.cache, message)
    }

    // The digest of a message that stands on a trail on which nothing collided.
    fn noted(&self, message: &[u8]) -> Option<[u8; 32]>
        ensures { IfSome result (λ d. d ≡ H.digest_of self.now.hasher message.now) }
    {
        if self.collision.is_some() {
            return None;
        }
        noted_digest(&self.messages, &self.index, &self.cache, message)
    }

    // The digest of a message of this fingerprint as the hash function gives it; the message is then on the trail.
    fn hash_anew(&mut self, fingerprint: u64, message: &[u8]) -> Result<[u8; 32], TrailError>
        ensures digest { IfOk result (λ d. d ≡ H.digest_of self.old.hasher message.now) }
        ensures trail { Hashes H.digest_of self.old self.new (message.now ∷ []) result }
    {
        if self.collision.is_some() {
            return Err(TrailError::Collided);
        }
        let digest = self.hasher.hash32(message);
        match self.index.get(&Key { digest }).copied() {
            Some(place) => {
                if self.messages.get(place) == message {
                    self.cache.renew(fingerprint, message, place);
                    return Ok(digest);
                }
                self.messages.push(message)?;
                self.collision = Some(place);
                Err(TrailError::Collided)
            }
            None => {
                add_message(&mut self.messages, &mut self.index, digest, message)?;
                self.cache.note_last(fingerprint, message, &self.messages);
                Ok(digest)
            }
        }
    }

    /// The digest of a message, which is then on the trail. The hash function is spared where the message was found there already.
    pub fn hash(&mut self, message: &[u8]) -> Result<[u8; 32], TrailError>
        ensures digest { IfOk result (λ d. d ≡ H.digest_of self.old.hasher message.now) }
        ensures trail { Hashes H.digest_of self.old self.new (message.now ∷ []) result }
    {
        if let Some(digest) = self.recall_ahead(message) {
            return Ok(digest);
        }
        let fingerprint = cache_key(message);
        match self.recall(fingerprint, message) {
            Some(digest) => Ok(digest),
            None => self.hash_anew(fingerprint, message),
        }
    }

    /// The digest of the digest of a message.
    #[tactic(auto, using(crate::proofs::HashesLemmas::hashing))]
    pub fn double(&mut self, message: &[u8]) -> Result<[u8; 32], TrailError>
        ensures digest { IfOk result (λ d. d ≡ H.digest_of self.old.hasher (H.digest_of self.old.hasher message.now)) }
        ensures trail { Hashes H.digest_of self.old self.new (message.now ∷ H.digest_of self.old.hasher message.now ∷ []) result }
    {
        let first = self.hash(message)?;
        let second = self.hash(&first)?;
        Ok(second)
    }

    // The messages at the places that are kept.
    fn collision_pair(&self) -> Option<(&[u8], &[u8])>
        ensures { option_map (λ p. (p.0.now, p.1.now)) result ≡ evidence_of (H.digest_of self.now.hasher) self.now.messages }
    {
        let place = self.collision?;
        let last = self.messages.len() - 1;
        Some((self.messages.get(place), self.messages.get(last)))
    }

    /// Whether two of the messages have one digest.
    pub fn has_collided(&self) -> bool
        ensures { result ≡ is_some (evidence_of (H.digest_of self.now.hasher) self.now.messages) }
    {
        self.collision_pair().is_some()
    }

    /// Two different messages with one digest, the earlier one first.
    pub fn evidence(&self) -> Option<(&[u8], &[u8])>
        ensures pair { option_map (λ p. (p.0.now, p.1.now)) result ≡ evidence_of (H.digest_of self.now.hasher) self.now.messages }
        ensures collision_with { IfSome result (λ p. IsCollision (H.digest_of self.now.hasher) self.now.messages p.0.now p.1.now) }
        ensures apart { IfNone result (HaveApartDigests (H.digest_of self.now.hasher) self.now.messages) }
    {
        self.collision_pair()
    }

    /// The message with this digest.
    pub fn message(&self, digest: &[u8; 32]) -> Option<&[u8]>
        ensures { option_copied result ≡ message_of (H.digest_of self.now.hasher) self.now.messages digest.now }
    {
        let place = self.index.get(&Key { digest: *digest }).copied()?;
        Some(self.messages.get(place))
    }
}

/// The hash function of the trail, which is spared where the message was found there. Nothing is added.
impl<H: Hash32 + Drop> Hash32 for Trail<H> {
    ghost digest_of = { λ t. H.digest_of t.hasher };

    ghost sized = { λ t. H.sized t.hasher };

    ghost bytes = { λ t. H.bytes t.hasher };

    fn hash32(&self, message: &[u8]) -> [u8; 32] {
        match self.noted(message) {
            Some(digest) => digest,
            None => self.hasher.hash32(message),
        }
    }
}
