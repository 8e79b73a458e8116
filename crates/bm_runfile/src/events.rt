//! The event that a line spells.

ghost use Rattle.std.specs.Prelude.{◌≡◌, length, map};
ghost use Rattle.std.specs.Str.{bytes_eq};
ghost use Rattle.spec_text.specs.EventLines.{event_by, event_of};
ghost use Rattle.spec_text.specs.RunFile.{event_words, event_of_line};
ghost use Rattle.bm_runfile.specs.Gives.{Reads, Takes};
ghost use Rattle.bm_runfile.specs.OtherEvents.{other_event_by};

use crate::error::{LineError, WordError};
use crate::event_words::{
    advertise, append, authorise, commit, endorse, fire, give, init, mine, post, reveal, sign,
};
use crate::limits::MOST_LINE_BYTES;
use crate::lines::read_words;
use spec_data::{MOST_EVENTS, Name};
use spec_run::Event;
use spec_text::RunLimit;
use std::alloc::Global;

/// Whether a word is this one. Most first words are told apart by their length or their first byte.
#[inline]
fn are_same(word: &[u8], other: &[u8]) -> bool
    ensures { result ≡ bytes_eq word.now other.now }
{
    if word.len() != other.len() {
        return false;
    }
    for (i, byte) in word.iter().enumerate() {
        if *byte != other[i] {
            return false;
        }
    }
    true
}

/// The event of a line by its first word, one of the last six.
fn other_event_by<'a>(
    alloc: Global,
    word: &[u8],
    parties: &[Name],
    words: &'a [&'a [u8]],
) -> Result<Event, WordError>
    ensures { Reads (λ e. e) result (other_event_by word.now parties.now (map (λ w. w.now) words.now)) }
{
    if are_same(word, b"post") {
        return post(alloc, parties, words);
    }
    if are_same(word, b"sign") {
        return sign(alloc, parties, words);
    }
    if are_same(word, b"give") {
        return give(alloc, parties, words);
    }
    if are_same(word, b"append") {
        return append(alloc, parties, words);
    }
    if are_same(word, b"fire") {
        return fire(parties, words).ok_or(WordError::Bad);
    }
    if are_same(word, b"mine") {
        return mine(parties, words).ok_or(WordError::Bad);
    }
    Err(WordError::Bad)
}

/// The event of a line by its first word. The kind of which long runs have most lines is tried first.
#[tactic(auto, using(crate::proofs::MineLemmas::mines))]
fn event_by<'a>(
    alloc: Global,
    word: &[u8],
    parties: &[Name],
    words: &'a [&'a [u8]],
) -> Result<Event, WordError>
    ensures { Reads (λ e. e) result (event_by word.now parties.now (map (λ w. w.now) words.now)) }
{
    if are_same(word, b"mine") {
        return mine(parties, words).ok_or(WordError::Bad);
    }
    if are_same(word, b"advertise") {
        return advertise(alloc, parties, words);
    }
    if are_same(word, b"commit") {
        return commit(alloc, parties, words);
    }
    if are_same(word, b"endorse") {
        return endorse(parties, words).ok_or(WordError::Bad);
    }
    if are_same(word, b"init") {
        return init(parties, words).ok_or(WordError::Bad);
    }
    if are_same(word, b"authorise") {
        return authorise(parties, words).ok_or(WordError::Bad);
    }
    if are_same(word, b"reveal") {
        return reveal(parties, words).ok_or(WordError::Bad);
    }
    other_event_by(alloc, word, parties, words)
}

/// The event that the words of a line spell.
fn event_of<'a>(alloc: Global, parties: &[Name], words: &'a [&'a [u8]]) -> Result<Event, WordError>
    ensures { Reads (λ e. e) result (event_of parties.now (map (λ w. w.now) words.now)) }
{
    let [word, rest @ ..] = words else {
        return Err(WordError::Bad);
    };
    event_by(alloc, word, parties, rest)
}

/// Takes the words of a line: nothing, or an event.
fn take_words<'a>(
    alloc: Global,
    parties: &[Name],
    events: &mut Vec<Event>,
    words: &'a [&'a [u8]],
) -> Result<(), LineError>
    ensures { Takes events.old.items events.new.items result (event_words parties.now (length events.old.items) (map (λ w. w.now) words.now)) }
{
    if words.is_empty() {
        return Ok(());
    }
    let event = event_of(alloc, parties, words)?;
    if events.len() >= MOST_EVENTS {
        return Err(LineError::Over(RunLimit::Events));
    }
    events.push(event)?;
    Ok(())
}

/// Takes one line of the events. Its words come into the room of those of the line before.
pub(crate) fn take_event<'a>(
    alloc: Global,
    parties: &[Name],
    events: &mut Vec<Event>,
    words: &mut Vec<&'a [u8]>,
    line: &'a [u8],
) -> Result<(), LineError>
    ensures { Takes events.old.items events.new.items result (event_of_line parties.now (length events.old.items) line.now) }
{
    // Files with many empty lines are read as fast as their bytes.
    if line.is_empty() {
        return Ok(());
    }
    if line.len() > MOST_LINE_BYTES {
        return Err(LineError::Over(RunLimit::Line));
    }
    read_words(words, line)?;
    take_words(alloc, parties, events, words.as_slice())
}
