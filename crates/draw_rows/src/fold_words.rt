//! What a row of events says.

ghost use Rattle.std.specs.Prelude.{◌≡◌, ◌++◌, ◌∷◌, [], codes, map, option_map, IfOk, OnOk};
ghost use Rattle.std.specs.Str.{bytes_eq};
ghost use Rattle.spec_data.specs.Lists.{is_among};
ghost use Rattle.spec_terms.specs.Parties.{add_new, add_all};
ghost use Rattle.spec_run.specs.Translation.{last_or};
ghost use Rattle.spec_text.specs.Canonical.{joined};
ghost use Rattle.spec_text.specs.RunText.{newline};
ghost use Rattle.spec_page.specs.Folds.{turn_line};
ghost use Rattle.spec_page.specs.Stops as spec;
ghost use Rattle.draw_rows.specs.Turns.{turn_of};

use crate::event_words::{actor, put_event_words};
use crate::figures::put_sum;
use crate::folds::Fold;
use crate::lines::line_of;
use crate::reasons::put_refused;
use crate::words::{put_contract, put_joined};
use bm_text::put;
use spec_data::{Bytes, Name, OutOfMemory};
use spec_page::Look;
use spec_run::{Event, Outcome};
use spec_text::Entry;
use std::alloc::Global;

// ---- the steps of a beginning

fn step_word(event: &Event) -> &'static [u8]
    ensures { result.now ≡ spec.step_word event.now }
{
    match event {
        Event::Advertise { .. } => b"advertise",
        Event::Commit { .. } => b"commit",
        Event::Endorse { .. } => b"endorse",
        Event::Init { .. } => b"init",
        Event::FireInit { .. } => b"fire init",
        _ => b"",
    }
}

fn put_step_text(
    alloc: Global,
    out: &mut Vec<u8>,
    several: bool,
    event: &Event,
) -> Result<(), OutOfMemory>
    ensures { OnOk result (out.new.items ≡ out.old.items ++ spec.step_text several event.now) }
{
    match event {
        Event::Advertise { contract, .. } => put_contract(alloc, out, several, *contract),
        Event::Commit { contract, .. } => put_contract(alloc, out, several, *contract),
        Event::Endorse { contract, .. } => put_contract(alloc, out, several, *contract),
        Event::Init { contract, .. } => put_contract(alloc, out, several, *contract),
        Event::FireInit { contract } => put_contract(alloc, out, several, *contract),
        _ => Ok(()),
    }
}

fn are_same(one: &[u8], other: &[u8]) -> bool
    ensures { result ≡ bytes_eq one.now other.now }
{
    *one == *other
}

fn is_word_among(words: &[Bytes], word: &[u8]) -> bool
    ensures { result ≡ is_among word.now words.now }
{
    for known in words {
        if are_same(known.as_slice(), word) {
            return true;
        }
    }
    false
}

// Adds a word if it is new.
fn add_word(alloc: Global, words: &mut Vec<Bytes>, word: &[u8]) -> Result<(), OutOfMemory>
    ensures { OnOk result (words.new.items ≡ add_new words.old.items word.now) }
{
    if is_word_among(words, word) {
        return Ok(());
    }
    let copy = Bytes::from_slice(alloc, word)?;
    words.push(copy)?;
    Ok(())
}

fn add_words(alloc: Global, words: &mut Vec<Bytes>, entries: &[Entry]) -> Result<(), OutOfMemory>
    ensures { OnOk result (words.new.items
        ≡ add_all words.old.items (map (λ t. spec.step_word t.event) (map turn_of entries.now))) }
{
    for entry in entries {
        add_word(alloc, words, step_word(&entry.event))?;
    }
    Ok(())
}

// Each kind once.
#[tactic(auto, using(std::proofs::Common::append_assoc))]
fn put_steps(
    alloc: Global,
    out: &mut Vec<u8>,
    several: bool,
    entry: &Entry,
    others: &[Entry],
) -> Result<(), OutOfMemory>
    ensures { OnOk result (out.new.items ≡ out.old.items
        ++ spec.steps_words several (turn_of entry.now ∷ map turn_of others.now) entry.now.event) }
{
    let mut words = Vec::new(alloc);
    add_word(alloc, &mut words, step_word(&entry.event))?;
    add_words(alloc, &mut words, others)?;
    put_step_text(alloc, out, several, &entry.event)?;
    put_joined(out, b", ", &words)
}

/// The words of a fold, of equal events or of a beginning.
pub(crate) fn fold_words(
    alloc: Global,
    several: bool,
    plain: bool,
    fold: &Fold,
) -> Result<Bytes, OutOfMemory>
    ensures { IfOk result (λ text. text ≡ spec.words_by several plain fold.now) }
{
    let mut text = Vec::new(alloc);
    if plain {
        let moment = &fold.moment;
        let entry = &fold.entry;
        put_event_words(
            alloc,
            &mut text,
            several,
            &moment.places,
            entry.steps.as_slice(),
            &entry.event,
        )?;
    } else {
        put_steps(alloc, &mut text, several, &fold.entry, &fold.others)?;
    }
    Ok(Bytes::of(text))
}

// ---- lines

#[tactic(auto, using(std::proofs::Common::append_assoc))]
fn put_lines(alloc: Global, lines: &mut Vec<Bytes>, entries: &[Entry]) -> Result<(), OutOfMemory>
    ensures { OnOk result (lines.new.items ≡ lines.old.items ++ map turn_line (map turn_of entries.now)) }
{
    for entry in entries {
        let line = line_of(alloc, entry)?;
        lines.push(Bytes::of(line))?;
    }
    Ok(())
}

fn all_lines(alloc: Global, entry: &Entry, others: &[Entry]) -> Result<Vec<u8>, OutOfMemory>
    ensures { IfOk result (λ text. text.items ≡ joined newline (map turn_line (turn_of entry.now ∷ map turn_of others.now))) }
{
    let mut lines = Vec::new(alloc);
    let first = line_of(alloc, entry)?;
    lines.push(Bytes::of(first))?;
    put_lines(alloc, &mut lines, others)?;
    let mut text = Vec::new(alloc);
    put_joined(&mut text, b"\n", &lines)?;
    Ok(text)
}

/// The lines of its events, one where all are equal.
pub(crate) fn fold_lines(alloc: Global, plain: bool, fold: &Fold) -> Result<Bytes, OutOfMemory>
    ensures { IfOk result (λ text. text ≡ spec.lines_by plain fold.now) }
{
    let text = if plain {
        line_of(alloc, &fold.entry)?
    } else {
        all_lines(alloc, &fold.entry, &fold.others)?
    };
    Ok(Bytes::of(text))
}

// ---- who acts, and how it looks

pub(crate) fn fold_actor(plain: bool, fold: &Fold) -> Option<Name>
    ensures { result ≡ spec.actor_by plain fold.now.turn }
{
    if plain {
        actor(fold.entry.steps.as_slice(), &fold.entry.event)
    } else {
        None
    }
}

/// Whether an event lets blocks come.
pub(crate) fn brings_blocks(event: &Event) -> bool
    ensures { result ≡ spec.brings_blocks event.now }
{
    match event {
        Event::Mine { .. } => true,
        _ => false,
    }
}

fn look_by(blocks: bool, outcome: &Outcome) -> Look
    ensures { result ≡ spec.look_by blocks outcome.now }
{
    match outcome {
        Outcome::Refused(_) => Look::Refused,
        Outcome::Accepted { .. } => Look::Accepted,
        Outcome::Done => { if blocks { Look::Blocks } else { Look::Done } }
    }
}

fn last_of<'a>(entry: &'a Entry, others: &'a [Entry]) -> &'a Entry
    ensures { turn_of result.now ≡ last_or (turn_of entry.now) (map turn_of others.now) }
{
    let mut last = entry;
    for other in others {
        last = other;
    }
    last
}

pub(crate) fn fold_look(fold: &Fold) -> Look
    ensures { result ≡ spec.fold_look fold.now }
{
    let last = last_of(&fold.entry, &fold.others);
    look_by(brings_blocks(&fold.entry.event), &last.outcome)
}

#[tactic(auto, using(std::proofs::Common::append_assoc))]
fn height_text(alloc: Global, height: u32) -> Result<Bytes, OutOfMemory>
    ensures { IfOk result (λ text. text ≡ spec.height_text height) }
{
    let mut text = Vec::new(alloc);
    put(&mut text, b"height ")?;
    put_sum(alloc, &mut text, height as u64)?;
    Ok(Bytes::of(text))
}

/// Why it was refused, or the height.
pub(crate) fn note_of(
    alloc: Global,
    blocks: bool,
    height: u32,
    outcome: &Outcome,
) -> Result<Bytes, OutOfMemory>
    ensures { IfOk result (λ text. text ≡ spec.note_by blocks height outcome.now) }
{
    match outcome {
        Outcome::Refused(reason) => {
            let mut text = Vec::new(alloc);
            put_refused(alloc, &mut text, reason)?;
            Ok(Bytes::of(text))
        }
        Outcome::Accepted { .. } => Ok(Bytes::of(Vec::new(alloc))),
        Outcome::Done => {
            if blocks {
                height_text(alloc, height)
            } else {
                Ok(Bytes::of(Vec::new(alloc)))
            }
        }
    }
}
