//! What a line of a file of secrets says.

ghost use Rattle.std.specs.Prelude.{◌≡◌, ◌∷◌, [], ℕ, List, Some, None, map, option_map, true, IfOk, IfSome, OnOk};
ghost use Rattle.std.specs.List.{find};
ghost use Rattle.std.specs.Str.{bytes_eq};
ghost use Rattle.spec_data.specs.Digits as digits;
ghost use Rattle.spec_data.specs.Lists.{is_among};
ghost use Rattle.spec_data.specs.Messages.{collision_with};
ghost use Rattle.spec_text.specs.Lines.{words_of};
ghost use Rattle.spec_text.specs.Words.{one_of};
ghost use Rattle.spec_compiler.specs.Keyed.Instance.{Instance};
ghost use Rattle.spec_deal.specs.declared.entry.Shown.{Shown as Told};
ghost use Rattle.spec_deal.specs.Needed.{needed_secrets};
ghost use Rattle.spec_deal.specs.SecretFile as spec;
ghost use Rattle.bm_hash.specs.Messages.{evidence_of};
ghost use Rattle.deal_secrets.specs.Gives.{Leads, LeadsOn, IsHashed, Takes, reads_over};
ghost use Rattle.deal_secrets.specs.Offers.{string_of, shown_at, Judges, JudgesNew, JudgesLine};

use crate::error::LineError;
use crate::required::{fits, secret_named};
use crate::strings::{Strings, has_length};
use bm_hash::{Hash32, Trail, TrailError};
use bm_runfile::words_of;
use bm_text::{HexError, read_hex};
use bm_wellformed::Checked;
use spec_data::{Bytes, Name};
use spec_deal::{SecretReason, Shown};
use std::alloc::Global;

// The string that a word gives to a secret.
fn shown_by(alloc: Global, line: u32, name: Name, word: &[u8]) -> Result<Shown, LineError>
    ensures leads { (hash : List ℕ → List ℕ) (s : Instance) (messages : List (List ℕ)) (taken : List Told)
        → Leads hash s messages taken result (spec.with_bytes hash s messages taken line name (digits.read_hex word.now)) }
    ensures shown { IfOk result (λ shown. Some shown ≡ option_map (string_of line name) (digits.read_hex word.now)) }
{
    match read_hex(alloc, word) {
        Ok(bytes) => Ok(Shown {
            line,
            name,
            bytes: Bytes::of(bytes),
        }),
        Err(HexError::Bad) => Err(LineError::Bad(SecretReason::Value)),
        Err(HexError::Memory) => Err(LineError::Memory),
    }
}

// The name of the secret that a word is, if the contract has it.
fn secret_of(checked: &Checked, word: &[u8]) -> Option<Name>
    ensures { result ≡ one_of (needed_secrets checked.now) word.now }
{
    secret_named(&checked.advert().pre, word)
}

// What these words behind the first give.
fn named(
    alloc: Global,
    checked: &Checked,
    line: u32,
    name: &[u8],
    word: &[u8],
) -> Result<Shown, LineError>
    ensures leads { (hash : List ℕ → List ℕ) (s : Instance) (messages : List (List ℕ)) (taken : List Told) → s.advert ≡ checked.now
        → Leads hash s messages taken result (spec.named_line hash s messages taken line name.now word.now) }
    ensures shown { IfOk result (λ shown. Some shown ≡ option_map (string_of line name.now) (digits.read_hex word.now)) }
{
    match secret_of(checked, name) {
        Some(name) => shown_by(alloc, line, name, word),
        None => Err(LineError::Bad(SecretReason::Foreign)),
    }
}

// What the words of a line give.
fn secret_line(
    alloc: Global,
    checked: &Checked,
    line: u32,
    words: &[&[u8]],
) -> Result<Shown, LineError>
    ensures leads { (hash : List ℕ → List ℕ) (s : Instance) (messages : List (List ℕ)) (taken : List Told) → s.advert ≡ checked.now
        → Leads hash s messages taken result (spec.secret_line hash s messages taken line (map (λ w. w.now) words.now)) }
    ensures shown { IfOk result (λ shown. Some shown ≡ shown_at line (map (λ w. w.now) words.now)) }
{
    match words {
        [first, name, word] => {
            if *first == b"secret".as_slice() {
                named(alloc, checked, line, name, word)
            } else {
                Err(LineError::Bad(SecretReason::Form))
            }
        }
        _ => Err(LineError::Bad(SecretReason::Form)),
    }
}

// Whether a word begins a line, other than that of a secret, of a text that says where a deal stands.
fn is_of_state(word: &[u8]) -> bool
    ensures { result ≡ is_among word.now spec.state_words }
{
    b"confirmed".as_slice() == word
        || b"step".as_slice() == word
        || b"gone".as_slice() == word
        || b"live".as_slice() == word
        || b"paid".as_slice() == word
        || b"height".as_slice() == word
        || b"can".as_slice() == word
        || b"cannot".as_slice() == word
        || b"needs".as_slice() == word
        || b"never:".as_slice() == word
        || b"waits".as_slice() == word
        || b"unverified".as_slice() == word
}

// Whether these words of a line say nothing of secrets: there are none, or they are of such a line.
fn is_read_over(words: &[&[u8]]) -> bool
    ensures { result ≡ reads_over (map (λ w. w.now) words.now) }
{
    match words {
        [] => true,
        [first, ..] => is_of_state(first),
    }
}

// What a line gives, if it isn't read over.
fn shown_of(
    alloc: Global,
    checked: &Checked,
    line: u32,
    words: &[&[u8]],
) -> Result<Option<Shown>, LineError>
    ensures leads { (hash : List ℕ → List ℕ) (s : Instance) (messages : List (List ℕ)) (taken : List Told) → s.advert ≡ checked.now
        → LeadsOn hash s messages taken result (spec.line_says hash s messages taken line (map (λ w. w.now) words.now)) }
    ensures shown { IfOk result (λ o. IfSome o (λ shown. Some shown ≡ shown_at line (map (λ w. w.now) words.now))) }
{
    if is_read_over(words) {
        return Ok(None);
    }
    match secret_line(alloc, checked, line, words) {
        Ok(shown) => Ok(Some(shown)),
        Err(error) => Err(error),
    }
}

// The digest of a string, which is hashed.
fn hash_of<H: Hash32 + Drop>(trail: &mut Trail<H>, bytes: &[u8]) -> Result<[u8; 32], LineError>
    requires { evidence_of (H.digest_of trail.old.hasher) trail.old.messages ≡ None }
    ensures hasher { trail.new.hasher ≡ trail.old.hasher }
    ensures hashed { IsHashed (H.digest_of trail.old.hasher) trail.old.messages trail.new.messages bytes.now result }
{
    match trail.hash(bytes) {
        Ok(digest) => Ok(digest),
        Err(TrailError::Collided) => Err(LineError::Collided),
        Err(TrailError::Memory) => Err(LineError::Memory),
    }
}

// Takes a string that is new and has as many bytes as a secret, unless it hasn't the hash that its secret is to have. It is hashed.
fn take_new<H: Hash32 + Drop>(
    alloc: Global,
    trail: &mut Trail<H>,
    hashes: Option<&[(Name, [u8; 32])]>,
    strings: &mut Strings,
    shown: Shown,
) -> Result<(), LineError>
    requires clear { evidence_of (H.digest_of trail.old.hasher) trail.old.messages ≡ None }
    requires length { spec.has_length shown.bytes ≡ true }
    ensures hasher { trail.new.hasher ≡ trail.old.hasher }
    ensures clear { OnOk result (evidence_of (H.digest_of trail.old.hasher) trail.new.messages ≡ None) }
    ensures takes { let hash = H.digest_of trail.old.hasher in
        (s : Instance) → Judges hash s (option_map (λ h. h.now) hashes.entry) shown
        → Takes hash trail.old.messages trail.new.messages strings.old strings.new result
        (spec.hashed_line hash s shown (collision_with hash trail.old.messages shown.bytes)) }
{
    let digest = hash_of(trail, shown.bytes.as_slice())?;
    if !fits(hashes, &shown.name, &digest) {
        return Err(LineError::Bad(SecretReason::Hash));
    }
    strings.push(alloc, shown)?;
    Ok(())
}

// Takes a string that a line gives.
fn take_shown<H: Hash32 + Drop>(
    alloc: Global,
    trail: &mut Trail<H>,
    hashes: Option<&[(Name, [u8; 32])]>,
    strings: &mut Strings,
    shown: Shown,
) -> Result<(), LineError>
    requires clear { evidence_of (H.digest_of trail.old.hasher) trail.old.messages ≡ None }
    ensures hasher { trail.new.hasher ≡ trail.old.hasher }
    ensures clear { OnOk result (evidence_of (H.digest_of trail.old.hasher) trail.new.messages ≡ None) }
    ensures takes { let hash = H.digest_of trail.old.hasher in
        (s : Instance) → JudgesNew hash s (option_map (λ h. h.now) hashes.entry) strings.old shown
        → Takes hash trail.old.messages trail.new.messages strings.old strings.new result
        (spec.if_new hash s trail.old.messages shown (find (λ (x : Told). bytes_eq x.name shown.name) strings.old)) }
{
    if let Some(earlier) = strings.line_for(&shown.name) {
        return Err(LineError::Bad(SecretReason::Repeated(earlier)));
    }
    if !has_length(shown.bytes.as_slice()) {
        return Err(LineError::Bad(SecretReason::Length));
    }
    take_new(alloc, trail, hashes, strings, shown)
}

/// Takes a line of this number.
pub(crate) fn take_line<H: Hash32 + Drop>(
    alloc: Global,
    trail: &mut Trail<H>,
    checked: &Checked,
    hashes: Option<&[(Name, [u8; 32])]>,
    strings: &mut Strings,
    number: u32,
    line: &[u8],
) -> Result<(), LineError>
    requires clear { evidence_of (H.digest_of trail.old.hasher) trail.old.messages ≡ None }
    ensures hasher { trail.new.hasher ≡ trail.old.hasher }
    ensures clear { OnOk result (evidence_of (H.digest_of trail.old.hasher) trail.new.messages ≡ None) }
    ensures takes { let hash = H.digest_of trail.old.hasher in
        (s : Instance) → s.advert ≡ checked.now
        → JudgesLine hash s (option_map (λ h. h.now) hashes.entry) strings.old number (words_of line.now)
        → Takes hash trail.old.messages trail.new.messages strings.old strings.new result
        (spec.line_says hash s trail.old.messages strings.old number (words_of line.now)) }
{
    let words = words_of(alloc, line)?;
    match shown_of(alloc, checked, number, &words)? {
        Some(shown) => take_shown(alloc, trail, hashes, strings, shown),
        None => Ok(()),
    }
}
