//! What a rule does, by its verb and the words behind the contract's number.

ghost use Rattle.std.specs.Prelude.{◌≡◌, map};
ghost use Rattle.spec_tool.specs.Strategy as spec;
ghost use Rattle.bm_runfile.specs.Gives.{Reads};

use bm_runfile::{WordError, a_name, read_path};
use spec_tool::Act;
use std::alloc::Global;

/// An act without more words.
fn alone(act: Act, words: &[&[u8]]) -> Option<Act>
    ensures { result ≡ spec.alone act (map (λ w. w.now) words.now) }
{
    match words {
        [] => Some(act),
        _ => None,
    }
}

/// `authorise 0 PATH`
fn authorise(alloc: Global, words: &[&[u8]]) -> Result<Act, WordError>
    ensures { Reads (λ a. a) result (spec.authorise_act (map (λ w. w.now) words.now)) }
{
    let [word] = words else {
        return Err(WordError::Bad);
    };
    let path = read_path(alloc, word)?;
    Ok(Act::Authorise(path))
}

/// `reveal 0 a`
fn reveal(words: &[&[u8]]) -> Option<Act>
    ensures { result ≡ spec.reveal_act (map (λ w. w.now) words.now) }
{
    let [word] = words else {
        return None;
    };
    let secret = a_name(word)?;
    Some(Act::Reveal(secret))
}

/// `fire 0 init` or `fire 0 PATH`
fn fire(alloc: Global, words: &[&[u8]]) -> Result<Act, WordError>
    ensures { Reads (λ a. a) result (spec.fire_act (map (λ w. w.now) words.now)) }
{
    let [word] = words else {
        return Err(WordError::Bad);
    };
    if *word == b"init".as_slice() {
        return Ok(Act::FireInit);
    }
    let path = read_path(alloc, word)?;
    Ok(Act::Fire(path))
}

/// The act of a line by its verb.
pub(crate) fn act_by(alloc: Global, verb: &[u8], words: &[&[u8]]) -> Result<Act, WordError>
    ensures { Reads (λ a. a) result (spec.act_by verb.now (map (λ w. w.now) words.now)) }
{
    if verb == b"commit".as_slice() {
        return alone(Act::Commit, words).ok_or(WordError::Bad);
    }
    if verb == b"endorse".as_slice() {
        return alone(Act::Endorse, words).ok_or(WordError::Bad);
    }
    if verb == b"init".as_slice() {
        return alone(Act::Init, words).ok_or(WordError::Bad);
    }
    if verb == b"authorise".as_slice() {
        return authorise(alloc, words);
    }
    if verb == b"reveal".as_slice() {
        return reveal(words).ok_or(WordError::Bad);
    }
    if verb == b"fire".as_slice() {
        return fire(alloc, words);
    }
    Err(WordError::Bad)
}
