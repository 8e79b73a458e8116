//! Scripts from addresses.

ghost use Rattle.std.specs.Prelude.{◌≡◌, ◌<◌, ◌≤◌, ◌+◌, ◌-◌, ◌∷◌, ◌==◌, IfOk, length, take, drop, map, slice_index};
ghost use Rattle.std.specs.Char.{to_ascii_uppercase};
ghost use Rattle.std.specs.Str.{bytes_eq, str_to_ascii_lowercase, str_to_ascii_uppercase};
ghost use Rattle.spec_address.specs.Address as spec;

use crate::groups::bytes_of;
use crate::letters::value_of;
use crate::outputs::operation_of;
use crate::writing::{MOST_CHARACTERS, address};
use spec_data::{Bytes, OutOfMemory};
use std::alloc::Global;

// Whether a character is another in capitals.
fn is_capital_of(character: u8, letter: u8) -> bool
    ensures { result ≡ (character == to_ascii_uppercase letter) }
{
    character == letter.to_ascii_uppercase()
}

// Whether a word is a text in capitals.
fn is_capitals_of(word: &[u8], text: &[u8]) -> bool
    ensures { result ≡ bytes_eq word.now (str_to_ascii_uppercase text.now) }
{
    if word.len() != text.len() {
        return false;
    }
    for (i, character) in word.iter().enumerate() {
        if !is_capital_of(*character, text[i]) {
            return false;
        }
    }
    true
}

// Whether a word is a text, or the text in capitals.
fn spells(word: &[u8], text: &Option<Bytes>) -> bool
    ensures { result ≡ spec.spells word.now text.now }
{
    match text {
        Some(text) => word == text.as_slice() || is_capitals_of(word, text.as_slice()),
        None => false,
    }
}

// The values of letters of either case.
fn letter_values(alloc: Global, letters: &[u8]) -> Result<Vec<u8>, OutOfMemory>
    ensures { IfOk result (λ values. values.items ≡ map spec.value_of (str_to_ascii_lowercase letters.now)) }
{
    let mut values = Vec::new(alloc);
    for letter in letters {
        values.push(value_of(letter.to_ascii_lowercase()))?;
    }
    Ok(values)
}

// What stands behind a human-readable part and the separator.
fn behind<'a>(hrp: &[u8], word: &'a [u8]) -> &'a [u8]
    ensures { result.now ≡ drop (length hrp.now + 1) word.now }
{
    &word[(hrp.len() + 1).min(word.len())..]
}

// The version, which is the first of the values.
fn version_in(values: &[u8]) -> u8
    ensures { result ≡ slice_index values.now 0 }
{
    match values.first() {
        Some(version) => *version,
        None => 0,
    }
}

// The groups of the program, between the version and the six values of the checksum.
fn groups_in(values: &[u8]) -> &[u8]
    ensures { result.now ≡ take (length values.now - 7) (drop 1 values.now) }
{
    match values {
        [] => values,
        [_, rest @ ..] => &rest[..rest.len().saturating_sub(6)],
    }
}

// An operation, the size of a program, and the program.
fn output(alloc: Global, operation: u8, program: &[u8]) -> Result<Vec<u8>, OutOfMemory>
    requires { length program.now < 256 }
    ensures { IfOk result (λ script. script.items ≡ operation ∷ length program.now ∷ program.now) }
{
    let mut script = Vec::new(alloc);
    script.push(operation)?;
    script.push(program.len() as u8)?;
    script.extend_from_slice(program)?;
    Ok(script)
}

// The script of values: their version, and the program of their groups.
fn script_of(alloc: Global, values: &[u8]) -> Result<Vec<u8>, OutOfMemory>
    requires most { length values.now ≤ 90 }
    requires small { slice_index values.now 0 < 32 }
    ensures { IfOk result (λ script. script.items ≡ spec.script_of values.now) }
{
    let operation = operation_of(version_in(values));
    let program = bytes_of(alloc, groups_in(values))?;
    output(alloc, operation, program.as_slice())
}

// The script that a word of at most 90 characters is the address of.
fn read_short(alloc: Global, hrp: &[u8], word: &[u8]) -> Result<Option<Bytes>, OutOfMemory>
    requires { length word.now ≤ 90 }
    ensures { IfOk result (λ script. script ≡ spec.read_address hrp.now word.now) }
{
    let values = letter_values(alloc, behind(hrp, word))?;
    let script = script_of(alloc, &values)?;
    let text = address(alloc, hrp, &script)?;
    if !spells(word, &text) {
        return Ok(None);
    }
    Ok(Some(Bytes::of(script)))
}

/// The script that a word is the address of, for the network of a human-readable part, by BIP 173 and BIP 350: with the
/// checksum of its version, in one case, and with at most 4 bits behind its program, all of them 0. There is at most one.
pub fn read_address(alloc: Global, hrp: &[u8], word: &[u8]) -> Result<Option<Bytes>, OutOfMemory>
    ensures { IfOk result (λ script. script ≡ spec.read_address hrp.now word.now) }
{
    if word.len() > MOST_CHARACTERS {
        return Ok(None);
    }
    read_short(alloc, hrp, word)
}
