//! What a word of a line says: numbers, outputs, names and digests.

ghost use Rattle.std.specs.Prelude.{◌≡◌};
ghost use Rattle.std.specs.List.{list_all};
ghost use Rattle.spec_terms.specs.Readable.{is_letter, is_name_byte, is_word, is_name, keywords};
ghost use Rattle.spec_data.specs.Lists.{is_among};
ghost use Rattle.spec_data.specs.Digits.{read_hex};
ghost use Rattle.spec_text.specs.Words.{small, amount, output, a_name, one_of, digest};
ghost use Rattle.bm_runfile.specs.Gives.{Reads};

use crate::error::WordError;
use bm_text::{HexError, read_decimal};
use spec_data::Name;
use std::alloc::Global;

/// A number of a contract, an output, a branch or blocks.
pub fn small(word: &[u8]) -> Option<u32>
    ensures { result ≡ small word.now }
{
    let number = read_decimal(word)?;
    if number > u32::MAX as u64 {
        return None;
    }
    Some(number as u32)
}

pub(crate) fn amount(word: &[u8]) -> Option<u64>
    ensures { result ≡ amount word.now }
{
    read_decimal(word)
}

/// An output: `#` and its number.
pub(crate) fn output(word: &[u8]) -> Option<u32>
    ensures { result ≡ output word.now }
{
    match word {
        [first, digits @ ..] => { if *first == b'#' { small(digits) } else { None } }
        [] => None,
    }
}

fn is_letter(b: u8) -> bool
    ensures { result ≡ is_letter b }
{
    b'A' <= b && b <= b'Z' || b'a' <= b && b <= b'z'
}

fn is_name_byte(b: u8) -> bool
    ensures { result ≡ is_name_byte b }
{
    is_letter(b) || b'0' <= b && b <= b'9' || b == b'_'
}

fn are_name_bytes(word: &[u8]) -> bool
    ensures { result ≡ list_all is_name_byte word.now }
{
    word.iter().all(|b| is_name_byte(*b))
}

fn is_keyword(word: &[u8]) -> bool
    ensures { result ≡ is_among word.now keywords }
{
    b"put".as_slice() == word
        || b"reveal".as_slice() == word
        || b"if".as_slice() == word
        || b"withdraw".as_slice() == word
        || b"split".as_slice() == word
        || b"after".as_slice() == word
        || b"secret".as_slice() == word
        || b"true".as_slice() == word
        || b"and".as_slice() == word
        || b"not".as_slice() == word
        || b"fee".as_slice() == word
        || b"Outside".as_slice() == word
}

fn is_word(word: &[u8]) -> bool
    ensures { result ≡ is_word word.now }
{
    match word {
        [first, rest @ ..] => is_letter(*first) && are_name_bytes(rest),
        [] => false,
    }
}

#[tactic(auto, unfolding(spec_terms::specs::Readable::is_name))]
pub(crate) fn is_name(word: &[u8]) -> bool
    ensures { result ≡ is_name word.now }
{
    is_word(word) && word.len() <= 32 && !is_keyword(word)
}

/// A name of contract text.
pub fn a_name(word: &[u8]) -> Option<Name>
    ensures { result ≡ a_name word.now }
{
    if !is_name(word) {
        return None;
    }
    Name::new(word)
}

/// The name that a word is, where it is one of these.
pub fn one_of(names: &[Name], word: &[u8]) -> Option<Name>
    ensures { result ≡ one_of names.now word.now }
{
    for name in names {
        if name.bytes() == word {
            return Some(*name);
        }
    }
    None
}

/// Bytes in hexadecimal.
pub fn read_bytes(alloc: Global, word: &[u8]) -> Result<Vec<u8>, WordError>
    ensures { Reads (λ v. v.items) result (read_hex word.now) }
{
    match bm_text::read_hex(alloc, word) {
        Ok(bytes) => Ok(bytes),
        Err(HexError::Bad) => Err(WordError::Bad),
        Err(HexError::Memory) => Err(WordError::Memory),
    }
}

/// A digest: 32 bytes.
pub fn digest(alloc: Global, word: &[u8]) -> Result<[u8; 32], WordError>
    ensures { Reads (λ d. d) result (digest word.now) }
{
    let bytes = read_bytes(alloc, word)?;
    match <[u8; 32]>::try_from(bytes.as_slice()) {
        Ok(digest) => Ok(digest),
        Err(_) => Err(WordError::Bad),
    }
}
