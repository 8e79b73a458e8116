//! What a line of a chain file says.

ghost use Rattle.std.specs.Prelude.{◌≡◌, map, Some, IfOk};
ghost use Rattle.spec_data.specs.Digits as digits;
ghost use Rattle.spec_bitcoin.specs.Reading.{transaction_of};
ghost use Rattle.spec_text.specs.Lines.{words_of};
ghost use Rattle.spec_chain.specs.ChainFile as spec;

use bm_runfile::words_of;
use bm_text::{HexError, read_decimal, read_hex};
use bm_tx::{TxError, decode};
use spec_chain::{ChainReason, Line};
use spec_data::OutOfMemory;
use std::alloc::{AllocError, Global};

// The greatest height that a lock can name.
const LAST_HEIGHT: u64 = 499_999_999;

// The height that a word spells.
fn height_of(word: &[u8]) -> Option<u32>
    ensures { result ≡ spec.height_of word.now }
{
    let number = read_decimal(word)?;
    if number > LAST_HEIGHT {
        return None;
    }
    Some(number as u32)
}

// A height behind the one last given; heights don't fall.
fn rises_to(height: u32, next: Option<u32>) -> Line
    ensures { result ≡ spec.rises_to height next }
{
    match next {
        Some(next) => {
            if height <= next {
                Line::Rises(next)
            } else {
                Line::Bad(ChainReason::Height)
            }
        }
        None => Line::Bad(ChainReason::Height),
    }
}

// The transaction that bytes spell.
fn spelled_by(alloc: Global, bytes: &[u8]) -> Result<Line, OutOfMemory>
    ensures { IfOk result (λ line. line ≡ spec.with_bytes (Some bytes.now)) }
{
    match decode(alloc, bytes) {
        Ok(tx) => Ok(Line::Confirms(tx)),
        Err(TxError::BadTx(_)) => Ok(Line::Bad(ChainReason::Tx)),
        Err(TxError::Memory) => Err(AllocError),
    }
}

// The transaction of a word.
fn with_word(alloc: Global, word: &[u8]) -> Result<Line, OutOfMemory>
    ensures { IfOk result (λ line. line ≡ spec.with_bytes (digits.read_hex word.now)) }
{
    match read_hex(alloc, word) {
        Ok(bytes) => spelled_by(alloc, &bytes),
        Err(HexError::Bad) => Ok(Line::Bad(ChainReason::Tx)),
        Err(HexError::Memory) => Err(AllocError),
    }
}

// The transaction of a word, in a block of this height.
fn tx_line(alloc: Global, height: u32, word: &[u8]) -> Result<Line, OutOfMemory>
    ensures { IfOk result (λ line. line ≡ spec.tx_line height word.now) }
{
    if height == 0 {
        return Ok(Line::Bad(ChainReason::Height));
    }
    with_word(alloc, word)
}

// What two words say.
fn pair_says(alloc: Global, height: u32, word: &[u8], value: &[u8]) -> Result<Line, OutOfMemory>
    ensures { IfOk result (λ line. line ≡ spec.pair_says height word.now value.now) }
{
    if word == b"height".as_slice() {
        return Ok(rises_to(height, height_of(value)));
    }
    if word == b"tx".as_slice() {
        return tx_line(alloc, height, value);
    }
    Ok(Line::Bad(ChainReason::Form))
}

// What the words of a line say behind the height last given.
fn words_say(alloc: Global, height: u32, words: &[&[u8]]) -> Result<Line, OutOfMemory>
    ensures { IfOk result (λ says. says ≡ spec.line_says height (map (λ w. w.now) words.now)) }
{
    match words {
        [] => Ok(Line::Empty),
        [_] => Ok(Line::Bad(ChainReason::Form)),
        [word, value] => pair_says(alloc, height, word, value),
        [_, _, _, ..] => Ok(Line::Bad(ChainReason::Form)),
    }
}

/// What a line says behind the height last given.
pub(crate) fn line_says(alloc: Global, height: u32, line: &[u8]) -> Result<Line, OutOfMemory>
    ensures { IfOk result (λ says. says ≡ spec.line_says height (words_of line.now)) }
{
    let words = words_of(alloc, line)?;
    words_say(alloc, height, &words)
}
