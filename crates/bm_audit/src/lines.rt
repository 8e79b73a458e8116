//! What the lines of a file are.

ghost use Rattle.std.specs.Prelude.{◌≡◌, map, IfOk};
ghost use Rattle.spec_bitcoin.specs.Reading.{transaction_of};
ghost use Rattle.spec_data.specs.Digits.{read_hex};
ghost use Rattle.spec_tool.specs.Audit as spec;
ghost use Rattle.bm_audit.specs.Lines.{given_of};

use bm_runfile::words_of;
use bm_text::{HexError, read_hex};
use bm_tx::{TxError, decode};
use spec_bitcoin::Tx;
use spec_data::OutOfMemory;
use std::alloc::{AllocError, Global};

/// What a line of a file is.
#[derive(Drop)]
pub(crate) enum Line {
    Empty,
    /// It isn't one word of hexadecimal digits.
    NotHex,
    /// So many of its bytes begin a transaction, and no more.
    Bad(usize),
    Read(Tx),
}

fn of_bytes(alloc: Global, bytes: &[u8]) -> Result<Line, OutOfMemory>
    ensures { IfOk result (λ line. given_of line ≡ spec.given_by (transaction_of bytes.now)) }
{
    match decode(alloc, bytes) {
        Ok(tx) => Ok(Line::Read(tx)),
        Err(TxError::BadTx(place)) => Ok(Line::Bad(place)),
        Err(TxError::Memory) => Err(AllocError),
    }
}

fn of_word(alloc: Global, word: &[u8]) -> Result<Line, OutOfMemory>
    ensures { IfOk result (λ line. given_of line ≡ spec.given_bytes (read_hex word.now)) }
{
    match read_hex(alloc, word) {
        Ok(bytes) => of_bytes(alloc, &bytes),
        Err(HexError::Bad) => Ok(Line::NotHex),
        Err(HexError::Memory) => Err(AllocError),
    }
}

fn of_words(alloc: Global, words: &[&[u8]]) -> Result<Line, OutOfMemory>
    ensures { IfOk result (λ line. given_of line ≡ spec.given_words (map (λ w. w.now) words.now)) }
{
    match words {
        [] => Ok(Line::Empty),
        [word] => of_word(alloc, word),
        _ => Ok(Line::NotHex),
    }
}

/// What a line is.
pub(crate) fn read_line(alloc: Global, line: &[u8]) -> Result<Line, OutOfMemory>
    ensures { IfOk result (λ read. given_of read ≡ spec.given_line line.now) }
{
    let words = words_of(alloc, line)?;
    of_words(alloc, words.as_slice())
}
