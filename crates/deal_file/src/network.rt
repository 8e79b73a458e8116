//! The network of a deal file.

ghost use Rattle.std.specs.Prelude.{◌≡◌, ◌∷◌, [], map, IfOk};
ghost use Rattle.spec_text.specs.Lines.{lines_of, words_of};
ghost use Rattle.spec_deal.specs.DealFile as spec;

use crate::words::hrp_of_word;
use bm_runfile::{first_line, words_of};
use spec_data::{Name, OutOfMemory};
use std::alloc::Global;

// The network that these words name, of which the first is that of a line's kind.
fn network_by(word: &[u8], hrp: &[u8]) -> Option<Name>
    ensures { result ≡ spec.named_network (word.now ∷ hrp.now ∷ []) }
{
    if word != b"network".as_slice() {
        return None;
    }
    hrp_of_word(hrp)
}

// The network that the words of a line name.
fn network_in(words: &[&[u8]]) -> Option<Name>
    ensures { result ≡ spec.named_network (map (λ w. w.now) words.now) }
{
    match words {
        [word, hrp] => network_by(word, hrp),
        _ => None,
    }
}

// The network that a line names.
fn network_of_line(alloc: Global, line: &[u8]) -> Result<Option<Name>, OutOfMemory>
    ensures { IfOk result (λ n. n ≡ spec.named_network (words_of line.now)) }
{
    let words = words_of(alloc, line)?;
    Ok(network_in(&words))
}

/// The network of a file: that of the first line that names one. Addresses may stand before it.
pub(crate) fn file_network(alloc: Global, text: &[u8]) -> Result<Option<Name>, OutOfMemory>
    ensures { IfOk result (λ n. n ≡ spec.file_network (lines_of text.now)) }
{
    let mut rest = text;
    while !rest.is_empty() {
        let (line, more) = first_line(rest);
        let named = network_of_line(alloc, line)?;
        if named.is_some() {
            return Ok(named);
        }
        rest = more;
    }
    Ok(None)
}
