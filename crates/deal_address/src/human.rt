//! Human-readable parts, which say what network an address is for.

ghost use Rattle.std.specs.Prelude.{◌≡◌};
ghost use Rattle.std.specs.List.{list_all};
ghost use Rattle.spec_address.specs.Address as spec;

/// The most characters of a human-readable part: with so many, each script has an address.
const MOST_CHARACTERS: usize = 18;

fn is_character(byte: u8) -> bool
    ensures { result ≡ spec.is_hrp_character byte }
{
    byte >= b'!' && byte <= b'~' && !byte.is_ascii_uppercase()
}

fn are_characters(word: &[u8]) -> bool
    ensures { result ≡ list_all spec.is_hrp_character word.now }
{
    word.iter().all(|byte| is_character(*byte))
}

/// Whether a word is the human-readable part of a network: 1 to 18 characters from `!` to `~`, none of them a capital letter.
/// BIP 173 has up to 83; behind more than 18 some scripts have no address.
pub fn is_hrp(word: &[u8]) -> bool
    ensures { result ≡ spec.is_hrp word.now }
{
    if word.is_empty() || word.len() > MOST_CHARACTERS {
        return false;
    }
    are_characters(word)
}
