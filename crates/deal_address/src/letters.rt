//! The letters of values below 32.

ghost use Rattle.std.specs.Prelude.{◌≡◌, ◌++◌, ◌==◌, map, position, OnOk};
ghost use Rattle.spec_address.specs.Address as spec;

use spec_data::OutOfMemory;

/// The letters of the values from 0 to 31.
const LETTERS: &[u8; 32] = b"qpzry9x8gf2tvdw0s3jn54khce6mua7l";

fn letter_of(value: u8) -> u8
    ensures { result ≡ spec.letter_of value }
{
    match LETTERS.get(value as usize) {
        Some(letter) => *letter,
        None => 0,
    }
}

/// Puts the letters of values at the end of a text.
pub(crate) fn put_letters(out: &mut Vec<u8>, values: &[u8]) -> Result<(), OutOfMemory>
    ensures { OnOk result (out.new.items ≡ out.old.items ++ map spec.letter_of values.now) }
{
    for value in values {
        out.push(letter_of(*value))?;
    }
    Ok(())
}

// The place of a letter among those of the values.
fn place_of(letter: u8) -> Option<usize>
    ensures { result ≡ position (λ l. l == letter) spec.letters }
{
    LETTERS.iter().position(|known| *known == letter)
}

/// The value of a small letter, and 0 of any other character.
pub(crate) fn value_of(letter: u8) -> u8
    ensures { result ≡ spec.value_of letter }
{
    match place_of(letter) {
        Some(place) => place as u8,
        None => 0,
    }
}
