//! Numbers as plain decimals.

ghost use Rattle.std.specs.Prelude.{◌≡◌, ◌++◌, ◌^◌, OnOk, OnErr, Some, true};
ghost use Rattle.std.specs.List.{list_all};
ghost use Rattle.std.specs.Fmt.{decimal};
ghost use Rattle.spec_data.specs.Digits.{is_digit, is_plain, decimal_value, below, read_decimal};

use itoa::Buffer;
use spec_data::OutOfMemory;
use std::alloc::Global;

/// The number that a word spells: `0`, or a digit from 1 to 9 and further digits, below 2^64.
pub fn read_decimal(word: &[u8]) -> Option<u64>
    ensures { result ≡ read_decimal word.now }
{
    if !is_plain(word) {
        return None;
    }
    value_of(word)
}

fn is_plain(word: &[u8]) -> bool
    ensures { result ≡ is_plain word.now }
{
    match word {
        [] => false,
        [b'0', rest @ ..] => rest.is_empty(),
        [first, rest @ ..] => is_digit(*first) && are_digits(rest),
    }
}

fn are_digits(bytes: &[u8]) -> bool
    ensures { result ≡ list_all is_digit bytes.now }
{
    bytes.iter().all(|byte| is_digit(*byte))
}

fn is_digit(byte: u8) -> bool
    ensures { result ≡ is_digit byte }
{
    byte >= b'0' && byte <= b'9'
}

/// The value of digits, if it is below 2^64.
fn value_of(digits: &[u8]) -> Option<u64>
    requires { list_all is_digit digits.now ≡ true }
    ensures { result ≡ below (2 ^ 64) (decimal_value digits.now) }
{
    let mut value = 0u64;
    for byte in digits {
        let next = value as u128 * 10 + (*byte - b'0') as u128;
        if next > u64::MAX as u128 {
            return None;
        }
        value = next as u64;
    }
    Some(value)
}

/// Writes a number as a plain decimal. It takes an allocator as all that writes does, and no memory but the room of the text.
#[tactic(auto, using(std::proofs::lemmas::Fmt::decimal_digit))]
pub fn put_decimal(_alloc: Global, out: &mut Vec<u8>, number: u64) -> Result<(), OutOfMemory>
    ensures ok { OnOk result (out.new.items ≡ out.old.items ++ decimal number) }
    ensures err { OnErr result (out.new.items ≡ out.old.items) }
{
    // Most numbers of most texts have one digit.
    if number < 10 {
        out.push(b'0' + number as u8)?;
        return Ok(());
    }
    let mut digits = Buffer::new();
    out.extend_from_slice(digits.format(number).as_bytes())
}

/// What is written of a number reads as that number.
pub fn decimal_reads_back(number: u64)
    ensures { read_decimal (decimal number) ≡ Some number }
{}
