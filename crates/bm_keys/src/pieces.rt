//! The pieces of a label's text, each read from the prefix of what is left.

ghost use Rattle.std.specs.Prelude.{◌≡◌, ◌^◌, ℕ, List, ◌∷◌, IfSome, IfNone};
ghost use Rattle.spec_data.specs.Digits.{is_digit, number_below};
ghost use Rattle.bm_keys.specs.Pieces as spec;

use bm_text::read_decimal;
use spec_terms::PathStep;

/// What stands behind this byte, where the text begins with it.
pub(crate) fn behind(byte: u8, text: &[u8]) -> Option<&[u8]>
    ensures some { IfSome result (λ rest. text.now ≡ byte ∷ rest.now) }
    ensures none { IfNone result (spec.NoStart byte text.now) }
{
    match text {
        [first, rest @ ..] => { if *first == byte { Some(rest) } else { None } }
        [] => None,
    }
}

fn is_digit(byte: u8) -> bool
    ensures { result ≡ is_digit byte }
{
    byte >= b'0' && byte <= b'9'
}

// How many digits the text begins with.
fn digit_count(text: &[u8]) -> usize
    ensures { result ≡ spec.digit_count text.now }
{
    let mut count = 0;
    for byte in text {
        if !is_digit(*byte) {
            return count;
        }
        count += 1;
    }
    count
}

// The number below 2^32 that a word spells.
fn small_number(word: &[u8]) -> Option<u32>
    ensures { result ≡ number_below (2 ^ 32) word.now }
{
    let number = read_decimal(word)?;
    if number > u32::MAX as u64 {
        return None;
    }
    Some(number as u32)
}

/// The number below 2^32 with which the text begins, and what stands behind it.
pub(crate) fn number_at(text: &[u8]) -> Option<(u32, &[u8])>
    ensures some { IfSome result (λ p. spec.IsNumberAt text.now p.0 p.1.now) }
    ensures none { IfNone result (spec.NoNumberAt text.now) }
{
    let (digits, rest) = text.split_at(digit_count(text));
    let number = small_number(digits)?;
    Some((number, rest))
}

fn step_of(mark: u8, number: u32) -> Option<PathStep>
    ensures { result ≡ spec.step_of mark number }
{
    match mark {
        b'.' => Some(PathStep::Branch(number)),
        b'/' => Some(PathStep::Part(number)),
        _ => None,
    }
}

/// The step of a path with which the text begins, and what stands behind it.
#[tactic(auto, using(crate::proofs::Steps::step_found, crate::proofs::Steps::step_of_nothing, crate::proofs::Steps::step_without_number, crate::proofs::Steps::step_without_mark))]
pub(crate) fn step_at(text: &[u8]) -> Option<(PathStep, &[u8])>
    ensures some { IfSome result (λ p. spec.IsStepAt text.now p.0 p.1.now) }
    ensures none { IfNone result (spec.NoStepAt text.now) }
{
    let [mark, after @ ..] = text else {
        return None;
    };
    let (number, rest) = number_at(after)?;
    let step = step_of(*mark, number)?;
    Some((step, rest))
}
