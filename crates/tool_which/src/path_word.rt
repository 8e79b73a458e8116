//! Whether a word is a path. It takes no memory, so that of words that are no command none is asked.

ghost use Rattle.std.specs.Prelude.{◌≡◌, ◌≤◌, ◌<◌, length, is_some, option_map, IfSome};
ghost use Rattle.std.specs.Option.{option_copied};
ghost use Rattle.spec_text.specs.Words.{small, steps, path};
ghost use Rattle.bm_runfile.specs.Steps.{step_length, step_at};
ghost use Rattle.tool_which.specs.Path.{behind_number};

use bm_text::read_decimal;

// Whether a word is a number below 2^32.
fn is_small(word: &[u8]) -> bool
    ensures { result ≡ is_some (small word.now) }
{
    match read_decimal(word) {
        Some(number) => number <= u32::MAX as u64,
        None => false,
    }
}

// How many bytes stand before the next step.
fn step_length(bytes: &[u8]) -> usize
    ensures value { result ≡ step_length bytes.now }
    ensures within { result ≤ length bytes.now }
{
    let mut count = 0;
    for byte in bytes {
        if *byte == b'.' || *byte == b'/' {
            return count;
        }
        count += 1;
    }
    count
}

// What stands behind a mark and the number after it.
fn behind_number(bytes: &[u8]) -> Option<&[u8]>
    ensures behind { option_copied result ≡ behind_number bytes.now }
    ensures shorter { IfSome result (λ rest. length rest.now ≤ length bytes.now) }
{
    let end = step_length(bytes);
    if is_small(&bytes[..end]) {
        Some(&bytes[end..])
    } else {
        None
    }
}

// What stands behind the first step.
#[tactic(auto, unfolding(bm_runfile::specs::Steps::step_at))]
fn behind_step(bytes: &[u8]) -> Option<&[u8]>
    ensures step { option_copied result ≡ option_map (λ p. p.1) (step_at bytes.now) }
    ensures shorter { IfSome result (λ rest. length rest.now < length bytes.now) }
{
    match bytes {
        [b'.' | b'/', rest @ ..] => behind_number(rest),
        _ => None,
    }
}

// Whether bytes are steps.
fn are_steps(bytes: &[u8]) -> bool
    ensures { result ≡ is_some (steps bytes.now) }
{
    let mut rest = bytes;
    while !rest.is_empty() {
        let Some(more) = behind_step(rest) else {
            return false;
        };
        rest = more;
    }
    true
}

/// Whether a word is a path: `r`, and then steps.
pub(crate) fn is_path(word: &[u8]) -> bool
    ensures { result ≡ is_some (path word.now) }
{
    match word {
        [b'r', rest @ ..] => are_steps(rest),
        _ => false,
    }
}
