//! The command that words are.

ghost use Rattle.std.specs.Prelude.{◌≡◌, Option, Some, true, is_some, map, string_bytes, option_map, IfOk, OnErr};
ghost use Rattle.spec_tool.specs.Commands as spec;
ghost use Rattle.tool_command.specs.Seen.{command, made_of, HasFew};

use crate::command::Command;
use bm_text::read_decimal;
use spec_data::OutOfMemory;
use std::alloc::Global;
use tool_which::which_of;

/// The most contracts of a run.
pub const MOST_CONTRACTS: usize = 16;

/// The greatest size of a generated run.
const MOST_SIZE: u64 = 30;

fn check_words(words: &[String]) -> Option<Command<'_>>
    ensures command { option_map command result ≡ spec.check_words (map string_bytes words.now) }
    ensures few { HasFew (option_map command result) }
{
    match words {
        [contract] => Some(Command::Check(contract.as_str())),
        _ => None,
    }
}

fn play_words(words: &[String]) -> Option<Command<'_>>
    ensures command { option_map command result ≡ spec.play_words (map string_bytes words.now) }
    ensures few { HasFew (option_map command result) }
{
    let [run, contracts @ ..] = words else {
        return None;
    };
    if contracts.len() > MOST_CONTRACTS {
        return None;
    }
    Some(Command::Play(run.as_str(), contracts))
}

fn plan_words(words: &[String]) -> Option<Command<'_>>
    ensures command { option_map command result ≡ spec.plan_words (map string_bytes words.now) }
    ensures few { HasFew (option_map command result) }
{
    match words {
        [run, contract] => Some(Command::Plan(run.as_str(), contract.as_str())),
        _ => None,
    }
}

fn made(number: u64, size: u64) -> Option<Command<'static>>
    ensures command { option_map command result ≡ made_of number size }
    ensures few { HasFew (option_map command result) }
{
    if size < 1 || size > MOST_SIZE {
        return None;
    }
    Some(Command::Make(number, size as u32))
}

fn make_words(words: &[String]) -> Option<Command<'_>>
    ensures command { option_map command result ≡ spec.make_words (map string_bytes words.now) }
    ensures few { HasFew (option_map command result) }
{
    let [number, size] = words else {
        return None;
    };
    let number = read_decimal(number.as_bytes())?;
    let size = read_decimal(size.as_bytes())?;
    made(number, size)
}

fn psbt_words(alloc: Global, words: &[String]) -> Result<Option<Command<'_>>, OutOfMemory>
    ensures command { IfOk result (λ c. option_map command c ≡ spec.psbt_words (map string_bytes words.now)) }
    ensures few { IfOk result (λ c. HasFew (option_map command c)) }
    ensures memory { OnErr result (is_some (spec.psbt_words (map string_bytes words.now)) ≡ true) }
{
    match words {
        [file] => Ok(Some(Command::PsbtShown(file.as_str()))),
        [first, second] => Ok(Some(Command::PsbtJoined(first.as_str(), second.as_str()))),
        [run, contract, word] => match which_of(alloc, word.as_str())? {
            None => Ok(None),
            Some(which) => Ok(Some(Command::PsbtOf(run.as_str(), contract.as_str(), which))),
        },
        _ => Ok(None),
    }
}

fn weigh_words(words: &[String]) -> Option<Command<'_>>
    ensures command { option_map command result ≡ spec.weigh_words (map string_bytes words.now) }
    ensures few { HasFew (option_map command result) }
{
    match words {
        [run, contract] => Some(Command::Weigh(run.as_str(), contract.as_str())),
        _ => None,
    }
}

fn audit_words(words: &[String]) -> Option<Command<'_>>
    ensures command { option_map command result ≡ spec.audit_words (map string_bytes words.now) }
    ensures few { HasFew (option_map command result) }
{
    match words {
        [run, contract, file] => {
            Some(Command::Audit(run.as_str(), contract.as_str(), file.as_str()))
        }
        _ => None,
    }
}

fn auto_words(words: &[String]) -> Option<Command<'_>>
    ensures command { option_map command result ≡ spec.auto_words (map string_bytes words.now) }
    ensures few { HasFew (option_map command result) }
{
    match words {
        [run, contract, strategy] => {
            Some(Command::Auto(run.as_str(), contract.as_str(), strategy.as_str()))
        }
        _ => None,
    }
}

/// The command that words are, if they are one. Of words that are none no memory is asked.
pub fn command_of(alloc: Global, words: &[String]) -> Result<Option<Command<'_>>, OutOfMemory>
    ensures command { IfOk result (λ c. option_map command c ≡ spec.command_of (map string_bytes words.now)) }
    ensures few { IfOk result (λ c. HasFew (option_map command c)) }
    ensures memory { OnErr result (is_some (spec.command_of (map string_bytes words.now)) ≡ true) }
{
    let [word, rest @ ..] = words else {
        return Ok(None);
    };
    match word.as_str() {
        "check" => Ok(check_words(rest)),
        "play" => Ok(play_words(rest)),
        "plan" => Ok(plan_words(rest)),
        "make" => Ok(make_words(rest)),
        "psbt" => psbt_words(alloc, rest),
        "weigh" => Ok(weigh_words(rest)),
        "audit" => Ok(audit_words(rest)),
        "auto" => Ok(auto_words(rest)),
        _ => Ok(None),
    }
}
