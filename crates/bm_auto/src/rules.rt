//! The rule that a line spells.

ghost use Rattle.std.specs.Prelude.{◌≡◌, ◌∷◌, map};
ghost use Rattle.spec_tool.specs.Strategy as spec;
ghost use Rattle.bm_runfile.specs.Gives.{Reads};
ghost use Rattle.bm_auto.specs.Gives.{SaysRule};

use crate::acts::act_by;
use crate::error::LineError;
use bm_runfile::{WordError, one_of, words_of};
use spec_run::Header;
use spec_tool::Rule;
use std::alloc::Global;

/// The rules of a strategy.
pub(crate) const MOST_RULES: usize = 256;

/// The number of the contract, which is the word `0`.
fn contract_word(word: &[u8]) -> Option<u32>
    ensures { result ≡ spec.contract_word word.now }
{
    if word != b"0".as_slice() {
        return None;
    }
    Some(0)
}

/// The rule of a party, a verb, the contract, and what the verb takes besides.
fn rule_with(
    alloc: Global,
    header: &Header,
    party: &[u8],
    verb: &[u8],
    contract: &[u8],
    words: &[&[u8]],
) -> Result<Rule, WordError>
    ensures { Reads (λ r. r) result
        (spec.rule_of header.now (party.now ∷ verb.now ∷ contract.now ∷ map (λ w. w.now) words.now)) }
{
    let party = one_of(header.honest.as_slice(), party).ok_or(WordError::Bad)?;
    let _contract = contract_word(contract).ok_or(WordError::Bad)?;
    let act = act_by(alloc, verb, words)?;
    Ok(Rule { party, act })
}

/// The rule that the words of a line spell.
fn rule_of(alloc: Global, header: &Header, words: &[&[u8]]) -> Result<Rule, WordError>
    ensures { Reads (λ r. r) result (spec.rule_of header.now (map (λ w. w.now) words.now)) }
{
    match words {
        [party, verb, contract, rest @ ..] => {
            rule_with(alloc, header, party, verb, contract, rest)
        }
        _ => Err(WordError::Bad),
    }
}

/// What the words of a line say behind so many rules: nothing, or a rule.
fn said_words(
    alloc: Global,
    header: &Header,
    count: usize,
    words: &[&[u8]],
) -> Result<Option<Rule>, LineError>
    ensures { SaysRule result (spec.said_words header.now count (map (λ w. w.now) words.now)) }
{
    if words.is_empty() {
        return Ok(None);
    }
    let rule = rule_of(alloc, header, words)?;
    if count >= MOST_RULES {
        return Err(LineError::Over);
    }
    Ok(Some(rule))
}

/// What a line says behind so many rules.
pub(crate) fn said_line(
    alloc: Global,
    header: &Header,
    count: usize,
    line: &[u8],
) -> Result<Option<Rule>, LineError>
    ensures { SaysRule result (spec.said_line header.now count line.now) }
{
    let words = words_of(alloc, line)?;
    said_words(alloc, header, count, words.as_slice())
}
