//! The command that words are.

ghost use Rattle.std.specs.Prelude.{◌≡◌, true, is_some, map, string_bytes, option_map, IfOk, OnErr};
ghost use Rattle.spec_deal.specs.Commands as spec;
ghost use Rattle.spec_chain.specs.Commands as chains;
ghost use Rattle.spec_chain.specs.Commands.{on_deal};
ghost use Rattle.deal_command.specs.Seen.{command};

use crate::command::DealCommand;
use spec_data::OutOfMemory;
use std::alloc::Global;
use tool_which::which_of;

fn keys_words(words: &[String]) -> Option<DealCommand<'_>>
    ensures { option_map command result ≡ option_map on_deal (spec.keys_words (map string_bytes words.now)) }
{
    match words {
        [contract] => Some(DealCommand::Keys(contract.as_str())),
        _ => None,
    }
}

fn plan_words(words: &[String]) -> Option<DealCommand<'_>>
    ensures { option_map command result ≡ option_map on_deal (spec.plan_words (map string_bytes words.now)) }
{
    match words {
        [contract, deal] => Some(DealCommand::Plan(contract.as_str(), deal.as_str())),
        _ => None,
    }
}

fn psbt_words(alloc: Global, words: &[String]) -> Result<Option<DealCommand<'_>>, OutOfMemory>
    ensures command { IfOk result (λ c. option_map command c ≡ option_map on_deal (spec.psbt_words (map string_bytes words.now))) }
    ensures memory { OnErr result (is_some (spec.psbt_words (map string_bytes words.now)) ≡ true) }
{
    match words {
        [contract, deal] => Ok(Some(DealCommand::Psbts(contract.as_str(), deal.as_str()))),
        [contract, deal, word] => match which_of(alloc, word.as_str())? {
            None => Ok(None),
            Some(which) => Ok(Some(DealCommand::Psbt(contract.as_str(), deal.as_str(), which))),
        },
        _ => Ok(None),
    }
}

fn missing_words(words: &[String]) -> Option<DealCommand<'_>>
    ensures { option_map command result ≡ option_map on_deal (spec.missing_words (map string_bytes words.now)) }
{
    match words {
        [contract, deal, signatures] => {
            Some(DealCommand::Missing(contract.as_str(), deal.as_str(), signatures.as_str()))
        }
        _ => None,
    }
}

fn held_words(words: &[String]) -> Option<DealCommand<'_>>
    ensures { option_map command result ≡ option_map on_deal (spec.held_words (map string_bytes words.now)) }
{
    match words {
        [contract, deal, signatures] => {
            Some(DealCommand::Held(contract.as_str(), deal.as_str(), signatures.as_str()))
        }
        _ => None,
    }
}

fn finish_words(alloc: Global, words: &[String]) -> Result<Option<DealCommand<'_>>, OutOfMemory>
    ensures command { IfOk result (λ c. option_map command c ≡ option_map on_deal (spec.finish_words (map string_bytes words.now))) }
    ensures memory { OnErr result (is_some (spec.finish_words (map string_bytes words.now)) ≡ true) }
{
    match words {
        [contract, deal, word, signatures] => match which_of(alloc, word.as_str())? {
            None => Ok(None),
            Some(which) => Ok(Some(DealCommand::Finish(
                contract.as_str(),
                deal.as_str(),
                which,
                signatures.as_str(),
            ))),
        },
        [contract, deal, word, signatures, secrets] => match which_of(alloc, word.as_str())? {
            None => Ok(None),
            Some(which) => Ok(Some(DealCommand::FinishWith(
                contract.as_str(),
                deal.as_str(),
                which,
                signatures.as_str(),
                secrets.as_str(),
            ))),
        },
        _ => Ok(None),
    }
}

fn fund_words(words: &[String]) -> Option<DealCommand<'_>>
    ensures { option_map command result ≡ option_map on_deal (spec.fund_words (map string_bytes words.now)) }
{
    match words {
        [contract, deal] => Some(DealCommand::Fund(contract.as_str(), deal.as_str())),
        _ => None,
    }
}

fn warn_words(words: &[String]) -> Option<DealCommand<'_>>
    ensures { option_map command result ≡ option_map on_deal (spec.warn_words (map string_bytes words.now)) }
{
    match words {
        [contract, deal] => Some(DealCommand::Warn(contract.as_str(), deal.as_str())),
        [contract, deal, secrets] => {
            Some(DealCommand::WarnWith(contract.as_str(), deal.as_str(), secrets.as_str()))
        }
        _ => None,
    }
}

fn ready_words(words: &[String]) -> Option<DealCommand<'_>>
    ensures { option_map command result ≡ option_map on_deal (spec.ready_words (map string_bytes words.now)) }
{
    match words {
        [contract, deal, signatures] => {
            Some(DealCommand::Ready(contract.as_str(), deal.as_str(), signatures.as_str()))
        }
        [contract, deal, signatures, secrets] => Some(DealCommand::ReadyWith(
            contract.as_str(),
            deal.as_str(),
            signatures.as_str(),
            secrets.as_str(),
        )),
        _ => None,
    }
}

fn endorse_words(words: &[String]) -> Option<DealCommand<'_>>
    ensures { option_map command result ≡ option_map on_deal (spec.endorse_words (map string_bytes words.now)) }
{
    match words {
        [contract, deal, party] => {
            Some(DealCommand::Endorse(contract.as_str(), deal.as_str(), party.as_str()))
        }
        _ => None,
    }
}

fn hashes_words(words: &[String]) -> Option<DealCommand<'_>>
    ensures { option_map command result ≡ option_map on_deal (spec.hashes_words (map string_bytes words.now)) }
{
    match words {
        [contract, secrets] => Some(DealCommand::Hashes(contract.as_str(), secrets.as_str())),
        _ => None,
    }
}

fn show_words(words: &[String]) -> Option<DealCommand<'_>>
    ensures { option_map command result ≡ chains.show_words (map string_bytes words.now) }
{
    match words {
        [contract, deal] => Some(DealCommand::Show(contract.as_str(), deal.as_str())),
        _ => None,
    }
}

fn state_words(words: &[String]) -> Option<DealCommand<'_>>
    ensures { option_map command result ≡ chains.state_words (map string_bytes words.now) }
{
    match words {
        [contract, deal, chain, signatures] => Some(DealCommand::State(
            contract.as_str(),
            deal.as_str(),
            chain.as_str(),
            signatures.as_str(),
        )),
        [contract, deal, chain, signatures, secrets] => Some(DealCommand::StateWith(
            contract.as_str(),
            deal.as_str(),
            chain.as_str(),
            signatures.as_str(),
            secrets.as_str(),
        )),
        _ => None,
    }
}

/// The command that words are, if they are one. Of words that are none no memory is asked.
pub fn command_of(alloc: Global, words: &[String]) -> Result<Option<DealCommand<'_>>, OutOfMemory>
    ensures command { IfOk result (λ c. option_map command c ≡ chains.chain_command_of (map string_bytes words.now)) }
    ensures memory { OnErr result (is_some (chains.chain_command_of (map string_bytes words.now)) ≡ true) }
{
    let [word, rest @ ..] = words else {
        return Ok(None);
    };
    match word.as_str() {
        "keys" => Ok(keys_words(rest)),
        "plan" => Ok(plan_words(rest)),
        "psbt" => psbt_words(alloc, rest),
        "missing" => Ok(missing_words(rest)),
        "held" => Ok(held_words(rest)),
        "finish" => finish_words(alloc, rest),
        "fund" => Ok(fund_words(rest)),
        "warn" => Ok(warn_words(rest)),
        "ready" => Ok(ready_words(rest)),
        "endorse" => Ok(endorse_words(rest)),
        "hashes" => Ok(hashes_words(rest)),
        "show" => Ok(show_words(rest)),
        "state" => Ok(state_words(rest)),
        _ => Ok(None),
    }
}
