//! The lines of the committed secrets.

ghost use Rattle.std.specs.Prelude.{◌≡◌, ◌<◌, ◌^◌, ◌++◌, codes, flat_map, length, OnOk};
ghost use Rattle.spec_terms.specs.Precondition.{secrets};
ghost use Rattle.spec_text.specs.RunText.{newline, contract_party_text};
ghost use Rattle.spec_text.specs.StepText.{length_text};
ghost use Rattle.spec_text.specs.PlayText as spec;
ghost use Rattle.bm_report.specs.Told.{told_line};

use crate::step::put_length;
use bm_calculus::Config;
use bm_runfile::put_contract_party;
use bm_text::put;
use spec_data::{Name, OutOfMemory};
use spec_terms::Pre;
use std::alloc::Global;

fn shown_word(is_shown: bool) -> &'static [u8]
    ensures { result.now ≡ spec.shown_word is_shown }
{
    if is_shown { b"revealed" } else { b"hidden" }
}

#[tactic(auto, using(std::proofs::Common::append_assoc))]
fn put_secret_head(
    alloc: Global,
    out: &mut Vec<u8>,
    contract: u32,
    party: &Name,
    secret: &Name,
) -> Result<(), OutOfMemory>
    ensures { OnOk result (out.new.items ≡ out.old.items ++ (codes "secret "
        ++ (contract_party_text contract party.now ++ (codes " " ++ (secret.now ++ codes " "))))) }
{
    put(out, b"secret ")?;
    put_contract_party(alloc, out, contract, party)?;
    put(out, b" ")?;
    put(out, secret.bytes())?;
    put(out, b" ")
}

#[tactic(auto, using(std::proofs::Common::append_assoc))]
fn put_secret_end(
    alloc: Global,
    out: &mut Vec<u8>,
    length: Option<u32>,
    is_shown: bool,
) -> Result<(), OutOfMemory>
    ensures { OnOk result (out.new.items ≡ out.old.items ++ (length_text length ++ (codes " " ++ (spec.shown_word is_shown ++ newline)))) }
{
    put_length(alloc, out, length)?;
    put(out, b" ")?;
    put(out, shown_word(is_shown))?;
    put(out, b"\n")
}

/// The line of a secret of which this is told: its length, and whether it is revealed. Nothing where it isn't committed.
#[tactic(auto, using(std::proofs::Common::append_assoc))]
fn put_told(
    alloc: Global,
    out: &mut Vec<u8>,
    contract: u32,
    party: &Name,
    secret: &Name,
    told: Option<(Option<u32>, bool)>,
) -> Result<(), OutOfMemory>
    ensures { OnOk result (out.new.items ≡ out.old.items ++ told_line contract party.now secret.now told) }
{
    let Some((length, is_shown)) = told else {
        return Ok(());
    };
    put_secret_head(alloc, out, contract, party, secret)?;
    put_secret_end(alloc, out, length, is_shown)
}

#[tactic(auto, using(crate::proofs::Told::told_line_of))]
fn put_secret(
    alloc: Global,
    out: &mut Vec<u8>,
    config: &Config,
    contract: u32,
    party: &Name,
    secret: &Name,
) -> Result<(), OutOfMemory>
    ensures { OnOk result (out.new.items ≡ out.old.items ++ spec.secret_line_of config.now contract (secret.now, party.now)) }
{
    let told = config.secret(contract, party, secret);
    put_told(alloc, out, contract, party, secret, told)
}

/// A line for each committed secret of a contract, in the order of its precondition.
#[tactic(auto, using(std::proofs::Common::append_assoc))]
fn put_secrets(
    alloc: Global,
    out: &mut Vec<u8>,
    config: &Config,
    contract: u32,
    pre: &[Pre],
) -> Result<(), OutOfMemory>
    ensures { OnOk result (out.new.items ≡ out.old.items ++ flat_map (spec.secret_line_of config.now contract) (secrets pre.now)) }
{
    for entry in pre {
        match entry {
            Pre::Persistent { .. } => {}
            Pre::Volatile { .. } => {}
            Pre::Secret { party, name } => {
                put_secret(alloc, out, config, contract, party, name)?;
            }
        }
    }
    Ok(())
}

/// The lines of the committed secrets of all contracts.
#[tactic(auto, using(std::proofs::Common::append_assoc))]
pub(crate) fn put_all_secrets(
    alloc: Global,
    out: &mut Vec<u8>,
    config: &Config,
) -> Result<(), OutOfMemory>
    requires { length config.now.contracts < 2 ^ 32 }
    ensures { OnOk result (out.new.items ≡ out.old.items ++ spec.secret_lines config.now 0 config.now.contracts) }
{
    let contracts = config.contracts();
    let mut number = 0u32;
    for contract in contracts {
        put_secrets(alloc, out, config, number, &contract.advert().pre)?;
        number += 1;
    }
    Ok(())
}
