//! The output scripts of wallets that the lines of a deal file give, in the order of the contract.

ghost use Rattle.std.specs.Prelude.{◌≡◌, ◌++◌, option_map, IfOk, OnOk};
ghost use Rattle.std.specs.List.{flat_map};
ghost use Rattle.spec_terms.specs.Precondition.{deposits, names_of};
ghost use Rattle.spec_deal.specs.DealFile as spec;
ghost use Rattle.deal_file.specs.Building as building;
ghost use Rattle.deal_file.specs.Entries.{told};

use crate::entries::Entries;
use crate::keying::kind_and;
use crate::values::{payee_script, wallet_script};
use spec_data::{Bytes, Name, OutOfMemory, Seq};
use spec_terms::Pre;
use std::alloc::Global;

// A name with its script, if there is one.
fn put_script(
    alloc: Global,
    scripts: &mut Seq<(Name, Bytes)>,
    name: &Name,
    script: Option<&[u8]>,
) -> Result<(), OutOfMemory>
    ensures { OnOk result (scripts.new ≡ scripts.old ++ spec.with_script name.now (option_map (λ s. s.now) script.entry)) }
{
    match script {
        Some(script) => scripts.push((*name, Bytes::from_slice(alloc, script)?)),
        None => Ok(()),
    }
}

// A deposit with its wallet's script, if a wallet brings it.
fn put_wallet(
    alloc: Global,
    scripts: &mut Seq<(Name, Bytes)>,
    entries: &Entries,
    name: &Name,
) -> Result<(), OutOfMemory>
    ensures { OnOk result (scripts.new ≡ scripts.old ++ building.wallet_pair (told entries.now) name.now) }
{
    let key = kind_and(alloc, b'D', name.bytes())?;
    put_script(alloc, scripts, name, wallet_script(entries.value_for(&key)))
}

/// The deposits that wallets bring, with their scripts.
pub(crate) fn wallets_of(
    alloc: Global,
    entries: &Entries,
    pre: &[Pre],
) -> Result<Seq<(Name, Bytes)>, OutOfMemory>
    ensures { IfOk result (λ s. s ≡ flat_map (building.wallet_pair (told entries.now)) (names_of (deposits pre.now))) }
{
    let mut scripts = Seq::new(alloc);
    for entry in pre {
        match entry {
            Pre::Persistent { name, .. } => put_wallet(alloc, &mut scripts, entries, name)?,
            Pre::Volatile { name, .. } => put_wallet(alloc, &mut scripts, entries, name)?,
            Pre::Secret { .. } => {}
        }
    }
    Ok(scripts)
}

// A participant with the script where it is paid, if it gave one.
fn put_payee(
    alloc: Global,
    scripts: &mut Seq<(Name, Bytes)>,
    entries: &Entries,
    party: &Name,
) -> Result<(), OutOfMemory>
    ensures { OnOk result (scripts.new ≡ scripts.old ++ building.payee_pair (told entries.now) party.now) }
{
    let key = kind_and(alloc, b'P', party.bytes())?;
    put_script(alloc, scripts, party, payee_script(entries.value_for(&key)))
}

/// The participants who gave scripts where they are paid.
pub(crate) fn payees_of(
    alloc: Global,
    entries: &Entries,
    parties: &[Name],
) -> Result<Seq<(Name, Bytes)>, OutOfMemory>
    ensures { IfOk result (λ s. s ≡ flat_map (building.payee_pair (told entries.now)) parties.now) }
{
    let mut scripts = Seq::new(alloc);
    for party in parties {
        put_payee(alloc, &mut scripts, entries, party)?;
    }
    Ok(scripts)
}
