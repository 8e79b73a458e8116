//! What can be done of a contract before it begins.

ghost use Rattle.std.specs.Prelude.{◌≡◌, ◌<◌, ◌++◌, ◌∷◌, [], codes, map, filter, not, ◌&&◌, ◌==◌, IfOk, OnOk};
ghost use Rattle.spec_data.specs.Lists.{is_among as has_name};
ghost use Rattle.spec_terms.specs.Precondition.{deposits, persistent};
ghost use Rattle.spec_terms.specs.Parties.{participants};
ghost use Rattle.spec_tool.specs.declared.which.Which.TheVariants.{Init};
ghost use Rattle.spec_calculus.specs.Beginning as beginning;
ghost use Rattle.spec_calculus.specs.Offers.{is_enabled};
ghost use Rattle.spec_calculus.specs.declared.step.Step.TheVariants as steps;
ghost use Rattle.spec_next.specs.Bindings.{bindings_for};
ghost use Rattle.spec_next.specs.Candidates as candidates;
ghost use Rattle.spec_page.specs.EventWords as words;
ghost use Rattle.spec_page.specs.Moments as moments;
ghost use Rattle.spec_page.specs.Statuses as statuses;
ghost use Rattle.spec_page.specs.Outlooks as spec;
ghost use Rattle.draw_rows.specs.Settings.{setup_in, IsSetting};
ghost use Rattle.draw_rows.specs.Signing.{signing};

use crate::places::initial;
use crate::setting::Setting;
use crate::view::{View, is_allowed, put_fire};
use crate::words::{put_advertise, put_does};
use bm_calculus::Config;
use bm_wellformed::Checked;
use next_events::advertising;
use spec_calculus::Step;
use spec_data::{Bytes, Name, OutOfMemory};
use spec_run::Event;
use spec_terms::Pre;
use std::alloc::{AllocError, Global};
use std::marker::Model;

// Whether it may be advertised with the deposits that fit.
fn may_advertise(
    alloc: Global,
    config: &Config,
    contract: u32,
    pre: &[Pre],
) -> Result<bool, OutOfMemory>
    ensures { IfOk result (λ b. b ≡ is_enabled config.now
        (steps.Advertise contract (bindings_for config.now.deposits (deposits pre.now)))) }
{
    let event = advertising(alloc, config, contract, pre)?;
    match &event {
        Event::Advertise { contract, bindings } => {
            let step = Step::Advertise {
                contract: *contract,
                bindings: bindings.copy(alloc)?,
            };
            Ok(is_allowed(config, &step))
        }
        _ => Err(AllocError),
    }
}

fn put_advertising(
    alloc: Global,
    found: &mut Vec<Bytes>,
    several: bool,
    config: &Config,
    contract: u32,
    checked: &Checked,
) -> Result<(), OutOfMemory>
    ensures { OnOk result (found.new.items ≡ found.old.items
        ++ spec.advertise_words several config.now contract checked.now) }
{
    if !may_advertise(alloc, config, contract, &checked.advert().pre)? {
        return Ok(());
    }
    let mut text = Vec::new(alloc);
    put_advertise(alloc, &mut text, several, contract)?;
    found.push(Bytes::of(text))?;
    Ok(())
}

fn is_name_among(names: &[Name], name: &Name) -> bool
    ensures { result ≡ has_name name.now names.now }
{
    names.iter().any(|n| *n == *name)
}

fn may_commit(setting: &Setting, config: &Config, contract: u32, party: &Name) -> bool
    ensures { result ≡ spec.may_commit (setup_in setting.now) config.now contract party.now }
{
    let declared = is_name_among(setting.header.parties.as_slice(), party);
    let committed = config.has_committed(contract, party);
    declared && !committed
}

// What a party does for a contract.
fn does(
    alloc: Global,
    several: bool,
    contract: u32,
    party: &Name,
    what: &[u8],
) -> Result<Bytes, OutOfMemory>
    ensures { IfOk result (λ text. text ≡ words.does_text several contract party.now what.now) }
{
    let mut text = Vec::new(alloc);
    put_does(alloc, &mut text, several, contract, party, what)?;
    Ok(Bytes::of(text))
}

// That a party commits, if it may.
fn put_commit(
    alloc: Global,
    found: &mut Vec<Bytes>,
    setting: &Setting,
    config: &Config,
    contract: u32,
    party: &Name,
) -> Result<(), OutOfMemory>
    requires { IsSetting setting.now }
    ensures { OnOk result (found.new.items ≡ found.old.items
        ++ spec.commit_words (setup_in setting.now) config.now contract (party.now ∷ [])) }
{
    if !may_commit(setting, config, contract, party) {
        return Ok(());
    }
    let text = does(alloc, setting.several, contract, party, b" commits")?;
    found.push(text)?;
    Ok(())
}

#[tactic(auto, using(std::proofs::Common::append_assoc, crate::proofs::Firsts::commit_first))]
fn put_commits(
    alloc: Global,
    found: &mut Vec<Bytes>,
    setting: &Setting,
    config: &Config,
    contract: u32,
    people: &[Name],
) -> Result<(), OutOfMemory>
    requires { IsSetting setting.now }
    ensures { OnOk result (found.new.items ≡ found.old.items
        ++ spec.commit_words (setup_in setting.now) config.now contract people.now) }
{
    for party in people {
        put_commit(alloc, found, setting, config, contract, party)?;
    }
    Ok(())
}

fn have_committed(config: &Config, contract: u32, people: &[Name]) -> bool
    ensures { result ≡ beginning.have_committed config.now.committed contract people.now }
{
    for party in people {
        if !config.has_committed(contract, party) {
            return false;
        }
    }
    true
}

// Whether a party lets the contract take each of its persistent deposits.
fn has_started(config: &Config, contract: u32, pre: &[Pre], party: &Name) -> bool
    ensures { result ≡ candidates.has_started config.now contract (persistent pre.now) party.now }
{
    for entry in pre {
        if let Pre::Persistent {
            party: owner,
            name,
            ..
        } = entry
            && *owner == *party
            && !config.is_init_authorised(contract, name)
        {
            return false;
        }
    }
    true
}

// That a party signs, if it has a deposit left to sign.
fn put_sign(
    alloc: Global,
    found: &mut Vec<Bytes>,
    several: bool,
    config: &Config,
    contract: u32,
    pre: &[Pre],
    party: &Name,
) -> Result<(), OutOfMemory>
    ensures { OnOk result (found.new.items ≡ found.old.items
        ++ signing several config.now contract pre.now (party.now ∷ [])) }
{
    if has_started(config, contract, pre, party) {
        return Ok(());
    }
    let text = does(alloc, several, contract, party, b" signs")?;
    found.push(text)?;
    Ok(())
}

#[tactic(auto, using(std::proofs::Common::append_assoc, crate::proofs::Firsts::sign_first))]
fn put_signing(
    alloc: Global,
    found: &mut Vec<Bytes>,
    several: bool,
    config: &Config,
    contract: u32,
    pre: &[Pre],
    people: &[Name],
) -> Result<(), OutOfMemory>
    ensures { OnOk result (found.new.items ≡ found.old.items
        ++ signing several config.now contract pre.now people.now) }
{
    for party in people {
        put_sign(alloc, found, several, config, contract, pre, party)?;
    }
    Ok(())
}

// Once all have committed, the owners of its deposits sign.
fn put_signs(
    alloc: Global,
    found: &mut Vec<Bytes>,
    several: bool,
    config: &Config,
    contract: u32,
    checked: &Checked,
    people: &[Name],
) -> Result<(), OutOfMemory>
    ensures { OnOk result (found.new.items ≡ found.old.items
        ++ spec.sign_words several config.now contract checked.now people.now) }
{
    if !have_committed(config, contract, people) {
        return Ok(());
    }
    let pre = &checked.advert().pre;
    put_signing(alloc, found, several, config, contract, pre, people)
}

// What can be done of a contract that is advertised and hasn't begun.
#[tactic(auto, using(std::proofs::Common::append_assoc))]
fn put_opening(
    alloc: Global,
    found: &mut Vec<Bytes>,
    setting: &Setting,
    view: &View,
    contract: u32,
    checked: &Checked,
) -> Result<(), OutOfMemory>
    requires setting { IsSetting setting.now }
    requires offered { view.now.offered.now ≡ statuses.offered view.now.moment.now }
    ensures { OnOk result (found.new.items ≡ found.old.items
        ++ (spec.commit_words (setup_in setting.now) view.now.moment.now.configuration contract (participants checked.now)
        ++ (spec.sign_words (words.are_several (setup_in setting.now)) view.now.moment.now.configuration contract checked.now (participants checked.now)
        ++ spec.fire_words (words.are_several (setup_in setting.now)) view.now.moment.now (moments.move contract Init)))) }
{
    let moment = view.moment;
    let config = &moment.config;
    let people = checked.parties();
    put_commits(alloc, found, setting, config, contract, people)?;
    put_signs(
        alloc,
        found,
        setting.several,
        config,
        contract,
        checked,
        people,
    )?;
    put_fire(alloc, found, setting.several, view, &initial(contract))
}

pub(crate) fn put_beginning(
    alloc: Global,
    found: &mut Vec<Bytes>,
    setting: &Setting,
    view: &View,
    contract: u32,
    checked: &Checked,
) -> Result<(), OutOfMemory>
    requires setting { IsSetting setting.now }
    requires offered { view.now.offered.now ≡ statuses.offered view.now.moment.now }
    ensures { OnOk result (found.new.items ≡ found.old.items
        ++ spec.begin_words (setup_in setting.now) view.now.moment.now contract checked.now) }
{
    let moment = view.moment;
    let config = &moment.config;
    if config.is_advertised(contract) {
        put_opening(alloc, found, setting, view, contract, checked)
    } else {
        put_advertising(alloc, found, setting.several, config, contract, checked)
    }
}
