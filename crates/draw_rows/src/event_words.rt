//! The events of a run in words, and who acts.

ghost use Rattle.std.specs.Prelude.{◌≡◌, ◌++◌, codes, map, IfOk, OnOk};
ghost use Rattle.spec_bitcoin.specs.Keys.{label_text};
ghost use Rattle.spec_text.specs.Canonical.{joined};
ghost use Rattle.spec_page.specs.EventWords as spec;
ghost use Rattle.spec_page.specs.Figures.{sum_text};
ghost use Rattle.spec_page.specs.Moments.{moves_by};

use crate::figures::put_sum;
use crate::places::{Place, Taking, put_takings};
use crate::words::{
    put_advertise, put_contract, put_does, put_joined, put_shows, put_taking, put_way,
};
use bm_keys::put_label;
use bm_text::put;
use spec_bitcoin::Label;
use spec_calculus::Step;
use spec_data::{Bytes, Name, OutOfMemory};
use spec_run::Event;
use std::alloc::Global;

#[tactic(auto, using(std::proofs::Common::append_assoc))]
fn put_blocks(alloc: Global, out: &mut Vec<u8>, blocks: u32) -> Result<(), OutOfMemory>
    ensures { OnOk result (out.new.items ≡ out.old.items ++ spec.blocks_text blocks) }
{
    put_sum(alloc, out, blocks as u64)?;
    if blocks > 1 {
        put(out, b" blocks")
    } else {
        put(out, b" block")
    }
}

#[tactic(auto, using(std::proofs::Common::append_assoc))]
fn share(alloc: Global, party: &Name, value: u64) -> Result<Bytes, OutOfMemory>
    ensures { IfOk result (λ text. text ≡ spec.share_text (party.now, value)) }
{
    let mut text = Vec::new(alloc);
    put(&mut text, party.bytes())?;
    put(&mut text, b" ")?;
    put_sum(alloc, &mut text, value)?;
    Ok(Bytes::of(text))
}

fn shares(alloc: Global, outputs: &[(Name, u64)]) -> Result<Vec<Bytes>, OutOfMemory>
    ensures { IfOk result (λ texts. texts.items ≡ map spec.share_text outputs.now) }
{
    let mut texts = Vec::new(alloc);
    for (party, value) in outputs {
        let text = share(alloc, party, *value)?;
        texts.push(text)?;
    }
    Ok(texts)
}

#[tactic(auto, using(std::proofs::Common::append_assoc))]
fn put_gives(
    alloc: Global,
    out: &mut Vec<u8>,
    party: &Name,
    outputs: &[(Name, u64)],
) -> Result<(), OutOfMemory>
    ensures { OnOk result (out.new.items ≡ out.old.items
        ++ (party.now ++ (codes " gives " ++ joined (codes ", ") (map spec.share_text outputs.now)))) }
{
    let texts = shares(alloc, outputs)?;
    put(out, party.bytes())?;
    put(out, b" gives ")?;
    put_joined(out, b", ", &texts)
}

#[tactic(auto, using(std::proofs::Common::append_assoc))]
fn put_signs(
    alloc: Global,
    out: &mut Vec<u8>,
    party: &Name,
    label: &Label,
) -> Result<(), OutOfMemory>
    ensures { OnOk result (out.new.items ≡ out.old.items ++ (party.now ++ (codes " signs " ++ label_text label.now))) }
{
    put(out, party.bytes())?;
    put(out, b" signs ")?;
    put_label(alloc, out, label)
}

#[tactic(auto, using(std::proofs::Common::append_assoc))]
fn put_agrees_there(
    alloc: Global,
    out: &mut Vec<u8>,
    several: bool,
    places: &[Place],
    party: &Name,
    output: u32,
    branch: u32,
) -> Result<(), OutOfMemory>
    ensures { OnOk result (out.new.items ≡ out.old.items
        ++ (party.now ++ (codes " agrees to " ++ spec.way_text several places.now output branch))) }
{
    put(out, party.bytes())?;
    put(out, b" agrees to ")?;
    put_way(alloc, out, several, places, output, branch)
}

/// The first secret that these steps reveal, with its owner.
pub(crate) fn shown_by(steps: &[Step]) -> Option<(Name, Name)>
    ensures { result ≡ spec.shown_by steps.now }
{
    for step in steps {
        if let Step::Reveal { party, secret, .. } = step {
            return Some((*party, *secret));
        }
    }
    None
}

#[tactic(auto, using(std::proofs::Common::append_assoc))]
fn put_size(alloc: Global, out: &mut Vec<u8>, before: &[u8], size: usize) -> Result<(), OutOfMemory>
    ensures { OnOk result (out.new.items ≡ out.old.items ++ (before.now ++ (sum_text size ++ codes " bytes"))) }
{
    put(out, before)?;
    put_sum(alloc, out, size as u64)?;
    put(out, b" bytes")
}

// Posted bytes, of which it is told whose secret they are.
#[tactic(auto, using(std::proofs::Common::append_assoc))]
fn put_posted(
    alloc: Global,
    out: &mut Vec<u8>,
    bytes: &[u8],
    shown: Option<(Name, Name)>,
) -> Result<(), OutOfMemory>
    ensures { OnOk result (out.new.items ≡ out.old.items ++ spec.posted_text bytes.now shown) }
{
    match shown {
        None => put_size(alloc, out, b"post ", bytes.len()),
        Some((party, secret)) => {
            put(out, b"post: ")?;
            put_shows(out, &party, &secret)
        }
    }
}

#[tactic(auto, using(std::proofs::Common::append_assoc))]
fn put_fire_of(
    alloc: Global,
    out: &mut Vec<u8>,
    several: bool,
    taking: &Taking,
) -> Result<(), OutOfMemory>
    ensures { OnOk result (out.new.items ≡ out.old.items
        ++ (codes "a transaction: fire " ++ spec.move_text several taking.now)) }
{
    put(out, b"a transaction: fire ")?;
    put_taking(alloc, out, several, taking)
}

// A raw transaction, of which it is told what it takes.
fn put_raw(
    alloc: Global,
    out: &mut Vec<u8>,
    several: bool,
    bytes: &[u8],
    taken: &[Taking],
) -> Result<(), OutOfMemory>
    ensures { OnOk result (out.new.items ≡ out.old.items ++ spec.raw_text several bytes.now taken.now) }
{
    match taken.split_first() {
        None => put_size(alloc, out, b"a transaction of ", bytes.len()),
        Some((first, _)) => put_fire_of(alloc, out, several, first),
    }
}

fn put_append(
    alloc: Global,
    out: &mut Vec<u8>,
    several: bool,
    places: &[Place],
    steps: &[Step],
    bytes: &[u8],
) -> Result<(), OutOfMemory>
    ensures { OnOk result (out.new.items ≡ out.old.items
        ++ spec.raw_text several bytes.now (moves_by places.now steps.now)) }
{
    let mut taken = Vec::new(alloc);
    put_takings(alloc, &mut taken, places, steps)?;
    put_raw(alloc, out, several, bytes, &taken)
}

#[tactic(auto, using(std::proofs::Common::append_assoc))]
fn put_begins(
    alloc: Global,
    out: &mut Vec<u8>,
    several: bool,
    contract: u32,
) -> Result<(), OutOfMemory>
    ensures { OnOk result (out.new.items ≡ out.old.items
        ++ (codes "fire " ++ (spec.contract_text several contract ++ codes "init"))) }
{
    put(out, b"fire ")?;
    put_contract(alloc, out, several, contract)?;
    put(out, b"init")
}

#[tactic(auto, using(std::proofs::Common::append_assoc))]
fn put_fires(
    alloc: Global,
    out: &mut Vec<u8>,
    several: bool,
    places: &[Place],
    output: u32,
    branch: u32,
) -> Result<(), OutOfMemory>
    ensures { OnOk result (out.new.items ≡ out.old.items ++ (codes "fire " ++ spec.way_text several places.now output branch)) }
{
    put(out, b"fire ")?;
    put_way(alloc, out, several, places, output, branch)
}

/// An event with these steps, where these outputs stand for positions.
pub(crate) fn put_event_words(
    alloc: Global,
    out: &mut Vec<u8>,
    several: bool,
    places: &[Place],
    steps: &[Step],
    event: &Event,
) -> Result<(), OutOfMemory>
    ensures { OnOk result (out.new.items ≡ out.old.items
        ++ spec.event_words several places.now steps.now event.now) }
{
    match event {
        Event::Advertise { contract, .. } => put_advertise(alloc, out, several, *contract),
        Event::Commit {
            contract,
            party,
            ..
        } => put_does(alloc, out, several, *contract, party, b" commits"),
        Event::Endorse { contract, party } => {
            put_does(alloc, out, several, *contract, party, b" endorses")
        }
        Event::Init { contract, party } => {
            put_does(alloc, out, several, *contract, party, b" inits")
        }
        Event::Authorise {
            party,
            output,
            branch,
        } => put_agrees_there(alloc, out, several, places, party, *output, *branch),
        Event::Reveal { party, secret, .. } => put_shows(out, party, secret),
        Event::Post { bytes } => put_posted(alloc, out, bytes.as_slice(), shown_by(steps)),
        Event::Sign { party, label, .. } => put_signs(alloc, out, party, label.value()),
        Event::Give { party, outputs, .. } => {
            put_gives(alloc, out, party, outputs.value().as_slice())
        }
        Event::Append { bytes } => {
            put_append(alloc, out, several, places, steps, bytes.as_slice())
        }
        Event::FireInit { contract } => put_begins(alloc, out, several, *contract),
        Event::Fire { output, branch } => {
            put_fires(alloc, out, several, places, *output, *branch)
        }
        Event::Mine { blocks } => put_blocks(alloc, out, *blocks),
    }
}

fn first_of(shown: Option<(Name, Name)>) -> Option<Name>
    ensures { result ≡ spec.first_of shown }
{
    match shown {
        None => None,
        Some((party, _)) => Some(party),
    }
}

/// The party that acts in an event with these steps; none where anyone can.
pub(crate) fn actor(steps: &[Step], event: &Event) -> Option<Name>
    ensures { result ≡ spec.actor steps.now event.now }
{
    match event {
        Event::Commit { party, .. } => Some(*party),
        Event::Endorse { party, .. } => Some(*party),
        Event::Init { party, .. } => Some(*party),
        Event::Authorise { party, .. } => Some(*party),
        Event::Reveal { party, .. } => Some(*party),
        Event::Post { .. } => first_of(shown_by(steps)),
        Event::Sign { party, .. } => Some(*party),
        Event::Give { party, .. } => Some(*party),
        _ => None,
    }
}
