//! What comes next of contracts, in lines.

ghost use Rattle.std.specs.Prelude.{◌≡◌, ◌++◌, codes, filter, flat_map, option_map, IfOk, OnOk};
ghost use Rattle.std.specs.Fmt.{decimal};
ghost use Rattle.spec_text.specs.RunText.{newline, event_text};
ghost use Rattle.spec_text.specs.OutcomeText.{reason_text};
ghost use Rattle.spec_next.specs.Listed.{before, from_branches, is_for_party, of_party};
ghost use Rattle.spec_next.specs.OutlookText as spec;

use crate::lead::put_event_lead;
use crate::listed::{is_before, is_for_party, is_meant, listed_of};
use crate::together::put_requirements;
use bm_calculus::Config;
use bm_report::put_reason;
use bm_runfile::{put_event, put_word_number};
use bm_text::put;
use spec_data::{Name, OutOfMemory, Seq};
use spec_next::{Outlook, Prospect, Requirement, Ruling};
use spec_run::{Event, Reason};
use std::alloc::Global;

#[tactic(auto, using(std::proofs::Common::append_assoc))]
fn put_can(alloc: Global, out: &mut Vec<u8>, event: &Event) -> Result<(), OutOfMemory>
    ensures { OnOk result (out.new.items ≡ out.old.items ++ (codes "can " ++ (event_text event.now ++ newline))) }
{
    put(out, b"can ")?;
    put_event(alloc, out, event)?;
    put(out, b"\n")
}

#[tactic(auto, using(std::proofs::Common::append_assoc))]
fn put_cannot(
    alloc: Global,
    out: &mut Vec<u8>,
    event: &Event,
    reason: &Reason,
) -> Result<(), OutOfMemory>
    ensures { OnOk result (out.new.items ≡ out.old.items
        ++ (codes "cannot " ++ (event_text event.now ++ (codes " " ++ (reason_text reason.now ++ newline))))) }
{
    put(out, b"cannot ")?;
    put_event(alloc, out, event)?;
    put(out, b" ")?;
    put_reason(alloc, out, reason)?;
    put(out, b"\n")
}

#[tactic(auto, using(std::proofs::Common::append_assoc))]
fn put_halts(alloc: Global, out: &mut Vec<u8>, event: &Event) -> Result<(), OutOfMemory>
    ensures { OnOk result (out.new.items ≡ out.old.items
        ++ (codes "cannot " ++ (event_text event.now ++ (codes " halts" ++ newline)))) }
{
    put(out, b"cannot ")?;
    put_event(alloc, out, event)?;
    put(out, b" halts\n")
}

fn put_ruling(
    alloc: Global,
    out: &mut Vec<u8>,
    event: &Event,
    ruling: &Ruling,
) -> Result<(), OutOfMemory>
    ensures { OnOk result (out.new.items ≡ out.old.items ++ spec.ruling_line event.now ruling.now) }
{
    match ruling {
        Ruling::Can => put_can(alloc, out, event),
        Ruling::Cannot(reason) => put_cannot(alloc, out, event, reason),
        Ruling::Halts => put_halts(alloc, out, event),
    }
}

// ---- before the branches

fn put_prospect_line(
    alloc: Global,
    out: &mut Vec<u8>,
    prospect: &Prospect,
) -> Result<(), OutOfMemory>
    ensures { OnOk result (out.new.items ≡ out.old.items ++ spec.prospect_line prospect.now) }
{
    put_ruling(alloc, out, &prospect.event, &prospect.ruling)
}

// The lines of the events before the branches.
#[tactic(auto, using(std::proofs::Common::append_assoc))]
fn put_lines_before(
    alloc: Global,
    out: &mut Vec<u8>,
    prospects: &[Prospect],
) -> Result<(), OutOfMemory>
    ensures { OnOk result (out.new.items ≡ out.old.items ++ flat_map spec.prospect_line (before prospects.now)) }
{
    for prospect in prospects {
        if is_before(prospect) {
            put_prospect_line(alloc, out, prospect)?;
        }
    }
    Ok(())
}

// Adds all of these.
#[tactic(auto, using(std::proofs::Common::append_assoc))]
fn add_requirements(
    all: &mut Seq<Requirement>,
    requirements: &[Requirement],
) -> Result<(), OutOfMemory>
    ensures { OnOk result (all.new ≡ all.old ++ requirements.now) }
{
    for requirement in requirements {
        all.push(requirement.copy())?;
    }
    Ok(())
}

// What is missing for all of them.
#[tactic(auto, using(std::proofs::Common::append_assoc))]
fn requirements_before(
    alloc: Global,
    prospects: &[Prospect],
) -> Result<Seq<Requirement>, OutOfMemory>
    ensures { IfOk result (λ all. all ≡ flat_map (λ p. p.requirements) (before prospects.now)) }
{
    let mut all = Seq::new(alloc);
    for prospect in prospects {
        if is_before(prospect) {
            add_requirements(&mut all, prospect.requirements.as_slice())?;
        }
    }
    Ok(all)
}

#[tactic(auto, using(std::proofs::Common::append_assoc))]
fn put_before(alloc: Global, out: &mut Vec<u8>, prospects: &[Prospect]) -> Result<(), OutOfMemory>
    ensures { OnOk result (out.new.items ≡ out.old.items ++ spec.before_text (before prospects.now)) }
{
    put_lines_before(alloc, out, prospects)?;
    let required = requirements_before(alloc, prospects)?;
    put_requirements(alloc, out, required.as_slice())
}

// ---- branches

#[tactic(auto, using(std::proofs::Common::append_assoc))]
fn put_branch(
    alloc: Global,
    out: &mut Vec<u8>,
    config: &Config,
    prospect: &Prospect,
) -> Result<(), OutOfMemory>
    ensures { OnOk result (out.new.items ≡ out.old.items ++ spec.branch_text config.now prospect.now) }
{
    put_prospect_line(alloc, out, prospect)?;
    put_event_lead(alloc, out, config, &prospect.event)?;
    put_requirements(alloc, out, prospect.requirements.as_slice())
}

#[tactic(auto, using(std::proofs::Common::append_assoc))]
fn put_branches(
    alloc: Global,
    out: &mut Vec<u8>,
    config: &Config,
    prospects: &[Prospect],
) -> Result<(), OutOfMemory>
    ensures { OnOk result (out.new.items ≡ out.old.items ++ flat_map (spec.branch_text config.now) (from_branches prospects.now)) }
{
    for prospect in prospects {
        if !is_before(prospect) {
            put_branch(alloc, out, config, prospect)?;
        }
    }
    Ok(())
}

#[tactic(auto, using(std::proofs::Common::append_assoc))]
fn put_prospects(
    alloc: Global,
    out: &mut Vec<u8>,
    config: &Config,
    prospects: &[Prospect],
) -> Result<(), OutOfMemory>
    ensures { OnOk result (out.new.items ≡ out.old.items ++ spec.prospects_text config.now prospects.now) }
{
    put_before(alloc, out, prospects)?;
    put_branches(alloc, out, config, prospects)
}

// ---- contracts

#[tactic(auto, using(std::proofs::Common::append_assoc))]
fn put_waiting(out: &mut Vec<u8>, party: &Name) -> Result<(), OutOfMemory>
    ensures { OnOk result (out.new.items ≡ out.old.items ++ spec.waits_line party.now) }
{
    put(out, b"waits ")?;
    put(out, party.bytes())?;
    put(out, b"\n")
}

// Who can give now what is missing, of those that are asked for.
#[tactic(auto, using(std::proofs::Common::append_assoc))]
fn put_waits(out: &mut Vec<u8>, party: Option<&[u8]>, names: &[Name]) -> Result<(), OutOfMemory>
    ensures { OnOk result (out.new.items
        ≡ out.old.items ++ flat_map spec.waits_line (of_party (option_map (λ p. p.now) party.entry) names.now)) }
{
    for name in names {
        if is_meant(party, name) {
            put_waiting(out, name)?;
        }
    }
    Ok(())
}

// A word and a number on a line.
#[tactic(auto, using(std::proofs::Common::append_assoc))]
fn put_number_line(
    alloc: Global,
    out: &mut Vec<u8>,
    word: &[u8],
    number: u32,
) -> Result<(), OutOfMemory>
    ensures { OnOk result (out.new.items ≡ out.old.items ++ (word.now ++ (decimal number ++ newline))) }
{
    put_word_number(alloc, out, word, number)?;
    put(out, b"\n")
}

#[tactic(auto, using(std::proofs::Common::append_assoc))]
fn put_outlook(
    alloc: Global,
    out: &mut Vec<u8>,
    party: Option<&[u8]>,
    config: &Config,
    outlook: &Outlook,
) -> Result<(), OutOfMemory>
    ensures { OnOk result (out.new.items
        ≡ out.old.items ++ spec.outlook_text (option_map (λ p. p.now) party.entry) config.now outlook.now) }
{
    let listed = listed_of(alloc, party, outlook)?;
    put_number_line(alloc, out, b"contract ", outlook.contract)?;
    put_prospects(alloc, out, config, listed.as_slice())?;
    put_waits(out, party, outlook.waits.as_slice())
}

// Those that are shown of these contracts, one after another.
#[tactic(auto, using(std::proofs::Common::append_assoc))]
fn put_outlooks(
    alloc: Global,
    out: &mut Vec<u8>,
    party: Option<&[u8]>,
    config: &Config,
    outlooks: &[Outlook],
) -> Result<(), OutOfMemory>
    ensures { let asked = option_map (λ p. p.now) party.entry in
        OnOk result (out.new.items
        ≡ out.old.items ++ flat_map (spec.outlook_text asked config.now) (filter (is_for_party asked) outlooks.now)) }
{
    for outlook in outlooks {
        if is_for_party(party, outlook) {
            put_outlook(alloc, out, party, config, outlook)?;
        }
    }
    Ok(())
}

/// What comes next: the height and contracts, one after another, for all parties or for one.
#[tactic(auto, using(std::proofs::Common::append_assoc))]
pub fn outlooks_text(
    alloc: Global,
    party: Option<&[u8]>,
    config: &Config,
    outlooks: &[Outlook],
) -> Result<Vec<u8>, OutOfMemory>
    ensures { IfOk result (λ text. text.items ≡ spec.outlooks_text (option_map (λ p. p.now) party.entry) config.now outlooks.now) }
{
    let mut out = Vec::new(alloc);
    put_number_line(alloc, &mut out, b"height ", config.time())?;
    put_outlooks(alloc, &mut out, party, config, outlooks)?;
    Ok(out)
}
