//! What a branch pays or leads to, in a line.

ghost use Rattle.std.specs.Prelude.{◌≡◌, ◌++◌, codes, flat_map, OnOk};
ghost use Rattle.std.specs.Fmt.{decimal};
ghost use Rattle.spec_bitcoin.specs.Keys.{path_text};
ghost use Rattle.spec_text.specs.RunText.{newline};
ghost use Rattle.spec_next.specs.OutlookText as spec;

use bm_calculus::Config;
use bm_keys::put_path;
use bm_text::{put, put_decimal};
use next_events::lead_at;
use spec_data::{Name, OutOfMemory};
use spec_next::{Lead, Made};
use spec_run::Event;
use spec_terms::PathStep;
use std::alloc::Global;

#[tactic(auto, using(std::proofs::Common::append_assoc))]
fn put_paid(alloc: Global, out: &mut Vec<u8>, party: &Name, value: u64) -> Result<(), OutOfMemory>
    ensures { OnOk result (out.new.items ≡ out.old.items ++ (codes " pays " ++ (party.now ++ (codes " " ++ decimal value)))) }
{
    put(out, b" pays ")?;
    put(out, party.bytes())?;
    put(out, b" ")?;
    put_decimal(alloc, out, value)
}

#[tactic(auto, using(std::proofs::Common::append_assoc))]
fn put_led(
    alloc: Global,
    out: &mut Vec<u8>,
    position: &[PathStep],
    value: u64,
) -> Result<(), OutOfMemory>
    ensures { OnOk result (out.new.items ≡ out.old.items ++ (codes " to " ++ (path_text position.now ++ (codes " " ++ decimal value)))) }
{
    put(out, b" to ")?;
    put_path(alloc, out, position)?;
    put(out, b" ")?;
    put_decimal(alloc, out, value)
}

fn put_output(alloc: Global, out: &mut Vec<u8>, made: &Made) -> Result<(), OutOfMemory>
    ensures { OnOk result (out.new.items ≡ out.old.items ++ spec.made_text made.now) }
{
    match made {
        Made::Paid { party, value } => put_paid(alloc, out, party, *value),
        Made::Led { position, value } => put_led(alloc, out, position.steps(), *value),
    }
}

#[tactic(auto, using(std::proofs::Common::append_assoc))]
fn put_outputs(alloc: Global, out: &mut Vec<u8>, made: &[Made]) -> Result<(), OutOfMemory>
    ensures { OnOk result (out.new.items ≡ out.old.items ++ flat_map spec.made_text made.now) }
{
    for output in made {
        put_output(alloc, out, output)?;
    }
    Ok(())
}

#[tactic(auto, using(std::proofs::Common::append_assoc))]
fn put_line(
    alloc: Global,
    out: &mut Vec<u8>,
    path: &[PathStep],
    made: &[Made],
) -> Result<(), OutOfMemory>
    ensures { OnOk result (out.new.items ≡ out.old.items
        ++ (codes "path " ++ (path_text path.now ++ (flat_map spec.made_text made.now ++ newline)))) }
{
    put(out, b"path ")?;
    put_path(alloc, out, path)?;
    put_outputs(alloc, out, made)?;
    put(out, b"\n")
}

#[tactic(auto, using(crate::proofs::Nothing::nothing_more))]
fn put_lead(alloc: Global, out: &mut Vec<u8>, lead: &Option<Lead>) -> Result<(), OutOfMemory>
    ensures { OnOk result (out.new.items ≡ out.old.items ++ spec.lead_text lead.now) }
{
    match lead {
        None => Ok(()),
        Some(lead) => put_line(alloc, out, lead.path.steps(), lead.made.as_slice()),
    }
}

fn put_branch_lead(
    alloc: Global,
    out: &mut Vec<u8>,
    config: &Config,
    output: u32,
    branch: u32,
) -> Result<(), OutOfMemory>
    ensures { OnOk result (out.new.items ≡ out.old.items ++ spec.event_lead config.now (Event.Fire output branch)) }
{
    let lead = lead_at(alloc, config, output, branch)?;
    put_lead(alloc, out, &lead)
}

/// Below a branch that is taken, its path and what it pays or leads to.
#[tactic(auto, using(crate::proofs::Nothing::nothing_more))]
pub(crate) fn put_event_lead(
    alloc: Global,
    out: &mut Vec<u8>,
    config: &Config,
    event: &Event,
) -> Result<(), OutOfMemory>
    ensures { OnOk result (out.new.items ≡ out.old.items ++ spec.event_lead config.now event.now) }
{
    match event {
        Event::Fire { output, branch } => put_branch_lead(alloc, out, config, *output, *branch),
        _ => Ok(()),
    }
}
