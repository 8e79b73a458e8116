//! The first lines of a run.

ghost use Rattle.std.specs.Prelude.{◌≡◌, ◌++◌, map, flat_map, codes, IfOk, OnOk};
ghost use Rattle.spec_terms.specs.Precondition.{deposits, secrets};
ghost use Rattle.spec_text.specs.RunText.{newline, event_text, party_text, honest_text, deposit_text};
ghost use Rattle.spec_next.specs.FirstLines as spec;

use crate::first_events::first_events;
use crate::header::{put_deposits, put_honest, put_parties, put_secrets};
use bm_runfile::put_event;
use bm_text::put;
use bm_wellformed::Checked;
use spec_data::{Name, OutOfMemory};
use spec_run::Event;
use spec_terms::Pre;
use std::alloc::Global;

#[tactic(auto, using(std::proofs::Common::append_assoc))]
fn put_event_line(alloc: Global, out: &mut Vec<u8>, event: &Event) -> Result<(), OutOfMemory>
    ensures { OnOk result (out.new.items ≡ out.old.items ++ (event_text event.now ++ newline)) }
{
    put_event(alloc, out, event)?;
    put(out, b"\n")
}

fn put_events(alloc: Global, out: &mut Vec<u8>, events: &[Event]) -> Result<(), OutOfMemory>
    ensures { OnOk result (out.new.items ≡ out.old.items ++ flat_map (λ e. event_text e ++ newline) events.now) }
{
    for event in events {
        put_event_line(alloc, out, event)?;
    }
    Ok(())
}

// The lines of a run of these parties, with this precondition and these events.
#[tactic(auto, using(std::proofs::Common::append_assoc))]
fn put_lines(
    alloc: Global,
    out: &mut Vec<u8>,
    parties: &[Name],
    pre: &[Pre],
    events: &[Event],
) -> Result<(), OutOfMemory>
    ensures { OnOk result (out.new.items ≡ out.old.items ++ (
        flat_map party_text parties.now
        ++ (flat_map honest_text parties.now
        ++ (spec.secret_lines (secrets pre.now) (map (λ x. spec.placeholder) (secrets pre.now))
        ++ (flat_map deposit_text (spec.owned (deposits pre.now))
        ++ ((codes "--" ++ newline)
        ++ flat_map (λ e. event_text e ++ newline) events.now)))))) }
{
    put_parties(out, parties)?;
    put_honest(out, parties)?;
    put_secrets(out, pre)?;
    put_deposits(alloc, out, pre)?;
    put(out, b"--\n")?;
    put_events(alloc, out, events)
}

// The lines, with a placeholder for each secret.
fn first_lines(alloc: Global, contract: &Checked) -> Result<Vec<u8>, OutOfMemory>
    ensures { IfOk result (λ text. text.items
        ≡ spec.first_lines contract.now (map (λ x. spec.placeholder) (secrets contract.now.pre))) }
{
    let events = first_events(alloc, contract)?;
    let pre = &contract.advert().pre;
    let mut out = Vec::new(alloc);
    put_lines(alloc, &mut out, contract.parties(), pre, events.as_slice())?;
    Ok(out)
}

/// The run file to start from: a line for each party, honest party, secret and deposit of the contract, and the events up to its
/// beginning. The bytes of the secrets are to be filled in.
pub fn begin_text(alloc: Global, contract: &Checked) -> Result<Vec<u8>, OutOfMemory>
    ensures { IfOk result (λ text. text.items ≡ spec.begin_text contract.now) }
{
    first_lines(alloc, contract)
}
