//! Events as objects.

ghost use Rattle.std.specs.Prelude.{◌≡◌, ◌++◌, map, codes, option_map, IfOk, OnOk};
ghost use Rattle.serde_json.specs.Data.{object, no_members, member};
ghost use Rattle.serde_json.specs.View.{view};
ghost use Rattle.spec_json.specs.Values as json;
ghost use Rattle.spec_next.specs.JsonForm as spec;
ghost use Rattle.spec_text.specs.OutcomeText.{reason_text};
ghost use Rattle.spec_text.specs.RunText.{event_text};

use crate::branches::{lead_of_event, lead_path, makes_value};
use crate::missing::all_missing;
use crate::names::name_value;
use bm_calculus::Config;
use bm_report::put_reason;
use bm_runfile::put_event;
use json_text::{number_or_null, text_or_null, text_value};
use next_events::is_lost;
use next_text::listed_of;
use serde_json::{Value, json};
use spec_data::{Name, OutOfMemory};
use spec_next::{Outlook, Prospect, Ruling};
use spec_run::{Event, Reason};
use std::alloc::Global;

// ---- words

// The words that its line begins with.
fn kind(alloc: Global, event: &Event) -> Result<Value, OutOfMemory>
    ensures { IfOk result (λ v. view v ≡ json.text_value (spec.kind event.now)) }
{
    match event {
        Event::Advertise { .. } => text_value(alloc, b"advertise"),
        Event::Commit { .. } => text_value(alloc, b"commit"),
        Event::Endorse { .. } => text_value(alloc, b"endorse"),
        Event::Init { .. } => text_value(alloc, b"init"),
        Event::FireInit { .. } => text_value(alloc, b"fire init"),
        Event::Reveal { .. } => text_value(alloc, b"reveal"),
        Event::Authorise { .. } => text_value(alloc, b"authorise"),
        Event::Fire { .. } => text_value(alloc, b"fire"),
        Event::Post { .. } => text_value(alloc, b"post"),
        Event::Sign { .. } => text_value(alloc, b"sign"),
        Event::Give { .. } => text_value(alloc, b"give"),
        Event::Append { .. } => text_value(alloc, b"append"),
        Event::Mine { .. } => text_value(alloc, b"mine"),
    }
}

fn line(alloc: Global, event: &Event) -> Result<Value, OutOfMemory>
    ensures { IfOk result (λ v. view v ≡ json.text_value (event_text event.now)) }
{
    let mut text = Vec::new(alloc);
    put_event(alloc, &mut text, event)?;
    text_value(alloc, &text)
}

// The party that brings it; the others anybody can bring.
fn bringer(event: &Event) -> Option<&Name>
    ensures { option_map (λ n. n.now) result ≡ spec.bringer event.now }
{
    match event {
        Event::Commit { party, .. } => Some(party),
        Event::Endorse { party, .. } => Some(party),
        Event::Init { party, .. } => Some(party),
        Event::Reveal { party, .. } => Some(party),
        Event::Authorise { party, .. } => Some(party),
        Event::Sign { party, .. } => Some(party),
        Event::Give { party, .. } => Some(party),
        _ => None,
    }
}

fn party(alloc: Global, event: &Event) -> Result<Value, OutOfMemory>
    ensures { IfOk result (λ v. view v ≡ spec.name_value (spec.bringer event.now)) }
{
    name_value(alloc, bringer(event))
}

// The output of whose branch it is.
fn output(event: &Event) -> Value
    ensures { view result ≡ json.optional_value (option_map json.number_value (spec.output_of event.now)) }
{
    match event {
        Event::Authorise { output, .. } => number_or_null(Some(*output as u64)),
        Event::Fire { output, .. } => number_or_null(Some(*output as u64)),
        _ => number_or_null(None),
    }
}

// ---- what it would come to

// Whether it can come now, may come later, never comes, or would halt the run.
fn status(alloc: Global, ruling: &Ruling, lost: bool) -> Result<Value, OutOfMemory>
    ensures { IfOk result (λ v. view v ≡ json.text_value (spec.status_text ruling.now lost)) }
{
    match ruling {
        Ruling::Can => text_value(alloc, b"now"),
        Ruling::Cannot(_) => {
            if lost {
                text_value(alloc, b"never")
            } else {
                text_value(alloc, b"later")
            }
        }
        Ruling::Halts => text_value(alloc, b"halts"),
    }
}

fn some_reason(alloc: Global, reason: &Reason) -> Result<Value, OutOfMemory>
    ensures { IfOk result (λ v. view v ≡ json.text_value (reason_text reason.now)) }
{
    let mut text = Vec::new(alloc);
    put_reason(alloc, &mut text, reason)?;
    text_value(alloc, &text)
}

// Why it would be refused.
fn reason(alloc: Global, ruling: &Ruling) -> Result<Value, OutOfMemory>
    ensures { IfOk result (λ v. view v ≡ spec.reason_value ruling.now) }
{
    match ruling {
        Ruling::Can => text_or_null(alloc, None),
        Ruling::Cannot(reason) => some_reason(alloc, reason),
        Ruling::Halts => text_or_null(alloc, None),
    }
}

// ---- events

// What is told of an event.
struct Told {
    contract: u32,
    kind: Value,
    line: Value,
    makes: Value,
    missing: Value,
    output: Value,
    party: Value,
    path: Value,
    reason: Value,
    status: Value,
}

fn told_value(alloc: Global, told: Told) -> Result<Value, OutOfMemory>
    ensures { IfOk result (λ v. view v ≡ object
        (member (codes "contract") (json.number_value told.contract)
        (member (codes "kind") (view told.kind)
        (member (codes "line") (view told.line)
        (member (codes "makes") (view told.makes)
        (member (codes "missing") (view told.missing)
        (member (codes "output") (view told.output)
        (member (codes "party") (view told.party)
        (member (codes "path") (view told.path)
        (member (codes "reason") (view told.reason)
        (member (codes "status") (view told.status) no_members))))))))))) }
{
    let Told {
        contract,
        kind,
        line,
        makes,
        missing,
        output,
        party,
        path,
        reason,
        status,
    } = told;
    json!(in alloc; {
        "contract": contract,
        "kind": kind,
        "line": line,
        "makes": makes,
        "missing": missing,
        "output": output,
        "party": party,
        "path": path,
        "reason": reason,
        "status": status
    })
}

/// An event of a contract.
fn event_value(
    alloc: Global,
    config: &Config,
    contract: u32,
    prospect: &Prospect,
) -> Result<Value, OutOfMemory>
    ensures { IfOk result (λ v. view v ≡ spec.event_value config.now contract prospect.now) }
{
    let event = &prospect.event;
    let lead = lead_of_event(alloc, config, event)?;
    let told = Told {
        contract,
        kind: kind(alloc, event)?,
        line: line(alloc, event)?,
        makes: makes_value(alloc, &lead)?,
        missing: all_missing(alloc, prospect.requirements.as_slice())?,
        output: output(event),
        party: party(alloc, event)?,
        path: lead_path(alloc, &lead)?,
        reason: reason(alloc, &prospect.ruling)?,
        status: status(alloc, &prospect.ruling, is_lost(prospect))?,
    };
    told_value(alloc, told)
}

// Adds each of these events of a contract.
#[tactic(auto, using(std::proofs::Common::append_assoc))]
fn add_events(
    alloc: Global,
    values: &mut Vec<Value>,
    config: &Config,
    contract: u32,
    prospects: &[Prospect],
) -> Result<(), OutOfMemory>
    ensures { OnOk result (map view values.new.items
        ≡ map view values.old.items ++ map (spec.event_value config.now contract) prospects.now) }
{
    for prospect in prospects {
        values.push(event_value(alloc, config, contract, prospect)?)?;
    }
    Ok(())
}

/// Adds the events that are listed of a contract, for all or for one party.
pub(crate) fn add_listed(
    alloc: Global,
    values: &mut Vec<Value>,
    party: Option<&[u8]>,
    config: &Config,
    outlook: &Outlook,
) -> Result<(), OutOfMemory>
    ensures { OnOk result (map view values.new.items
        ≡ map view values.old.items ++ spec.event_values (option_map (λ p. p.now) party.entry) config.now outlook.now) }
{
    let listed = listed_of(alloc, party, outlook)?;
    add_events(alloc, values, config, outlook.contract, listed.as_slice())
}
