//! The path of a branch, and what it makes.

ghost use Rattle.std.specs.Prelude.{◌≡◌, map, codes, IfOk};
ghost use Rattle.serde_json.specs.Data.{object, no_members, member};
ghost use Rattle.serde_json.specs.View.{view};
ghost use Rattle.spec_bitcoin.specs.Keys.{path_text};
ghost use Rattle.spec_json.specs.Values as json;
ghost use Rattle.spec_next.specs.JsonForm as spec;
ghost use Rattle.spec_next.specs.declared.lead.Made.TheVariants as makes;

use crate::names::path_value;
use bm_calculus::Config;
use json_text::{list_value, text_or_null, text_value};
use next_events::lead_at;
use serde_json::{Value, json};
use spec_data::{Name, OutOfMemory};
use spec_next::{Lead, Made};
use spec_run::Event;
use spec_terms::PathStep;
use std::alloc::Global;

/// The branch of an event, with what it makes.
pub(crate) fn lead_of_event(
    alloc: Global,
    config: &Config,
    event: &Event,
) -> Result<Option<Lead>, OutOfMemory>
    ensures { IfOk result (λ lead. lead ≡ spec.lead_of_event config.now event.now) }
{
    match event {
        Event::Authorise { output, branch, .. } => lead_at(alloc, config, *output, *branch),
        Event::Fire { output, branch } => lead_at(alloc, config, *output, *branch),
        _ => Ok(None),
    }
}

/// Its path, or `null`.
pub(crate) fn lead_path(alloc: Global, lead: &Option<Lead>) -> Result<Value, OutOfMemory>
    ensures { IfOk result (λ v. view v ≡ spec.path_value lead.now) }
{
    match lead {
        None => text_or_null(alloc, None),
        Some(lead) => path_value(alloc, lead.path.steps()),
    }
}

fn told_paid(alloc: Global, party: Value, value: u64) -> Result<Value, OutOfMemory>
    ensures { IfOk result (λ v. view v ≡ object
        (member (codes "party") (view party) (member (codes "value") (json.number_value value) no_members))) }
{
    json!(in alloc; {"party": party, "value": value})
}

fn told_led(alloc: Global, path: Value, value: u64) -> Result<Value, OutOfMemory>
    ensures { IfOk result (λ v. view v ≡ object
        (member (codes "path") (view path) (member (codes "value") (json.number_value value) no_members))) }
{
    json!(in alloc; {"path": path, "value": value})
}

// A deposit of a party.
fn paid_value(alloc: Global, party: &Name, value: u64) -> Result<Value, OutOfMemory>
    ensures { IfOk result (λ v. view v ≡ spec.made_value (makes.Paid party.now value)) }
{
    let party = text_value(alloc, party.bytes())?;
    told_paid(alloc, party, value)
}

// A contract that goes on.
fn led_value(alloc: Global, path: &[PathStep], value: u64) -> Result<Value, OutOfMemory>
    ensures { IfOk result (λ v. view v ≡ spec.made_value (makes.Led path.now value)) }
{
    let path = path_value(alloc, path)?;
    told_led(alloc, path, value)
}

fn made_value(alloc: Global, made: &Made) -> Result<Value, OutOfMemory>
    ensures { IfOk result (λ v. view v ≡ spec.made_value made.now) }
{
    match made {
        Made::Paid { party, value } => paid_value(alloc, party, *value),
        Made::Led { position, value } => led_value(alloc, position.steps(), *value),
    }
}

fn made_values(alloc: Global, made: &[Made]) -> Result<Vec<Value>, OutOfMemory>
    ensures { IfOk result (λ vs. map view vs.items ≡ map spec.made_value made.now) }
{
    let mut values = Vec::new(alloc);
    for output in made {
        values.push(made_value(alloc, output)?)?;
    }
    Ok(values)
}

// All that it makes.
fn some_made(alloc: Global, made: &[Made]) -> Result<Value, OutOfMemory>
    ensures { IfOk result (λ v. view v ≡ json.list_value (map spec.made_value made.now)) }
{
    Ok(list_value(made_values(alloc, made)?))
}

/// All that it makes, nothing without a branch.
pub(crate) fn makes_value(alloc: Global, lead: &Option<Lead>) -> Result<Value, OutOfMemory>
    ensures { IfOk result (λ v. view v ≡ spec.makes_value lead.now) }
{
    match lead {
        None => some_made(alloc, &[]),
        Some(lead) => some_made(alloc, lead.made.as_slice()),
    }
}
