//! What comes next, as one object.

ghost use Rattle.std.specs.Prelude.{◌≡◌, ◌++◌, map, filter, flat_map, codes, option_map, Some, IfOk};
ghost use Rattle.serde_json.specs.Data.{object, no_members, member};
ghost use Rattle.serde_json.specs.Read.{read};
ghost use Rattle.serde_json.specs.View.{view};
ghost use Rattle.serde_json.specs.Written.{compact_text};
ghost use Rattle.spec_json.specs.Values as json;
ghost use Rattle.spec_next.specs.JsonForm as spec;
ghost use Rattle.spec_next.specs.Listed.{is_for_party, of_party};

use crate::events::add_listed;
use crate::names::name_values;
use crate::outputs::outputs;
use bm_calculus::Config;
use json_text::{line_of, list_value};
use next_text::{is_for_party, of_party};
use serde_json::{Value, json};
use spec_data::{Name, OutOfMemory};
use spec_next::Outlook;
use std::alloc::Global;

// ---- who can act

fn told_waits(alloc: Global, contract: u32, parties: Value) -> Result<Value, OutOfMemory>
    ensures { IfOk result (λ v. view v ≡ object
        (member (codes "contract") (json.number_value contract) (member (codes "parties") (view parties) no_members))) }
{
    json!(in alloc; {"contract": contract, "parties": parties})
}

fn parties_value(alloc: Global, party: Option<&[u8]>, names: &[Name]) -> Result<Value, OutOfMemory>
    ensures { IfOk result (λ v. view v
        ≡ json.list_value (map json.text_value (of_party (option_map (λ p. p.now) party.entry) names.now))) }
{
    let names = of_party(alloc, party, names)?;
    Ok(list_value(name_values(alloc, names.as_slice())?))
}

fn waits_value(alloc: Global, party: Option<&[u8]>, outlook: &Outlook) -> Result<Value, OutOfMemory>
    ensures { IfOk result (λ v. view v ≡ spec.waits_value (option_map (λ p. p.now) party.entry) outlook.now) }
{
    let parties = parties_value(alloc, party, outlook.waits.as_slice())?;
    told_waits(alloc, outlook.contract, parties)
}

// ---- all contracts that are shown

#[tactic(auto, using(std::proofs::Common::append_assoc))]
fn waits_values(
    alloc: Global,
    party: Option<&[u8]>,
    outlooks: &[Outlook],
) -> Result<Vec<Value>, OutOfMemory>
    ensures { let asked = option_map (λ p. p.now) party.entry in
        IfOk result (λ vs. map view vs.items ≡ map (spec.waits_value asked) (filter (is_for_party asked) outlooks.now)) }
{
    let mut values = Vec::new(alloc);
    for outlook in outlooks {
        if is_for_party(party, outlook) {
            values.push(waits_value(alloc, party, outlook)?)?;
        }
    }
    Ok(values)
}

#[tactic(auto, using(std::proofs::Common::append_assoc))]
fn event_values(
    alloc: Global,
    party: Option<&[u8]>,
    config: &Config,
    outlooks: &[Outlook],
) -> Result<Vec<Value>, OutOfMemory>
    ensures { let asked = option_map (λ p. p.now) party.entry in
        IfOk result (λ vs. map view vs.items
        ≡ flat_map (spec.event_values asked config.now) (filter (is_for_party asked) outlooks.now)) }
{
    let mut values = Vec::new(alloc);
    for outlook in outlooks {
        if is_for_party(party, outlook) {
            add_listed(alloc, &mut values, party, config, outlook)?;
        }
    }
    Ok(values)
}

fn told(
    alloc: Global,
    events: Value,
    height: u32,
    outputs: Value,
    waits: Value,
) -> Result<Value, OutOfMemory>
    ensures { IfOk result (λ v. view v ≡ object
        (member (codes "events") (view events)
        (member (codes "height") (json.number_value height)
        (member (codes "outputs") (view outputs)
        (member (codes "waits") (view waits) no_members))))) }
{
    json!(in alloc; {"events": events, "height": height, "outputs": outputs, "waits": waits})
}

fn outlooks_value(
    alloc: Global,
    party: Option<&[u8]>,
    config: &Config,
    outlooks: &[Outlook],
) -> Result<Value, OutOfMemory>
    ensures { IfOk result (λ v. view v
        ≡ spec.outlooks_value (option_map (λ p. p.now) party.entry) config.now outlooks.now) }
{
    let events = list_value(event_values(alloc, party, config, outlooks)?);
    let outputs = outputs(alloc, config)?;
    let waits = list_value(waits_values(alloc, party, outlooks)?);
    told(alloc, events, config.time(), outputs, waits)
}

/// What comes next as a line of JSON, for all parties or for one. Without its line feed it reads back as the object.
#[tactic(auto, using(crate::proofs::Plain::has_no_float, crate::proofs::Plain::is_shallow))]
pub fn outlooks_json(
    alloc: Global,
    party: Option<&[u8]>,
    config: &Config,
    outlooks: &[Outlook],
) -> Result<Vec<u8>, OutOfMemory>
    ensures line { IfOk result (λ line. line.items
        ≡ json.json_line (spec.outlooks_value (option_map (λ p. p.now) party.entry) config.now outlooks.now)) }
    ensures reads { let value = spec.outlooks_value (option_map (λ p. p.now) party.entry) config.now outlooks.now in
        IfOk result (λ _. read (compact_text value) ≡ Some value) }
{
    let value = outlooks_value(alloc, party, config, outlooks)?;
    line_of(alloc, &value)
}
