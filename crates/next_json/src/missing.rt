//! What an event lacks.

ghost use Rattle.std.specs.Prelude.{◌≡◌, map, codes, IfOk};
ghost use Rattle.serde_json.specs.Data.{object, no_members, member};
ghost use Rattle.serde_json.specs.View.{view};
ghost use Rattle.spec_json.specs.Values as json;
ghost use Rattle.spec_next.specs.JsonForm as spec;
ghost use Rattle.spec_next.specs.RequirementText.{requirement_text};

use crate::names::name_value;
use json_text::{list_value, text_value};
use next_events::awaited;
use next_text::put_requirement;
use serde_json::{Value, json};
use spec_data::OutOfMemory;
use spec_next::Requirement;
use std::alloc::Global;

// The line that says it.
fn line_value(alloc: Global, requirement: &Requirement) -> Result<Value, OutOfMemory>
    ensures { IfOk result (λ v. view v ≡ json.text_value (requirement_text requirement.now)) }
{
    let mut text = Vec::new(alloc);
    put_requirement(alloc, &mut text, requirement)?;
    text_value(alloc, &text)
}

fn told_missing(alloc: Global, line: Value, party: Value) -> Result<Value, OutOfMemory>
    ensures { IfOk result (λ v. view v ≡ object (member (codes "line") (view line) (member (codes "party") (view party) no_members))) }
{
    json!(in alloc; {"line": line, "party": party})
}

fn missing_value(alloc: Global, requirement: &Requirement) -> Result<Value, OutOfMemory>
    ensures { IfOk result (λ v. view v ≡ spec.missing_value requirement.now) }
{
    let line = line_value(alloc, requirement)?;
    let party = name_value(alloc, awaited(requirement))?;
    told_missing(alloc, line, party)
}

fn missing_values(alloc: Global, requirements: &[Requirement]) -> Result<Vec<Value>, OutOfMemory>
    ensures { IfOk result (λ vs. map view vs.items ≡ map spec.missing_value requirements.now) }
{
    let mut values = Vec::new(alloc);
    for requirement in requirements {
        values.push(missing_value(alloc, requirement)?)?;
    }
    Ok(values)
}

/// All that it lacks.
pub(crate) fn all_missing(alloc: Global, requirements: &[Requirement]) -> Result<Value, OutOfMemory>
    ensures { IfOk result (λ v. view v ≡ json.list_value (map spec.missing_value requirements.now)) }
{
    Ok(list_value(missing_values(alloc, requirements)?))
}
