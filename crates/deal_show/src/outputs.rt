//! The outputs of a transaction: whose payout each is, or at which position the contract goes on.

ghost use Rattle.std.specs.Prelude.{◌≡◌, ◌∷◌, [], map, codes, IfOk};
ghost use Rattle.serde_json.specs.View.{view};
ghost use Rattle.spec_json.specs.Values.{number_value};
ghost use Rattle.spec_show.specs.Objects.{object_of};
ghost use Rattle.spec_show.specs.ShownDeal as spec;
ghost use Rattle.deal_show.specs.Making.{made_in};

use crate::made::Made;
use crate::values::{address_value, hex_value, path_value, text_value};
use serde_json::{Value, json};
use spec_bitcoin::TxOut;
use spec_data::{Name, OutOfMemory};
use std::alloc::Global;

// Whom an output pays.
fn party_value(alloc: Global, made: &Made) -> Result<Value, OutOfMemory>
    ensures { IfOk result (λ v. view v ≡ spec.made_party (made_in made.now)) }
{
    match made {
        Made::GoesOn(_) => Ok(Value::Null),
        Made::Paid(party) => text_value(alloc, party.bytes()),
    }
}

// At which position the contract goes on.
fn position_value(alloc: Global, made: &Made) -> Result<Value, OutOfMemory>
    ensures { IfOk result (λ v. view v ≡ spec.made_position (made_in made.now)) }
{
    match made {
        Made::GoesOn(position) => path_value(alloc, position.steps()),
        Made::Paid(_) => Ok(Value::Null),
    }
}

// An output by its parts.
fn told_output(
    alloc: Global,
    address: Value,
    party: Value,
    position: Value,
    script: Value,
    value: u64,
) -> Result<Value, OutOfMemory>
    ensures { IfOk result (λ v. view v ≡ object_of ((codes "address", view address) ∷ (codes "party", view party)
        ∷ (codes "position", view position) ∷ (codes "script", view script) ∷ (codes "value", number_value value) ∷ [])) }
{
    json!(in alloc; {
        "address": address,
        "party": party,
        "position": position,
        "script": script,
        "value": value
    })
}

fn output_value(
    alloc: Global,
    network: &Option<Name>,
    output: &TxOut,
    made: &Made,
) -> Result<Value, OutOfMemory>
    ensures { IfOk result (λ v. view v ≡ spec.output_data network.now output.now (made_in made.now)) }
{
    let script = output.script.as_slice();
    let address = address_value(alloc, network, script)?;
    let party = party_value(alloc, made)?;
    let position = position_value(alloc, made)?;
    let script = hex_value(alloc, script)?;
    told_output(alloc, address, party, position, script, output.value)
}

/// These outputs, each with what it is of.
pub(crate) fn output_values(
    alloc: Global,
    network: &Option<Name>,
    outputs: &[TxOut],
    made: &[Made],
) -> Result<Vec<Value>, OutOfMemory>
    ensures { IfOk result (λ vs. map view vs.items ≡ spec.outputs_data network.now outputs.now (map made_in made.now)) }
{
    let mut values = Vec::new(alloc);
    let mut left = made;
    for output in outputs {
        let Some((first, others)) = left.split_first() else {
            return Ok(values);
        };
        values.push(output_value(alloc, network, output, first)?)?;
        left = others;
    }
    Ok(values)
}
