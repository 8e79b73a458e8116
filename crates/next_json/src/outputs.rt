//! Live outputs.

ghost use Rattle.std.specs.Prelude.{◌≡◌, ◌++◌, map, codes, IfOk, OnOk};
ghost use Rattle.serde_json.specs.Data.{object, no_members, member};
ghost use Rattle.serde_json.specs.View.{view};
ghost use Rattle.spec_json.specs.Values as json;
ghost use Rattle.spec_next.specs.JsonForm as spec;

use crate::names::path_value;
use bm_calculus::Config;
use json_text::{list_value, text_or_null, text_value};
use serde_json::{Value, json};
use spec_calculus::{ActiveContract, Deposit, Owner};
use spec_data::OutOfMemory;
use std::alloc::Global;
use std::collections::VecDeque;

// ---- deposits

// The owner's name.
fn owner_value(alloc: Global, owner: &Owner) -> Result<Value, OutOfMemory>
    ensures { IfOk result (λ v. view v ≡ spec.owner_value owner.now) }
{
    match owner {
        Owner::Party(party) => text_value(alloc, party.bytes()),
        Owner::Outside => text_or_null(alloc, None),
    }
}

fn told_deposit(alloc: Global, number: u32, party: Value, value: u64) -> Result<Value, OutOfMemory>
    ensures { IfOk result (λ v. view v ≡ object
        (member (codes "number") (json.number_value number)
        (member (codes "party") (view party)
        (member (codes "value") (json.number_value value) no_members)))) }
{
    json!(in alloc; {"number": number, "party": party, "value": value})
}

fn deposit_value(alloc: Global, deposit: &Deposit) -> Result<Value, OutOfMemory>
    ensures { IfOk result (λ v. view v ≡ spec.deposit_value deposit.now) }
{
    let party = owner_value(alloc, &deposit.owner)?;
    told_deposit(alloc, deposit.number, party, deposit.value)
}

#[tactic(auto, using(std::proofs::Common::append_assoc))]
fn add_deposits(
    alloc: Global,
    values: &mut Vec<Value>,
    deposits: &VecDeque<Deposit>,
) -> Result<(), OutOfMemory>
    ensures { OnOk result (map view values.new.items ≡ map view values.old.items ++ map spec.deposit_value deposits.now.items) }
{
    for deposit in deposits {
        values.push(deposit_value(alloc, deposit)?)?;
    }
    Ok(())
}

// ---- contracts

fn told_active(
    alloc: Global,
    contract: u32,
    number: u32,
    path: Value,
    value: u64,
) -> Result<Value, OutOfMemory>
    ensures { IfOk result (λ v. view v ≡ object
        (member (codes "contract") (json.number_value contract)
        (member (codes "number") (json.number_value number)
        (member (codes "path") (view path)
        (member (codes "value") (json.number_value value) no_members))))) }
{
    json!(in alloc; {"contract": contract, "number": number, "path": path, "value": value})
}

fn active_value(alloc: Global, active: &ActiveContract) -> Result<Value, OutOfMemory>
    ensures { IfOk result (λ v. view v ≡ spec.active_value active.now) }
{
    let path = path_value(alloc, active.position.steps())?;
    told_active(alloc, active.contract, active.number, path, active.balance)
}

#[tactic(auto, using(std::proofs::Common::append_assoc))]
fn add_active(
    alloc: Global,
    values: &mut Vec<Value>,
    active: &[ActiveContract],
) -> Result<(), OutOfMemory>
    ensures { OnOk result (map view values.new.items ≡ map view values.old.items ++ map spec.active_value active.now) }
{
    for one in active {
        values.push(active_value(alloc, one)?)?;
    }
    Ok(())
}

// ---- all

fn output_values(alloc: Global, config: &Config) -> Result<Vec<Value>, OutOfMemory>
    ensures { IfOk result (λ vs. map view vs.items ≡ spec.output_values config.now) }
{
    let mut values = Vec::new(alloc);
    add_deposits(alloc, &mut values, config.deposits())?;
    add_active(alloc, &mut values, config.active())?;
    Ok(values)
}

/// Live deposits and contracts.
pub(crate) fn outputs(alloc: Global, config: &Config) -> Result<Value, OutOfMemory>
    ensures { IfOk result (λ v. view v ≡ json.list_value (spec.output_values config.now)) }
{
    Ok(list_value(output_values(alloc, config)?))
}
