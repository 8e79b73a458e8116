//! What `weigh` prints.

ghost use Rattle.std.specs.Prelude.{◌≡◌, ℕ, List, ◌++◌, ◌∷◌, map, codes, option_map, Option, IfOk, IfSome, OnOk};
ghost use Rattle.serde_json.specs.View.{view};
ghost use Rattle.spec_compiler.specs.Instance.{Instance};
ghost use Rattle.spec_compiler.specs.Statements.{IsHash};
ghost use Rattle.spec_text.specs.RunText.{newline};
ghost use Rattle.spec_tool.specs.WeighText as spec;
ghost use Rattle.bm_compile.specs.Numbered.{numbered};
ghost use Rattle.bm_plan.specs.Seen.{seen, plain};
ghost use Rattle.bm_plan.specs.Told.{listed_values, weigh_plan, weigh_told};

use crate::compiled::weigh;
use crate::values::{init_name, name_value, plan_value, text_of, transaction_value};
use bm_compile::Compiled;
use bm_text::put;
use bm_wellformed::Checked;
use serde_json::Value;
use spec_compiler::Prepared;
use spec_data::OutOfMemory;
use spec_terms::Path;
use spec_tool::Weight;
use std::alloc::Global;

// A path's transaction with its weights.
fn path_value(
    alloc: Global,
    path: &Path,
    prepared: &Prepared,
    weights: &(Weight, Weight),
) -> Result<Value, OutOfMemory>
    ensures { IfOk result (λ v. seen (view v)
        ≡ plain (spec.transaction_value (spec.named_path (path.now, prepared.now)).0 prepared.now weights.now)) }
{
    let name = name_value(alloc, path)?;
    let (weight, total) = weights;
    transaction_value(alloc, name, prepared, weight, total)
}

// Adds each path's transaction with its weights.
fn push_paths(
    alloc: Global,
    values: &mut Vec<Value>,
    paths: &[(Path, Prepared)],
    weights: &[(Weight, Weight)],
) -> Result<(), OutOfMemory>
    ensures { OnOk result (map seen (map view values.new.items) ≡ map seen (map view values.old.items)
        ++ map plain (spec.transaction_values (map spec.named_path paths.now) weights.now)) }
{
    let mut rest = weights;
    for (path, prepared) in paths {
        let Some((weights, more)) = rest.split_first() else {
            return Ok(());
        };
        values.push(path_value(alloc, path, prepared, weights)?)?;
        rest = more;
    }
    Ok(())
}

// The initial transaction with its weights.
fn init_value(
    alloc: Global,
    init: &Prepared,
    weights: &(Weight, Weight),
) -> Result<Value, OutOfMemory>
    ensures { IfOk result (λ v. seen (view v) ≡ plain (spec.transaction_value (codes "init") init.now weights.now)) }
{
    let name = init_name(alloc)?;
    let (weight, total) = weights;
    transaction_value(alloc, name, init, weight, total)
}

// The initial transaction and then each path's, with their weights.
fn values(
    alloc: Global,
    init: &Prepared,
    paths: &[(Path, Prepared)],
    weights: &[(Weight, Weight)],
) -> Result<Vec<Value>, OutOfMemory>
    ensures { IfOk result (λ vs. map seen (map view vs.items)
        ≡ map plain (spec.transaction_values ((codes "init", init.now) ∷ map spec.named_path paths.now) weights.now)) }
{
    let mut values = Vec::new(alloc);
    if let Some((weights, rest)) = weights.split_first() {
        values.push(init_value(alloc, init, weights)?)?;
        push_paths(alloc, &mut values, paths, rest)?;
    }
    Ok(values)
}

// The transactions of a contract, none where it isn't compiled.
fn all_values(
    alloc: Global,
    checked: &Checked,
    compiled: Option<&Compiled>,
) -> Result<Vec<Value>, OutOfMemory>
    ensures { IfOk result (λ vs. map seen (map view vs.items)
        ≡ map plain (listed_values checked.now (option_map (λ c. c.now) compiled.entry))) }
{
    let Some(compiled) = compiled else {
        return Ok(Vec::new(alloc));
    };
    let weights = weigh(alloc, checked, compiled)?;
    values(alloc, compiled.init(), compiled.paths(), &weights)
}

// The contract as a JSON value.
fn plan(alloc: Global, checked: &Checked, compiled: Option<&Compiled>) -> Result<Value, OutOfMemory>
    ensures { IfOk result (λ v. seen (view v) ≡ plain (weigh_plan checked.now (option_map (λ c. c.now) compiled.entry))) }
{
    let values = all_values(alloc, checked, compiled)?;
    plan_value(alloc, 0, values)
}

fn told(
    alloc: Global,
    checked: &Checked,
    compiled: Option<&Compiled>,
) -> Result<Vec<u8>, OutOfMemory>
    ensures { IfOk result (λ text. text.items ≡ weigh_told checked.now (option_map (λ c. c.now) compiled.entry)) }
{
    let plan = plan(alloc, checked, compiled)?;
    let mut text = text_of(alloc, &plan)?;
    put(&mut text, b"\n")?;
    Ok(text)
}

/// The transactions of the contract of a run with their weights, as one line of compact JSON
/// (RFC 8259); none where the contract isn't compiled.
pub fn weigh_text(
    alloc: Global,
    checked: &Checked,
    compiled: Option<&Compiled>,
) -> Result<Vec<u8>, OutOfMemory>
    ensures told { IfOk result (λ text. text.items ≡ weigh_told checked.now (option_map (λ c. c.now) compiled.entry)) }
    ensures compiled { (hash : List ℕ → List ℕ) (s : Option Instance) → IsHash hash → IfSome s (λ i. i.advert ≡ checked.now)
        → option_map (λ c. c.now) compiled.entry ≡ option_map (numbered hash) s
        → IfOk result (λ text. text.items ≡ spec.plan_value hash 0 s ++ newline) }
{
    told(alloc, checked, compiled)
}
