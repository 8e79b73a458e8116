//! The weights of what a contract is compiled to.

ghost use Rattle.std.specs.Prelude.{◌≡◌, ℕ, List, map, IfOk};
ghost use Rattle.spec_compiler.specs.Instance.{Instance};
ghost use Rattle.spec_compiler.specs.Statements.{IsHash};
ghost use Rattle.spec_compiler.specs.Compilation.{compilation};
ghost use Rattle.spec_tool.specs.Weights.{weights};
ghost use Rattle.bm_plan.specs.Listed as spec;

use crate::paths::{choices_at, last_branch, position_of, reveal_count, script_size};
use crate::sizes::{Sizes, initial_weight, narrow, path_weight};
use crate::totals::all_weights;
use bm_syntax::Path;
use bm_tx::encode_stripped;
use bm_wellformed::Checked;
use spec_bitcoin::Tx;
use spec_compiler::Prepared;
use spec_data::{Bytes, OutOfMemory};
use spec_tool::Weight;
use std::alloc::Global;

// The bytes of a transaction without marker and witnesses.
fn bare_size(alloc: Global, tx: &Tx) -> Result<u32, OutOfMemory>
    ensures { IfOk result (λ n. n ≡ spec.bare tx.now) }
{
    narrow(encode_stripped(alloc, tx)?.len())
}

// The sizes of a path's transaction.
fn sizes(
    alloc: Global,
    checked: &Checked,
    scripts: &[(Path, Bytes)],
    path: &Path,
    tx: &Tx,
) -> Result<Sizes, OutOfMemory>
    ensures { IfOk result (λ sizes. sizes ≡ spec.sizes checked.now scripts.now path.now tx.now) }
{
    let advert = checked.advert();
    let position = position_of(alloc, path)?;
    let people = narrow(checked.parties().len())?;
    let secrets = narrow(reveal_count(advert, path))?;
    let branches = narrow(choices_at(alloc, advert, path)?)?;
    let script = narrow(script_size(scripts, &position))?;
    let bare = bare_size(alloc, tx)?;
    let puts = narrow(tx.inputs.as_slice().len().saturating_sub(1))?;
    Ok(Sizes {
        people,
        secrets,
        branch: last_branch(path),
        branches,
        script,
        bare,
        puts,
    })
}

// A path with the weight of its transaction.
fn weighed_path(
    alloc: Global,
    checked: &Checked,
    scripts: &[(Path, Bytes)],
    path: &Path,
    prepared: &Prepared,
) -> Result<(Path, Weight), OutOfMemory>
    ensures { IfOk result (λ w. w ≡ spec.listed_weight checked.now scripts.now (path.now, prepared.now)) }
{
    let sizes = sizes(alloc, checked, scripts, path, &prepared.tx)?;
    let path = path.copy(alloc)?;
    Ok((path, path_weight(&sizes)))
}

// Each path with the weight of its transaction.
fn weighed(
    alloc: Global,
    checked: &Checked,
    scripts: &[(Path, Bytes)],
    paths: &[(Path, Prepared)],
) -> Result<Vec<(Path, Weight)>, OutOfMemory>
    ensures { IfOk result (λ all. all.items ≡ map (spec.listed_weight checked.now scripts.now) paths.now) }
{
    let mut all = Vec::new(alloc);
    for (path, prepared) in paths {
        all.push(weighed_path(alloc, checked, scripts, path, prepared)?)?;
    }
    Ok(all)
}

/// Of the initial transaction and then of each path, in the order of the text, its weight and its total: the weights of
/// all transactions that lead there, the initial one's included. The numbers are weight units of BIP 141, of witnesses with
/// signatures of 66 bytes, least with secrets of 16 bytes and most with secrets of 520. A transaction or a script of 4 GiB
/// or more, and a total of more than 64 bits, count as out of memory.
pub fn weigh_listed(
    alloc: Global,
    init: &Prepared,
    paths: &[(Path, Prepared)],
    scripts: &[(Path, Bytes)],
    checked: &Checked,
) -> Result<Vec<(Weight, Weight)>, OutOfMemory>
    ensures by_lists { IfOk result (λ ws. ws.items ≡ spec.listed_weights checked.now init.now paths.now scripts.now) }
    ensures compiled { (hash : List ℕ → List ℕ) (s : Instance) → IsHash hash → s.advert ≡ checked.now
        → init.now ≡ (compilation hash s).init → paths.now ≡ (compilation hash s).paths → scripts.now ≡ (compilation hash s).scripts
        → IfOk result (λ ws. ws.items ≡ weights hash s) }
{
    let bare = bare_size(alloc, &init.tx)?;
    let deposits = narrow(init.tx.inputs.as_slice().len())?;
    let all = weighed(alloc, checked, scripts, paths)?;
    all_weights(alloc, initial_weight(bare, deposits), &all)
}
