//! What a path says of its branch.

ghost use Rattle.std.specs.Prelude.{◌≡◌, ◌+◌, IfOk, length, option_map};
ghost use Rattle.spec_terms.specs.Core.{reveals_of};
ghost use Rattle.spec_run.specs.Ledger.{count_of};
ghost use Rattle.spec_tool.specs.Weights as spec;
ghost use Rattle.bm_syntax.specs.View.{guarded, contract};
ghost use Rattle.theory_script.specs.Listed.{at_path};
ghost use Rattle.bm_plan.specs.Listed.{step_branch, listed_script};

use bm_syntax::walk::{at, choice_at};
use bm_syntax::{Advert, Contract, Guarded, Path, PathStep, core};
use spec_data::{Bytes, OutOfMemory};
use std::alloc::Global;

/// The steps to the position whose branch or part the path is.
#[tactic(auto, using(crate::proofs::LastStep::position_is_prefix))]
pub fn prefix_of(path: &Path) -> &[PathStep]
    ensures { result.now ≡ spec.position_of path.now }
{
    let steps = path.steps();
    &steps[..steps.len().saturating_sub(1)]
}

/// The position whose branch or part the path is.
pub fn position_of(alloc: Global, path: &Path) -> Result<Path, OutOfMemory>
    ensures { IfOk result (λ position. position ≡ spec.position_of path.now) }
{
    Ok(Path::of(Vec::from_slice(alloc, prefix_of(path))?))
}

// The number of the branch that a step leads to.
fn step_branch(step: PathStep) -> u32
    ensures { result ≡ step_branch step }
{
    match step {
        PathStep::Branch(i) => i,
        PathStep::Part(_) => 0,
    }
}

/// The number of the branch that a path ends with.
#[tactic(auto, using(crate::proofs::LastStep::last_branch_is))]
pub fn last_branch(path: &Path) -> u32
    ensures { result ≡ spec.last_branch path.now }
{
    match path.steps().last() {
        Some(step) => step_branch(*step),
        None => 0,
    }
}

fn reveals(branch: &Guarded) -> usize
    ensures { result ≡ length (reveals_of (guarded branch.now)) }
{
    match branch {
        Guarded::PutReveal { reveals, .. } => reveals.len(),
        _ => 0,
    }
}

/// How many secrets the branch at a path reveals.
pub fn reveal_count(advert: &Advert, path: &Path) -> usize
    ensures { result ≡ spec.reveal_count advert.now path.now }
{
    match at(&advert.root, path) {
        Some(branch) => reveals(core(branch)),
        None => 0,
    }
}

// How many branches a choice has, none without a choice.
#[tactic(auto, using(crate::proofs::Choices::choice_count))]
fn branch_count(choice: Option<&Contract>) -> usize
    ensures { result ≡ count_of (option_map (λ c. contract c.now) choice.entry) }
{
    match choice {
        Some(choice) => choice.branches.len(),
        None => 0,
    }
}

/// How many branches the position of a path has.
pub fn choices_at(alloc: Global, advert: &Advert, path: &Path) -> Result<usize, OutOfMemory>
    ensures { IfOk result (λ n. n ≡ spec.choices_at advert.now path.now) }
{
    let position = position_of(alloc, path)?;
    Ok(branch_count(choice_at(&advert.root, &position)))
}

// What a list has for a path.
fn script_of<'a>(scripts: &'a [(Path, Bytes)], position: &Path) -> Option<&'a Bytes>
    ensures { option_map (λ v. v.now) result ≡ at_path position.now scripts.now }
{
    for (known, script) in scripts {
        if *known == *position {
            return Some(script);
        }
    }
    None
}

// How many bytes the script of a position has.
pub(crate) fn script_size(scripts: &[(Path, Bytes)], position: &Path) -> usize
    ensures { result ≡ listed_script scripts.now position.now }
{
    match script_of(scripts, position) {
        Some(script) => script.as_slice().len(),
        None => 0,
    }
}
