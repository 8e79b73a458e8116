//! What the outputs of a transaction are of.

ghost use Rattle.std.specs.Prelude.{◌≡◌, ◌++◌, ◌∷◌, [], map, option_map, IfOk};
ghost use Rattle.spec_terms.specs.declared.path.PathStep.TheVariants as steps;
ghost use Rattle.spec_terms.specs.Paths.{at as branch_of};
ghost use Rattle.spec_compiler.specs.Keyed.Transactions.{part_position as position_of};
ghost use Rattle.spec_show.specs.Made as spec;
ghost use Rattle.bm_syntax.specs.View.{guarded, parts_view};
ghost use Rattle.deal_show.specs.Making.{made_in, made_at, revealed_at};

use bm_syntax::{Guarded, Part, at, core, reveals};
use bm_wellformed::Checked;
use spec_data::{Name, OutOfMemory};
use spec_terms::{Path, PathStep};
use spec_tool::Which;
use std::alloc::{AllocError, Global};

/// What an output is of.
pub enum Made {
    /// The contract goes on at this position.
    GoesOn(Path),
    /// This party is paid.
    Paid(Name),
}

impl Drop for Made {
    fn drop(self) {
        match self {
            Made::GoesOn(_) | Made::Paid(_) => {}
        }
    }
}

// The position of part k of the split at a path. A number of more than 32 bits counts as out of memory.
fn part_position(alloc: Global, path: &Path, number: usize) -> Result<Path, OutOfMemory>
    ensures { IfOk result (λ position. position ≡ position_of path.now number) }
{
    if number > u32::MAX as usize {
        return Err(AllocError);
    }
    let mut steps = Vec::from_slice(alloc, path.steps())?;
    steps.push(PathStep::Part(number as u32))?;
    Ok(Path::of(steps))
}

// The positions of the parts of the split at a path.
fn parts_made(alloc: Global, path: &Path, parts: &[Part]) -> Result<Vec<Made>, OutOfMemory>
    ensures { IfOk result (λ made. map made_in made.items ≡ spec.parts_made path.now 0 (parts_view parts.now)) }
{
    let mut made = Vec::new(alloc);
    let mut number = 0;
    for _part in parts {
        made.push(Made::GoesOn(part_position(alloc, path, number)?))?;
        number += 1;
    }
    Ok(made)
}

fn one(alloc: Global, only: Made) -> Result<Vec<Made>, OutOfMemory>
    ensures { IfOk result (λ made. made.items ≡ only ∷ []) }
{
    let mut made = Vec::new(alloc);
    made.push(only)?;
    Ok(made)
}

// By a core at a path.
fn core_made(alloc: Global, path: &Path, core: &Guarded) -> Result<Vec<Made>, OutOfMemory>
    ensures { IfOk result (λ made. map made_in made.items ≡ spec.core_made path.now (guarded core.now)) }
{
    match core {
        Guarded::PutReveal { .. } => one(alloc, Made::GoesOn(path.copy(alloc)?)),
        Guarded::Withdraw { party } => one(alloc, Made::Paid(*party)),
        Guarded::Split { parts } => parts_made(alloc, path, parts),
        Guarded::Auth { .. } | Guarded::After { .. } => Ok(Vec::new(alloc)),
    }
}

/// The branch at a path.
pub(crate) fn branch_of<'a>(checked: &'a Checked, path: &Path) -> Option<&'a Guarded>
    ensures { option_map (λ b. guarded b.now) result ≡ branch_of checked.now.root path.now }
{
    at(&checked.advert().root, path)
}

// By the branch at a path.
fn branch_made(alloc: Global, checked: &Checked, path: &Path) -> Result<Vec<Made>, OutOfMemory>
    ensures { IfOk result (λ made. map made_in made.items ≡ made_at path.now (branch_of checked.now.root path.now)) }
{
    match branch_of(checked, path) {
        Some(branch) => core_made(alloc, path, core(branch)),
        None => Ok(Vec::new(alloc)),
    }
}

/// By a transaction of this name, output by output.
pub(crate) fn made_by(
    alloc: Global,
    checked: &Checked,
    which: &Which,
) -> Result<Vec<Made>, OutOfMemory>
    ensures { IfOk result (λ made. map made_in made.items ≡ spec.made_by checked.now which.now) }
{
    match which {
        Which::Init => one(alloc, Made::GoesOn(Path::of(Vec::new(alloc)))),
        Which::At(path) => branch_made(alloc, checked, path),
    }
}

// The names of the secrets that the branch at a path reveals.
fn branch_reveals<'a>(checked: &'a Checked, path: &Path) -> &'a [Name]
    ensures { result.now ≡ revealed_at (branch_of checked.now.root path.now) }
{
    match branch_of(checked, path) {
        Some(branch) => reveals(branch),
        None => &[],
    }
}

/// The names of the secrets that a transaction of this name reveals.
pub(crate) fn revealed_by<'a>(checked: &'a Checked, which: &Which) -> &'a [Name]
    ensures { result.now ≡ spec.revealed_by checked.now which.now }
{
    match which {
        Which::Init => &[],
        Which::At(path) => branch_reveals(checked, path),
    }
}
