//! The weights of all transactions on the way to a path.

ghost use Rattle.std.specs.Prelude.{◌≡◌, IfOk, if◌then◌else◌};
ghost use Rattle.spec_tool.specs.Weights as spec;

use bm_syntax::Path;
use spec_data::OutOfMemory;
use spec_tool::Weight;
use std::alloc::{AllocError, Global};

// Two weights together; a sum of more than 64 bits counts as out of memory.
fn added(one: Weight, other: Weight) -> Result<Weight, OutOfMemory>
    ensures { IfOk result (λ sum. sum ≡ spec.added one other) }
{
    match (
        one.least.checked_add(other.least),
        one.most.checked_add(other.most),
    ) {
        (Some(least), Some(most)) => Ok(Weight { least, most }),
        _ => Err(AllocError),
    }
}

// Whether the first path is the second or on the way to it.
fn is_on_way(path: &Path, to: &Path) -> bool
    ensures { result ≡ spec.is_on_way path.now to.now }
{
    let count = path.steps().len();
    let steps = to.steps();
    let prefix = if count < steps.len() {
        &steps[..count]
    } else {
        steps
    };
    path.steps() == prefix
}

// This sum and, where the path is on the way, its weight.
fn with_path(to: &Path, sum: Weight, path: &Path, weight: Weight) -> Result<Weight, OutOfMemory>
    ensures { IfOk result (λ total. total ≡ (if spec.is_on_way path.now to.now then spec.added sum weight else sum)) }
{
    if is_on_way(path, to) {
        return added(sum, weight);
    }
    Ok(sum)
}

// The total of a path: this weight, and those of the paths on the way.
fn total_to(to: &Path, init: Weight, all: &[(Path, Weight)]) -> Result<Weight, OutOfMemory>
    ensures { IfOk result (λ total. total ≡ spec.total_to to.now init all.now) }
{
    let mut sum = init;
    for (path, weight) in all {
        sum = with_path(to, sum, path, *weight)?;
    }
    Ok(sum)
}

// The weight and the total of the initial transaction and then of each path.
pub(crate) fn all_weights(
    alloc: Global,
    init: Weight,
    all: &[(Path, Weight)],
) -> Result<Vec<(Weight, Weight)>, OutOfMemory>
    ensures { IfOk result (λ weights. weights.items ≡ spec.all_weights init all.now) }
{
    let mut weights = Vec::new(alloc);
    weights.push((init, init))?;
    for (path, weight) in all {
        weights.push((*weight, total_to(path, init, all)?))?;
    }
    Ok(weights)
}
