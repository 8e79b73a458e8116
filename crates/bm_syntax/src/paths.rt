//! Paths that go on.

ghost use Rattle.std.specs.Prelude.{◌≡◌, ◌++◌, ◌∷◌, [], IfOk};

use spec_data::OutOfMemory;
use spec_terms::{Path, PathStep};
use std::alloc::Global;

/// The path with one more step.
pub fn longer(alloc: Global, path: &Path, step: PathStep) -> Result<Path, OutOfMemory>
    ensures { IfOk result (λ new. new ≡ path.now ++ step ∷ []) }
{
    let known = path.steps();
    let mut steps = Vec::with_capacity(alloc, known.len().saturating_add(1))?;
    steps.extend_from_slice(known)?;
    steps.push(step)?;
    Ok(Path::of(steps))
}
