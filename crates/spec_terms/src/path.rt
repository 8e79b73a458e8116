//! Paths from the root of a contract to its branches and positions.

ghost use Rattle.std.specs.Prelude.{◌≡◌, IfOk};

use spec_data::OutOfMemory;
use std::alloc::Global;
use std::marker::Model;

/// A step of a path.
#[derive(Clone, Copy, Debug)]
pub enum PathStep {
    /// To the branch of this number of the choice at a position, counted from 0.
    Branch(u32),
    /// To the position of the part of this number of a split, counted from 0.
    Part(u32),
}

impl PartialEq for PathStep {
    ghost use Rattle.spec_terms.specs.Paths.{step_eq};
    ghost use Rattle.spec_terms.specs.PathSameness.{step_eq-Decides};
    ghost use Rattle.std.specs.Cmp.{partial_equiv_from_equiv, decided};

    ghost eq = { step_eq };

    ghost laws = { partial_equiv_from_equiv (decided step_eq step_eq-Decides) };

    fn eq(&self, other: &PathStep) -> bool {
        match (self, other) {
            (PathStep::Branch(i), PathStep::Branch(j)) => *i == *j,
            (PathStep::Part(i), PathStep::Part(j)) => *i == *j,
            _ => false,
        }
    }
}

impl Eq for PathStep {
    ghost use Rattle.spec_terms.specs.Paths.{step_eq};
    ghost use Rattle.spec_terms.specs.PathSameness.{step_eq-Decides};
    ghost use Rattle.std.specs.Cmp.{decided};

    ghost laws = { decided step_eq step_eq-Decides };
}

/// A path from the root of a contract to a branch or a position, which contracts see as the list of its steps.
/// The root's position has none.
pub struct Path {
    steps: Vec<PathStep>,
}

impl Model for Path {
    ghost use Rattle.std.specs.Prelude.{List};
    ghost use Rattle.spec_terms.specs.declared.path.PathStep.{PathStep};

    ghost Value = { List PathStep };

    ghost view = { λ p. p.steps.items };
}

impl Drop for Path {
    fn drop(self) {
        let Path { steps: _ } = self;
    }
}

impl Path {
    /// The path with these steps.
    pub fn of(steps: Vec<PathStep>) -> Path
        ensures { result ≡ steps.items }
    {
        Path { steps }
    }

    /// The steps from the root on.
    pub fn steps(&self) -> &[PathStep]
        ensures { result.now ≡ self.now }
    {
        self.steps.as_slice()
    }

    /// An equal path.
    pub fn copy(&self, alloc: Global) -> Result<Path, OutOfMemory>
        ensures { IfOk result (λ path. path ≡ self.now) }
    {
        Ok(Path::of(Vec::from_slice(alloc, self.steps())?))
    }
}

impl PartialEq for Path {
    ghost use Rattle.spec_terms.specs.Paths.{path_eq};
    ghost use Rattle.spec_terms.specs.PathSameness.{path_eq-Decides};
    ghost use Rattle.std.specs.Cmp.{partial_equiv_from_equiv, decided};

    ghost eq = { path_eq };

    ghost laws = { partial_equiv_from_equiv (decided path_eq path_eq-Decides) };

    fn eq(&self, other: &Path) -> bool {
        self.steps() == other.steps()
    }
}

impl Eq for Path {
    ghost use Rattle.spec_terms.specs.Paths.{path_eq};
    ghost use Rattle.spec_terms.specs.PathSameness.{path_eq-Decides};
    ghost use Rattle.std.specs.Cmp.{decided};

    ghost laws = { decided path_eq path_eq-Decides };
}
