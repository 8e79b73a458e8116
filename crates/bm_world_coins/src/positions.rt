//! What contract outputs stand for.

ghost use Rattle.std.specs.Prelude.{◌≡◌, ◌++◌, ◌∷◌, [], IfOk};
ghost use Rattle.spec_terms.specs.declared.path.PathStep.TheVariants.{Part};
ghost use Rattle.spec_run.specs.Ledger.{position_path};
ghost use Rattle.bm_world_coins.specs.Coined.{position_by};

use spec_data::{Boxed, OutOfMemory};
use spec_terms::{Path, PathStep};
use std::alloc::Global;
use std::marker::Model;

/// What a contract output stands for: a contract by its number, and a position of it. Contracts see it as `ContractPosition`.
pub struct HeldPosition {
    contract: u32,
    position: Path,
}

impl Model for HeldPosition {
    ghost use Rattle.spec_run.specs.World.{ContractPosition};

    ghost Value = { ContractPosition };

    ghost view = { λ h. record { contract = h.contract; position = h.position } };
}

impl Drop for HeldPosition {
    fn drop(self) {
        let HeldPosition {
            contract: _,
            position: _,
        } = self;
    }
}

impl HeldPosition {
    /// This position of the contract of this number.
    pub fn new(contract: u32, position: Path) -> HeldPosition
        ensures { result ≡ record { contract = contract; position = position } }
    {
        HeldPosition { contract, position }
    }

    /// The contract's number.
    pub fn contract(&self) -> u32
        ensures { result ≡ self.now.contract }
    {
        self.contract
    }

    /// The path of the position.
    pub fn position(&self) -> &Path
        ensures { result.now ≡ self.now.position }
    {
        &self.position
    }

    /// The path of a branch of it.
    pub fn path_of(&self, alloc: Global, branch: u32) -> Result<Path, OutOfMemory>
        ensures { IfOk result (λ path. path ≡ position_path self.now branch) }
    {
        let mut steps = Vec::from_slice(alloc, self.position.steps())?;
        steps.push(PathStep::Branch(branch))?;
        Ok(Path::of(steps))
    }

    /// An equal one.
    pub fn copy(&self, alloc: Global) -> Result<HeldPosition, OutOfMemory>
        ensures { IfOk result (λ new. new ≡ self.now) }
    {
        Ok(HeldPosition {
            contract: self.contract,
            position: self.position.copy(alloc)?,
        })
    }
}

/// What the outputs of a transaction stand for.
pub enum NewPositions {
    /// They are deposits, or nobody's.
    Deposits,
    /// Each stands for this position of the contract.
    Same { contract: u32, position: Path },
    /// Output k stands for the position of part k under this path.
    Parts { contract: u32, path: Path },
}

impl Drop for NewPositions {
    fn drop(self) {
        match self {
            NewPositions::Deposits
            | NewPositions::Same {
                contract: _,
                position: _,
            }
            | NewPositions::Parts {
                contract: _,
                path: _,
            } => {}
        }
    }
}

// The position of this part under the path.
fn part_of(alloc: Global, path: &Path, part: u32) -> Result<Path, OutOfMemory>
    ensures { IfOk result (λ new. new ≡ path.now ++ Part part ∷ []) }
{
    let mut steps = Vec::from_slice(alloc, path.steps())?;
    steps.push(PathStep::Part(part))?;
    Ok(Path::of(steps))
}

// A position that is held, copied.
fn held_copy(alloc: Global, contract: u32, position: &Path) -> Result<HeldPosition, OutOfMemory>
    ensures { IfOk result (λ h. h ≡ record { contract = contract; position = position.now }) }
{
    Ok(HeldPosition::new(contract, position.copy(alloc)?))
}

impl NewPositions {
    /// What output k stands for.
    pub fn of_output(
        &self,
        alloc: Global,
        k: u32,
    ) -> Result<Option<Boxed<HeldPosition>>, OutOfMemory>
        ensures { IfOk result (λ held. held ≡ position_by self.now k) }
    {
        match self {
            NewPositions::Deposits => Ok(None),
            NewPositions::Same { contract, position } => {
                let held = held_copy(alloc, *contract, position)?;
                Ok(Some(Boxed::new(alloc, held)?))
            }
            NewPositions::Parts { contract, path } => {
                let position = part_of(alloc, path, k)?;
                let held = HeldPosition::new(*contract, position);
                Ok(Some(Boxed::new(alloc, held)?))
            }
        }
    }
}
