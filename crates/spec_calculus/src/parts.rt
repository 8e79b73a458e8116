//! What a configuration holds, as plain data.

ghost use Rattle.std.specs.Prelude.{◌≡◌, IfOk};

use crate::step::{Move, Owner};
use spec_data::{Name, OutOfMemory, Seq};
use spec_terms::Path;
use std::alloc::Global;

/// A live deposit: the number that names it, who owns it, and its value in satoshi.
#[derive(Clone, Copy, PartialEq, Eq)]
pub struct Deposit {
    pub number: u32,
    pub owner: Owner,
    pub value: u64,
}

/// An active contract: the number that names it, the contract's place in the run, the position that
/// it stands at, and its balance in satoshi.
pub struct ActiveContract {
    pub number: u32,
    pub contract: u32,
    pub position: Path,
    pub balance: u64,
}

impl Drop for ActiveContract {
    fn drop(self) {
        let ActiveContract {
            number: _,
            contract: _,
            position: _,
            balance: _,
        } = self;
    }
}

/// A contract that is advertised, and the deposit that each entry of its precondition is bound to.
pub struct Advertised {
    pub contract: u32,
    pub bindings: Seq<(Name, u32)>,
}

impl Drop for Advertised {
    fn drop(self) {
        let Advertised {
            contract: _,
            bindings: _,
        } = self;
    }
}

/// What a participant has committed: for each of its secrets a length, where one is known.
pub struct Committed {
    pub contract: u32,
    pub party: Name,
    pub lengths: Seq<(Name, Option<u32>)>,
}

impl Drop for Committed {
    fn drop(self) {
        let Committed {
            contract: _,
            party: _,
            lengths: _,
        } = self;
    }
}

/// A revealed secret.
#[derive(Clone, Copy, PartialEq, Eq)]
pub struct Revealed {
    pub contract: u32,
    pub party: Name,
    pub secret: Name,
}

/// A persistent deposit that its owner lets the contract take.
#[derive(Clone, Copy, PartialEq, Eq)]
pub struct InitAuthorisation {
    pub contract: u32,
    pub deposit: Name,
}

/// A branch of an active contract that a party agrees to.
#[derive(Clone, Copy, PartialEq, Eq)]
pub struct BranchAuthorisation {
    pub party: Name,
    pub output: u32,
    pub branch: u32,
}

/// A move that a party agrees to.
pub struct MoveAuthorisation {
    pub party: Name,
    pub action: Move,
}

impl Drop for MoveAuthorisation {
    fn drop(self) {
        let MoveAuthorisation {
            party: _,
            action: _,
        } = self;
    }
}

impl ActiveContract {
    /// An equal active contract.
    pub fn copy(&self, alloc: Global) -> Result<ActiveContract, OutOfMemory>
        ensures { IfOk result (λ active. active ≡ self.now) }
    {
        Ok(ActiveContract {
            number: self.number,
            contract: self.contract,
            position: self.position.copy(alloc)?,
            balance: self.balance,
        })
    }
}

impl Advertised {
    /// The same contract, bound to the same deposits.
    pub fn copy(&self, alloc: Global) -> Result<Advertised, OutOfMemory>
        ensures { IfOk result (λ advertised. advertised ≡ self.now) }
    {
        Ok(Advertised {
            contract: self.contract,
            bindings: self.bindings.copy(alloc)?,
        })
    }
}

impl Committed {
    /// The same lengths of the same party.
    pub fn copy(&self, alloc: Global) -> Result<Committed, OutOfMemory>
        ensures { IfOk result (λ committed. committed ≡ self.now) }
    {
        Ok(Committed {
            contract: self.contract,
            party: self.party,
            lengths: self.lengths.copy(alloc)?,
        })
    }
}

impl MoveAuthorisation {
    /// The same move, agreed to by the same party.
    pub fn copy(&self, alloc: Global) -> Result<MoveAuthorisation, OutOfMemory>
        ensures { IfOk result (λ authorisation. authorisation ≡ self.now) }
    {
        Ok(MoveAuthorisation {
            party: self.party,
            action: self.action.copy(alloc)?,
        })
    }
}
