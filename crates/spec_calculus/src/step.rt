//! Steps of the calculus, as plain data.

ghost use Rattle.std.specs.Prelude.{◌≡◌, IfOk};

use spec_data::{Boxed, Name, OutOfMemory, Seq};
use std::alloc::Global;

/// Who owns a deposit.
#[derive(Clone, Copy, PartialEq, Eq)]
pub enum Owner {
    /// A declared party.
    Party(Name),
    /// Someone who isn't declared.
    Outside,
}

/// Deposits go, and others come. Inputs are numbers of deposits; outputs are owners with satoshi.
pub struct Move {
    pub inputs: Seq<u32>,
    pub outputs: Seq<(Owner, u64)>,
}

impl Drop for Move {
    fn drop(self) {
        let Move {
            inputs: _,
            outputs: _,
        } = self;
    }
}

/// A step of the calculus. Contracts are named by their place, deposits and active contracts by
/// their number, branches by their place among a position's branches.
pub enum Step {
    /// Blocks pass.
    Delay {
        blocks: u32,
    },
    /// A party agrees to a move.
    AuthMove {
        party: Name,
        action: Boxed<Move>,
    },
    /// A move is made.
    Move {
        action: Move,
    },
    /// A contract is advertised, with a deposit for each entry of its precondition.
    Advertise {
        contract: u32,
        bindings: Seq<(Name, u32)>,
    },
    /// A participant commits to its secrets. An unknown length is none.
    Commit {
        contract: u32,
        party: Name,
        lengths: Seq<(Name, Option<u32>)>,
    },
    /// A participant lets the contract take its deposit.
    AuthInit {
        contract: u32,
        party: Name,
        deposit: Name,
    },
    /// The contract begins.
    Init {
        contract: u32,
    },
    /// A secret is revealed.
    Reveal {
        contract: u32,
        party: Name,
        secret: Name,
    },
    /// A party agrees to a branch of an active contract.
    AuthBranch {
        party: Name,
        output: u32,
        branch: u32,
    },
    /// A branch that puts deposits in or reveals secrets is taken.
    PutReveal {
        output: u32,
        branch: u32,
    },
    /// A branch that pays a party is taken.
    Withdraw {
        output: u32,
        branch: u32,
    },
    /// A branch that splits the contract is taken.
    Split {
        output: u32,
        branch: u32,
    },
}

impl Drop for Step {
    fn drop(self) {
        match self {
            Step::Delay { blocks: _ }
            | Step::AuthMove {
                party: _,
                action: _,
            }
            | Step::Move { action: _ }
            | Step::Advertise {
                contract: _,
                bindings: _,
            }
            | Step::Commit {
                contract: _,
                party: _,
                lengths: _,
            }
            | Step::AuthInit {
                contract: _,
                party: _,
                deposit: _,
            }
            | Step::Init { contract: _ }
            | Step::Reveal {
                contract: _,
                party: _,
                secret: _,
            }
            | Step::AuthBranch {
                party: _,
                output: _,
                branch: _,
            }
            | Step::PutReveal {
                output: _,
                branch: _,
            }
            | Step::Withdraw {
                output: _,
                branch: _,
            }
            | Step::Split {
                output: _,
                branch: _,
            } => {}
        }
    }
}

impl Move {
    /// A move with the same inputs and outputs.
    pub fn copy(&self, alloc: Global) -> Result<Move, OutOfMemory>
        ensures { IfOk result (λ action. action ≡ self.now) }
    {
        Ok(Move {
            inputs: self.inputs.copy(alloc)?,
            outputs: self.outputs.copy(alloc)?,
        })
    }
}

impl Step {
    /// The same step.
    pub fn copy(&self, alloc: Global) -> Result<Step, OutOfMemory>
        ensures { IfOk result (λ step. step ≡ self.now) }
    {
        Ok(match self {
            Step::Delay { blocks } => Step::Delay { blocks: *blocks },
            Step::AuthMove { party, action } => Step::AuthMove {
                party: *party,
                action: Boxed::new(alloc, action.value().copy(alloc)?)?,
            },
            Step::Move { action } => Step::Move {
                action: action.copy(alloc)?,
            },
            Step::Advertise { contract, bindings } => Step::Advertise {
                contract: *contract,
                bindings: bindings.copy(alloc)?,
            },
            Step::Commit {
                contract,
                party,
                lengths,
            } => Step::Commit {
                contract: *contract,
                party: *party,
                lengths: lengths.copy(alloc)?,
            },
            Step::AuthInit {
                contract,
                party,
                deposit,
            } => Step::AuthInit {
                contract: *contract,
                party: *party,
                deposit: *deposit,
            },
            Step::Init { contract } => Step::Init {
                contract: *contract,
            },
            Step::Reveal {
                contract,
                party,
                secret,
            } => Step::Reveal {
                contract: *contract,
                party: *party,
                secret: *secret,
            },
            Step::AuthBranch {
                party,
                output,
                branch,
            } => Step::AuthBranch {
                party: *party,
                output: *output,
                branch: *branch,
            },
            Step::PutReveal { output, branch } => Step::PutReveal {
                output: *output,
                branch: *branch,
            },
            Step::Withdraw { output, branch } => Step::Withdraw {
                output: *output,
                branch: *branch,
            },
            Step::Split { output, branch } => Step::Split {
                output: *output,
                branch: *branch,
            },
        })
    }
}
