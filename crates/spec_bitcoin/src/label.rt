//! Labels, each of which names one key.

ghost use Rattle.std.specs.Prelude.{◌≡◌, IfOk};

use spec_data::{Name, OutOfMemory};
use spec_terms::Path;
use std::alloc::Global;

/// What a key is for: the deposits of a party, or a party's consent to a branch of a contract.
pub enum Label {
    Deposit {
        party: Name,
    },
    Branch {
        contract: u32,
        path: Path,
        party: Name,
    },
}

impl Drop for Label {
    fn drop(self) {
        match self {
            Label::Deposit { party: _ }
            | Label::Branch {
                contract: _,
                path: _,
                party: _,
            } => {}
        }
    }
}

impl Label {
    /// An equal label.
    pub fn copy(&self, alloc: Global) -> Result<Label, OutOfMemory>
        ensures { IfOk result (λ label. label ≡ self.now) }
    {
        match self {
            Label::Deposit { party } => Ok(Label::Deposit { party: *party }),
            Label::Branch {
                contract,
                path,
                party,
            } => Ok(Label::Branch {
                contract: *contract,
                path: path.copy(alloc)?,
                party: *party,
            }),
        }
    }
}
