//! The rules of a strategy.

ghost use Rattle.std.specs.Prelude.{◌≡◌, IfOk};

use spec_data::{Name, OutOfMemory};
use spec_terms::Path;
use std::alloc::Global;

/// What a rule does with contract 0, once it can be done.
pub enum Act {
    Commit,
    Endorse,
    Init,
    /// Authorises the branch at this path.
    Authorise(Path),
    /// Reveals the secret of this name.
    Reveal(Name),
    FireInit,
    /// Takes the branch at this path.
    Fire(Path),
}

impl Drop for Act {
    fn drop(self) {
        match self {
            Act::Commit
            | Act::Endorse
            | Act::Init
            | Act::Authorise(_)
            | Act::Reveal(_)
            | Act::FireInit
            | Act::Fire(_) => {}
        }
    }
}

/// A line of a strategy file: what an honest party does.
pub struct Rule {
    pub party: Name,
    pub act: Act,
}

impl Drop for Rule {
    fn drop(self) {
        let Rule { party: _, act: _ } = self;
    }
}

/// Why a text is no strategy, with the number of the line, counted from 1.
#[derive(Clone, Copy, Debug, PartialEq, Eq)]
pub enum StrategyFault {
    /// The line spells no rule.
    BadLine(u32),
    /// The line is one rule too many.
    Limit(u32),
}

impl Act {
    /// An equal one.
    pub fn copy(&self, alloc: Global) -> Result<Act, OutOfMemory>
        ensures { IfOk result (λ act. act ≡ self.now) }
    {
        Ok(match self {
            Act::Commit => Act::Commit,
            Act::Endorse => Act::Endorse,
            Act::Init => Act::Init,
            Act::Authorise(path) => Act::Authorise(path.copy(alloc)?),
            Act::Reveal(secret) => Act::Reveal(*secret),
            Act::FireInit => Act::FireInit,
            Act::Fire(path) => Act::Fire(path.copy(alloc)?),
        })
    }
}

impl Rule {
    /// An equal rule.
    pub fn copy(&self, alloc: Global) -> Result<Rule, OutOfMemory>
        ensures { IfOk result (λ rule. rule ≡ self.now) }
    {
        Ok(Rule {
            party: self.party,
            act: self.act.copy(alloc)?,
        })
    }
}
