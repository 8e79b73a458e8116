//! What may come next of a contract.

ghost use Rattle.std.specs.Prelude.{◌≡◌, IfOk};

use crate::requirement::{Requirement, copy_requirements};
use spec_data::{Name, OutOfMemory, Seq};
use spec_run::{Event, Reason};
use std::alloc::Global;

/// What an event would come to now.
pub enum Ruling {
    /// It would be done or accepted.
    Can,
    /// It would be refused.
    Cannot(Reason),
    /// It would halt the run.
    Halts,
}

impl Drop for Ruling {
    fn drop(self) {
        match self {
            Ruling::Can | Ruling::Cannot(_) | Ruling::Halts => {}
        }
    }
}

/// An event that a contract has ahead, what it would come to, and what is missing for it.
pub struct Prospect {
    pub event: Event,
    pub ruling: Ruling,
    pub requirements: Seq<Requirement>,
}

impl Drop for Prospect {
    fn drop(self) {
        let Prospect {
            event: _,
            ruling: _,
            requirements: _,
        } = self;
    }
}

/// A contract by its number, who takes part in it, the events that it has ahead, and the parties that can give now what is
/// missing for one of them.
pub struct Outlook {
    pub contract: u32,
    pub parties: Seq<Name>,
    pub prospects: Seq<Prospect>,
    pub waits: Seq<Name>,
}

impl Drop for Outlook {
    fn drop(self) {
        let Outlook {
            contract: _,
            parties: _,
            prospects: _,
            waits: _,
        } = self;
    }
}

impl Ruling {
    /// An equal one.
    pub fn copy(&self, alloc: Global) -> Result<Ruling, OutOfMemory>
        ensures { IfOk result (λ ruling. ruling ≡ self.now) }
    {
        Ok(match self {
            Ruling::Can => Ruling::Can,
            Ruling::Cannot(reason) => Ruling::Cannot(reason.copy(alloc)?),
            Ruling::Halts => Ruling::Halts,
        })
    }
}

impl Prospect {
    /// An equal one.
    pub fn copy(&self, alloc: Global) -> Result<Prospect, OutOfMemory>
        ensures { IfOk result (λ prospect. prospect ≡ self.now) }
    {
        Ok(Prospect {
            event: self.event.copy(alloc)?,
            ruling: self.ruling.copy(alloc)?,
            requirements: copy_requirements(alloc, self.requirements.as_slice())?,
        })
    }
}

impl Outlook {
    /// An equal one.
    pub fn copy(&self, alloc: Global) -> Result<Outlook, OutOfMemory>
        ensures { IfOk result (λ outlook. outlook ≡ self.now) }
    {
        Ok(Outlook {
            contract: self.contract,
            parties: self.parties.copy(alloc)?,
            prospects: copy_prospects(alloc, self.prospects.as_slice())?,
            waits: self.waits.copy(alloc)?,
        })
    }
}

/// Equal ones, in the same order.
pub fn copy_prospects(alloc: Global, prospects: &[Prospect]) -> Result<Seq<Prospect>, OutOfMemory>
    ensures { IfOk result (λ list. list ≡ prospects.now) }
{
    let mut list = Seq::new(alloc);
    for prospect in prospects {
        list.push(prospect.copy(alloc)?)?;
    }
    Ok(list)
}
