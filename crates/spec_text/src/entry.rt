//! What is shown of an event.

ghost use Rattle.std.specs.Prelude.{◌≡◌, IfOk};

use spec_calculus::Step;
use spec_data::{OutOfMemory, Seq};
use spec_run::{Event, Outcome};
use std::alloc::Global;

/// An event, what it came to, and its steps.
pub struct Entry {
    pub event: Event,
    pub outcome: Outcome,
    pub steps: Seq<Step>,
}

impl Drop for Entry {
    fn drop(self) {
        let Entry {
            event: _,
            outcome: _,
            steps: _,
        } = self;
    }
}

impl Entry {
    /// An equal entry.
    pub fn copy(&self, alloc: Global) -> Result<Entry, OutOfMemory>
        ensures { IfOk result (λ entry. entry ≡ self.now) }
    {
        Ok(Entry {
            event: self.event.copy(alloc)?,
            outcome: self.outcome.copy(alloc)?,
            steps: copy_steps(alloc, self.steps.as_slice())?,
        })
    }
}

/// A list of equal steps.
pub fn copy_steps(alloc: Global, steps: &[Step]) -> Result<Seq<Step>, OutOfMemory>
    ensures { IfOk result (λ list. list ≡ steps.now) }
{
    let mut list = Seq::new(alloc);
    for step in steps {
        list.push(step.copy(alloc)?)?;
    }
    Ok(list)
}
