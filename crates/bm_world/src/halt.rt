//! What halts a run.

ghost use Rattle.std.specs.Prelude.{◌≡◌, Some, IfOk};
ghost use Rattle.bm_world.specs.declared.halt.Halt.TheVariants.{Memory};
ghost use Rattle.bm_world.specs.Halts.{IsAgain};

use spec_data::{Bytes, Name, OutOfMemory};
use std::alloc::{AllocError, Global};

/// What halts a run: its opening, an event, or what is asked of its world.
#[derive(Drop)]
pub enum Halt {
    /// Two different messages with one digest, the earlier one first.
    Collided(Bytes, Bytes),
    /// A secret was posted by an event that isn't its owner's reveal of it.
    Guessed { party: Name, secret: Name },
    /// Out of memory.
    Memory,
}

impl From<AllocError> for Halt {
    ghost from_gives = { λ _ r. r ≡ Memory };

    fn from(_error: AllocError) -> Halt {
        Halt::Memory
    }
}

impl Halt {
    /// An equal one.
    pub fn copy(&self, alloc: Global) -> Result<Halt, OutOfMemory>
        ensures { IfOk result (λ halt. halt ≡ self.now) }
    {
        Ok(match self {
            Halt::Collided(earlier, later) => {
                Halt::Collided(earlier.copy(alloc)?, later.copy(alloc)?)
            }
            Halt::Guessed { party, secret } => Halt::Guessed {
                party: *party,
                secret: *secret,
            },
            Halt::Memory => Halt::Memory,
        })
    }

    /// The same once more: an equal one, or out of memory where there is none for its messages.
    pub fn again(&self, alloc: Global) -> Halt
        ensures { IsAgain self.now result }
    {
        match self.copy(alloc) {
            Ok(halt) => halt,
            Err(_) => Halt::Memory,
        }
    }
}

/// Keeps a halt for later calls, and answers it: out of memory where there is none for two of it.
pub(crate) fn keep(alloc: Global, kept: &mut Option<Halt>, halt: Halt) -> Halt
    ensures kept { kept.new ≡ Some result }
    ensures same { IsAgain halt result }
{
    match halt.copy(alloc) {
        Ok(copy) => {
            *kept = Some(copy);
            halt
        }
        Err(_) => {
            *kept = Some(Halt::Memory);
            Halt::Memory
        }
    }
}
