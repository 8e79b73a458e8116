//! Where an advert has a fault or exceeds a limit.

ghost use Rattle.std.specs.Prelude.{◌≡◌, IfOk};

use crate::path::Path;
use spec_data::{Name, OutOfMemory};
use std::alloc::Global;

/// Where an advert has a fault or exceeds a limit.
pub enum Place {
    /// The entry of the precondition of this number, counted from 0.
    Pre(u32),
    Branch(Path),
    Position(Path),
    Party(Name),
    /// How many there are.
    Count(u32),
}

impl Drop for Place {
    fn drop(self) {
        match self {
            Place::Pre(_)
            | Place::Branch(_)
            | Place::Position(_)
            | Place::Party(_)
            | Place::Count(_) => {}
        }
    }
}

impl Place {
    /// An equal place.
    pub fn copy(&self, alloc: Global) -> Result<Place, OutOfMemory>
        ensures { IfOk result (λ place. place ≡ self.now) }
    {
        match self {
            Place::Pre(number) => Ok(Place::Pre(*number)),
            Place::Branch(path) => Ok(Place::Branch(path.copy(alloc)?)),
            Place::Position(path) => Ok(Place::Position(path.copy(alloc)?)),
            Place::Party(name) => Ok(Place::Party(*name)),
            Place::Count(count) => Ok(Place::Count(*count)),
        }
    }
}
