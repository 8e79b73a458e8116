//! The names of a contract's transactions.

ghost use Rattle.std.specs.Prelude.{◌≡◌, IfOk};

use spec_data::OutOfMemory;
use spec_terms::Path;
use std::alloc::Global;

/// One of the compiled transactions of a contract.
#[derive(Drop)]
pub enum Which {
    /// The initial one.
    Init,
    /// That of the branch at this path.
    At(Path),
}

impl Which {
    /// An equal name.
    pub fn copy(&self, alloc: Global) -> Result<Which, OutOfMemory>
        ensures { IfOk result (λ which. which ≡ self.now) }
    {
        match self {
            Which::Init => Ok(Which::Init),
            Which::At(path) => Ok(Which::At(path.copy(alloc)?)),
        }
    }
}
