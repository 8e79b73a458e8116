//! All active contracts.

ghost use Rattle.std.specs.Prelude.{◌≡◌};

use crate::contracts::ActiveContracts;
use spec_calculus::ActiveContract;

impl ActiveContracts {
    /// The active contracts by ascending numbers.
    pub fn as_slice(&self) -> &[ActiveContract]
        ensures { result.now ≡ self.now }
    {
        self.items.as_slice()
    }
}
