//! All live deposits.

ghost use Rattle.std.specs.Prelude.{◌≡◌};

use crate::deposits::Deposits;
use spec_calculus::Deposit;
use std::collections::VecDeque;

impl Deposits {
    /// The deposits by ascending numbers.
    pub fn as_deque(&self) -> &VecDeque<Deposit>
        ensures { result.now.items ≡ self.now }
    {
        &self.items
    }
}
