//! What a configuration holds, each kind as a list.

ghost use Rattle.std.specs.Prelude.{◌≡◌};

use crate::config::Config;
use bm_wellformed::Checked;
use spec_calculus::{ActiveContract, Deposit};
use std::collections::VecDeque;

impl Config {
    /// The live deposits by ascending numbers.
    pub fn deposits(&self) -> &VecDeque<Deposit>
        ensures { result.now.items ≡ self.now.deposits }
    {
        self.state.deposits.as_deque()
    }

    /// The active contracts by ascending numbers.
    pub fn active(&self) -> &[ActiveContract]
        ensures { result.now ≡ self.now.active }
    {
        self.state.active.as_slice()
    }

    /// The contracts by their places, from 0 on.
    pub fn contracts(&self) -> &[Checked]
        ensures { result.now ≡ self.now.contracts }
    {
        self.state.contracts.as_slice()
    }
}
