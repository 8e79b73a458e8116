//! The outputs and secrets of a deal after some transactions.

use spec_chain::Output;
use spec_data::{Bytes, Name};

/// Where a deal stands: its live deposits and positions, the number that its next output gets, the outputs that its transactions made,
/// and the strings of secrets that were shown.
pub struct Standing {
    pub live: Vec<Output>,
    pub next: u32,
    pub made: Vec<Output>,
    pub shown: Vec<(Name, Bytes)>,
}

impl Drop for Standing {
    fn drop(self) {
        let Standing {
            live: _,
            next: _,
            made: _,
            shown: _,
        } = self;
    }
}
