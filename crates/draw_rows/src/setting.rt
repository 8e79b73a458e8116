//! What stays the same in all rows of a run.

use bm_wellformed::Checked;
use spec_data::Name;
use spec_run::Header;

/// The header, the contracts, who has a column, what the deposits are worth, and whether there are several contracts.
#[derive(Clone, Copy)]
pub(crate) struct Setting<'a> {
    pub header: &'a Header,
    pub contracts: &'a [Checked],
    pub parties: &'a [Name],
    pub total: u64,
    pub several: bool,
}
