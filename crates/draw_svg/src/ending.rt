//! How a run ends for a contract.

use spec_data::Name;
use spec_page::Status;

/// The parties, whether there are other contracts, the contract's number, and where all parts stand at the end.
#[derive(Clone, Copy)]
pub(crate) struct Ending<'a> {
    pub parties: &'a [Name],
    pub several: bool,
    pub contract: u32,
    pub looks: &'a [Status],
}
