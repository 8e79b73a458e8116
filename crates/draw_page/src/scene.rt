//! What is drawn.

use spec_data::Name;
use spec_page::EventRow;

/// The columns of the tables: the parties, and whether anything is ever elsewhere.
#[derive(Clone, Copy)]
pub(crate) struct Columns<'a> {
    pub parties: &'a [Name],
    pub elsewhere: bool,
}

/// A contract with its number, whether there are others, and the rows of the run.
#[derive(Clone, Copy)]
pub(crate) struct Scene<'a> {
    pub columns: Columns<'a>,
    pub several: bool,
    pub contract: u32,
    pub rows: &'a [EventRow],
}
