//! The rows of an SVG: texts in columns, which have no place yet.

use crate::status::Status;
use spec_data::{Bytes, Seq};

/// What a text is.
#[derive(Clone, Copy)]
pub enum Kind {
    Word,
    /// A word that stands out.
    Strong,
    /// A word that stands back.
    Note,
    /// A word of a refusal or a halt.
    Bad,
    /// The name of the party that has the column of this number.
    Name(u32),
    /// The name of a transaction, or the numbers of events.
    Path,
    /// A condition.
    Chip,
    Sum,
}

/// A text, and where what it tells of stands at the end.
pub struct Item {
    pub kind: Kind,
    pub status: Option<Status>,
    pub text: Bytes,
}

impl Drop for Item {
    fn drop(self) {
        let Item {
            kind: _,
            status: _,
            text: _,
        } = self;
    }
}

/// What stands in a column.
pub struct Cell {
    pub items: Seq<Item>,
}

impl Drop for Cell {
    fn drop(self) {
        let Cell { items: _ } = self;
    }
}

/// A row: its class, its id, so many characters to the right, and its columns. What stands in the second may take several lines.
pub struct GridRow {
    pub look: Bytes,
    pub id: Bytes,
    pub indent: u32,
    pub path: Seq<Item>,
    pub what: Seq<Item>,
    pub sums: Seq<Cell>,
}

impl Drop for GridRow {
    fn drop(self) {
        let GridRow {
            look: _,
            id: _,
            indent: _,
            path: _,
            what: _,
            sums: _,
        } = self;
    }
}
