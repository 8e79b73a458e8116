//! The page of a contract and of a run with it: rows as plain data, and how HTML and SVG write them.
#![tactic(auto)]

pub mod event_row;
pub mod picture;
pub mod status;
pub mod svg_row;
pub mod way_row;

pub use event_row::{EventRow, Look, Money};
pub use picture::{Picture, Sheet};
pub use status::Status;
pub use svg_row::{Cell, GridRow, Item, Kind};
pub use way_row::{Condition, Payment, Stake, WayRow};
