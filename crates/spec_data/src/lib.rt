//! Lists, byte strings, names and number ranges, as contracts see them. Every definition is built of these.
#![tactic(auto)]

pub mod boxed;
pub mod byte_list;
pub mod name;
pub mod ranges;
pub mod seq;

pub use boxed::Boxed;
pub use byte_list::{Bytes, OutOfMemory, end_apart};
pub use name::Name;
pub use ranges::{
    LAST_HEIGHT, LEAST_SECRET_BYTES, MAX_MONEY, MOST_EVENTS, MOST_ITEM_BYTES, MOST_RUN_BYTES,
    MOST_TEXT_BYTES,
};
pub use seq::Seq;
