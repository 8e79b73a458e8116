//! Makes values of JSON, and writes one on a line of its own, which reads back as that value.
#![tactic(auto)]

mod line;
mod values;

pub use line::line_of;
pub use values::{list_value, number_or_null, text_or_null, text_value};
