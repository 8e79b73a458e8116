//! Partially signed transactions (BIP 174, the subset of docs/formats.md): reading, writing and combining them, and
//! their Base64.
#![tactic(auto)]

mod base64_reading;
mod base64_writing;
mod combining;
mod fault;
mod inputs;
mod maps;
mod order;
mod psbt;
mod reading;
mod same;
mod signatures;
mod writing;

pub use base64_reading::{Base64Error, read_base64};
pub use base64_writing::base64_text;
pub use combining::combine;
pub use fault::{CombineError, PsbtError};
pub use psbt::Psbt;
pub use reading::decode;
pub use spec_tool::PsbtInput;
pub use writing::encode;
