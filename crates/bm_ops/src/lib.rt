//! Scripts as operations and as bytes, both ways, and the numbers that their items spell. Compiler and interpreter
//! share it.
#![tactic(auto)]

mod numbers;
mod opcodes;
mod reading;
mod writing;

pub use numbers::{item_of, number_of};
pub use opcodes::opcode_named;
pub use reading::{ScriptError, decode_script};
pub use spec_bitcoin::{Binary, Op, Opcode};
pub use writing::{encode_script, push_number};
