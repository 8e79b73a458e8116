//! Decimals and hexadecimal digits, read and written. Every file format here uses them.
#![tactic(auto)]

mod decimals;
mod hexadecimal;
mod piece;
mod pieces;

pub use decimals::{decimal_reads_back, put_decimal, read_decimal};
pub use hexadecimal::{HexError, hexadecimal_reads_back, put_hex, read_hex};
pub use piece::put;
pub use pieces::{Piece, put_all};
