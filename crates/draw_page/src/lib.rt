//! Writes the rows of a contract and of a run as the page of them.
#![tactic(auto)]

mod assets;
mod balances;
mod bodies;
mod cells;
mod conditions;
mod contract_page;
mod escaping;
mod figures;
mod frames;
mod looks;
mod outlooks;
mod page;
mod parts;
mod pieces;
mod run_rows;
mod run_words;
mod scene;
mod sums;
mod ways;

pub use balances::{sum_at, sum_before};
pub use bodies::{is_elsewhere, sheet_size};
pub use conditions::condition_text;
pub use contract_page::write_contract_page;
pub use looks::{look_in, status_word};
pub use page::write_page;
pub use parts::{further, row_size};
pub use pieces::{Piece, made, put_all};
pub use run_words::{look_word, number_text, row_id};
