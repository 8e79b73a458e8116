//! Transactions as bytes, both ways, and their ids. What isn't exactly one transaction is refused at a place.
#![tactic(auto)]

mod fault;
mod identity;
mod numbers;
mod reading;
mod writing;

pub use fault::TxError;
pub use identity::txid;
pub use numbers::{count_at, string_of, u64_at};
pub use reading::decode;
pub use spec_bitcoin::{OutPoint, Tx, TxIn, TxOut};
pub use writing::{
    encode, encode_stripped, put_count, put_long_word, put_output, put_place, put_sized, put_word,
    with_room,
};
