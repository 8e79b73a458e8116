//! Labels are the names of keys, such as `D:A` or `B:0:r.1:A`. Here they are read and written, and keys, deposit
//! scripts and model signatures are made of them.
#![tactic(auto)]

mod keyed;
mod pieces;
mod reading;
mod texts;

pub use bm_hash::{Hash32, Trail, TrailError};
pub use keyed::{
    branch_key, deposit_key, deposit_script, key, key_with, label_key, pay_to, signature,
};
pub use reading::{LabelError, read_label};
pub use spec_bitcoin::Label;
pub use spec_data::Name;
pub use spec_terms::{Path, PathStep};
pub use texts::{deposit_text, label_behind, label_text, put_label, put_path};
