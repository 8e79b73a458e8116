//! What a contract needs on the network before its deal: each deposit with its value and the output script that it has to have, and where
//! each party is paid, as far as a deal file says it. This is `deal fund`.
#![tactic(auto)]

mod hashing;
mod outputs;
mod text;

pub use bm_hash::{Hash32, Trail, TrailError};
pub use bm_wellformed::Checked;
pub use deal_file::Part;
pub use hashing::hash_known;
pub use text::fund_text;
