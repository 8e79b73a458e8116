//! The texts of `plan` and `weigh`: a compiled contract's scripts, transactions and digests, and what each transaction
//! weighs at least and at most. It also counts a run for `make`.
#![tactic(auto)]

mod compiled;
mod counts;
mod listed;
mod paths;
mod plan;
mod sizes;
mod totals;
mod transactions;
mod values;
mod weights;

pub use compiled::weigh;
pub use counts::counts_text;
pub use listed::weigh_listed;
pub use paths::{choices_at, last_branch, position_of, prefix_of, reveal_count};
pub use plan::plan_text;
pub use sizes::{count_size, narrow, selector_bytes, selector_count};
pub use spec_tool::Weight;
pub use weights::weigh_text;
