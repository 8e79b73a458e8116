//! Strategies, which `auto` follows: a file of rules for honest parties is read, and its rules add events to a run,
//! round by round, until none is left that can be taken.
#![tactic(auto)]

mod acts;
mod error;
mod extending;
mod judging;
mod printing;
mod read;
mod refusing;
mod rules;
mod ruling;
mod standing;
mod trying;
mod turning;

pub use error::StrategyError;
pub use extending::extend;
pub use judging::{StrategyJudgement, judge_strategy, rule_lines_are_defined};
pub use printing::longer_reply;
pub use read::{MOST_STRATEGY_BYTES, read_strategy, strategy_limits_are_defined};
pub use refusing::strategy_refused;
pub use spec_tool::{Act, Rule};
