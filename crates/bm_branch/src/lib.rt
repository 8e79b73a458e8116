//! Scripts as bytes: that of each branch and position of a contract, and the witness that makes it true. The compiler
//! calls it; `theory_script` says that nothing else makes such a script true.
#![tactic(auto)]

mod codes;
mod predicates;
mod scripts;
mod witnesses;

pub use scripts::{branch_script, output_script, prefix_script};
pub use spec_bitcoin::Op;
pub use witnesses::witness;
