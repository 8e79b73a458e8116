//! A contract as a list of numbered nodes, one for each choice and branch, in the order of its text. The compiler and
//! the runs walk this list by number in place of the tree; a path of the text leads to a number.
#![tactic(auto)]

pub mod arena;
mod building;
mod finding;
pub mod node;

pub use arena::Arena;
pub use bm_syntax::{Contract, Name, Path, PathStep, Pred};
pub use node::{Core, Node};
