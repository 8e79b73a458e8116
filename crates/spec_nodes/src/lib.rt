//! The definition of a contract as a list of numbered nodes. Code walks these; `theory_nodes` says that they give what
//! the tree gives.
#![tactic(auto)]
