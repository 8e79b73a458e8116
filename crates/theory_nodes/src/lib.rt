//! Theorems on a contract's numbered nodes: a path leads to its number, and one walk gives all transactions and
//! scripts. Each is the contract of a function that does nothing.
#![tactic(auto)]

ghost use Rattle.theory_nodes.specs.Found.{BranchesAreFound, ChoicesAreFound, FewNodes};
ghost use Rattle.theory_nodes.specs.Walk.{NodesGiveTransactions, NodesGivePaths, NodesGiveScripts};

pub mod any_keys;
pub mod waiting;

pub use waiting::Waiting;

/// The number that a path leads to is that of the branch there, and none where the contract has none.
pub fn branches_are_found()
    ensures { BranchesAreFound }
{}

/// The number that a position leads to is that of the choice there, and none where the contract has none.
pub fn choices_are_found()
    ensures { ChoicesAreFound }
{}

/// A checked contract has at most 1,024 nodes.
pub fn few_nodes()
    ensures { FewNodes }
{}

/// One walk over the nodes makes the transactions of the contract, in the order of its text.
pub fn nodes_give_transactions()
    ensures { NodesGiveTransactions }
{}

/// The branches among the nodes are the paths of the transactions, in the same order.
pub fn nodes_give_paths()
    ensures { NodesGivePaths }
{}

/// The choices among the nodes are the positions with their scripts, in the same order.
pub fn nodes_give_scripts()
    ensures { NodesGiveScripts }
{}
