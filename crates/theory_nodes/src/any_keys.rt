//! The theorems on the walk over a contract's numbered nodes, for every way to give a key to each label. Those of the same names in
//! the root speak of the key plan, and are instances of these.

ghost use Rattle.theory_nodes.specs.Keyed.Walk.{NodesGiveTransactions, NodesGivePaths, NodesGiveScripts};

/// One walk over the nodes makes the transactions of the contract, in the order of its text.
pub fn nodes_give_transactions()
    ensures { NodesGiveTransactions }
{}

/// The branches among the nodes are the paths of the transactions, in the same order.
pub fn nodes_give_paths()
    ensures { NodesGivePaths }
{}

/// The choices among the nodes are the positions with their scripts, in the same order.
pub fn nodes_give_scripts()
    ensures { NodesGiveScripts }
{}
