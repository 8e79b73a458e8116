//! The number that a path leads to.

ghost use Rattle.std.specs.Prelude.{◌≡◌, option_map, slice_get};
ghost use Rattle.spec_terms.specs.Term.{Contract as Term};
ghost use Rattle.spec_terms.specs.Paths.{at, contract_under};
ghost use Rattle.spec_nodes.specs.Nodes.{nodes_of};
ghost use Rattle.spec_nodes.specs.Numbers as spec;
ghost use Rattle.bm_arena.specs.NodeView.{node_view, deed_view};

use crate::arena::Arena;
use crate::node::{Core, Node};
use bm_syntax::{Path, PathStep};
use theory_nodes::{branches_are_found, choices_are_found};

// The number at index i.
fn nth(numbers: &[u32], i: u32) -> Option<u32>
    ensures { result ≡ slice_get numbers.now i }
{
    numbers.get(i as usize).copied()
}

// The number of part k's choice.
fn nth_part(parts: &[(u64, u32)], k: u32) -> Option<u32>
    ensures { result ≡ option_map (λ p. p.1) (slice_get parts.now k) }
{
    match parts.get(k as usize) {
        Some((_, number)) => Some(*number),
        None => None,
    }
}

// The number of branch i of a choice.
fn branch_number(node: &Node, i: u32) -> Option<u32>
    ensures { result ≡ spec.branch_number (node_view node.now) i }
{
    match node {
        Node::Choice { branches, .. } => nth(branches, i),
        Node::Branch { .. } => None,
    }
}

// The number, if the node is a branch.
fn if_branch(number: u32, node: &Node) -> Option<u32>
    ensures { result ≡ spec.if_branch number (node_view node.now) }
{
    match node {
        Node::Choice { .. } => None,
        Node::Branch { .. } => Some(number),
    }
}

// The number of the choice that the node is or goes on with.
fn if_choice(number: u32, node: &Node) -> Option<u32>
    ensures { result ≡ spec.if_choice number (node_view node.now) }
{
    match node {
        Node::Choice { .. } => Some(number),
        Node::Branch { core, .. } => next_choice(core),
    }
}

// The number of the choice that a put or reveal goes on with.
fn next_choice(core: &Core) -> Option<u32>
    ensures { result ≡ spec.deed_choice (deed_view core.now) }
{
    match core {
        Core::PutReveal { next, .. } => Some(*next),
        _ => None,
    }
}

impl Arena {
    // The number that a step leads to from a branch that does this.
    fn deed_step(&self, core: &Core, step: PathStep) -> Option<u32>
        ensures { result ≡ spec.deed_step self.now (deed_view core.now) step }
    {
        match (core, step) {
            (Core::PutReveal { next, .. }, PathStep::Branch(i)) => branch_number(
                self.node(*next)?,
                i,
            ),
            (Core::Split { parts }, PathStep::Part(k)) => nth_part(parts, k),
            _ => None,
        }
    }

    // The number that a step leads to from a node.
    fn node_step(&self, node: &Node, step: PathStep) -> Option<u32>
        ensures { result ≡ spec.node_step self.now (node_view node.now) step }
    {
        match (node, step) {
            (Node::Choice { branches, .. }, PathStep::Branch(i)) => nth(branches, i),
            (Node::Choice { .. }, PathStep::Part(_)) => None,
            (Node::Branch { core, .. }, step) => self.deed_step(core, step),
        }
    }

    // The number that a step leads to from the node of this number.
    #[tactic(auto, unfolding(spec_nodes::specs::Numbers::next_number))]
    fn next_number(&self, number: u32, step: PathStep) -> Option<u32>
        ensures { result ≡ spec.next_number self.now number step }
    {
        self.node_step(self.node(number)?, step)
    }

    // The number that a path leads to.
    fn follow(&self, path: &Path) -> Option<u32>
        ensures { result ≡ spec.number_from self.now 0 path.now }
    {
        let mut number = 0;
        for step in path.steps() {
            number = self.next_number(number, *step)?;
        }
        Some(number)
    }

    // The number of the branch at a path.
    fn branch_at(&self, path: &Path) -> Option<u32>
        ensures { result ≡ spec.number_at self.now path.now }
    {
        let number = self.follow(path)?;
        if_branch(number, self.node(number)?)
    }

    // The number of the choice at a position.
    fn choice_at(&self, position: &Path) -> Option<u32>
        ensures { result ≡ spec.choice_number_at self.now position.now }
    {
        let number = self.follow(position)?;
        if_choice(number, self.node(number)?)
    }

    /// The number of the branch at this path, if there is one.
    pub fn find(&self, path: &Path) -> Option<u32>
        ensures by_nodes { result ≡ spec.number_at self.now path.now }
        ensures by_term { (root : Term) → self.now ≡ nodes_of root → spec.IsBranchOf self.now path.now result (at root path.now) }
    {
        branches_are_found();
        self.branch_at(path)
    }

    /// The number of the choice at this position, if there is one.
    pub fn find_choice(&self, position: &Path) -> Option<u32>
        ensures by_nodes { result ≡ spec.choice_number_at self.now position.now }
        ensures by_term { (root : Term) → self.now ≡ nodes_of root
            → spec.IsChoiceOf self.now position.now result (contract_under root position.now) }
    {
        choices_are_found();
        self.choice_at(position)
    }
}
