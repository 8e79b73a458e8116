//! The nodes of a contract by number.

ghost use Rattle.std.specs.Prelude.{◌≡◌, ◌+◌, ◌<◌, ◌^◌, [], ◌∷◌, ◌++◌, Some, length, map, min, slice_get, slice_set, OnOk};
ghost use Rattle.std.specs.Option.{option_map};
ghost use Rattle.bm_arena.specs.NodeView.{node_view, branches_in};

use crate::node::Node;
use spec_data::OutOfMemory;
use std::alloc::Global;
use std::marker::Model;

/// The nodes of a contract: node 0 is its own choice, each choice stands before its branches, and all follow the order of
/// the text. Contracts see an arena as the list of its nodes.
pub struct Arena {
    nodes: Vec<Node>,
}

impl Model for Arena {
    ghost use Rattle.std.specs.Prelude.{List, map, length, ◌<◌, ◌^◌};
    ghost use Rattle.spec_nodes.specs.Nodes.{Node as NodeValue};
    ghost use Rattle.spec_nodes.specs.NodeCode.{coded_node};
    ghost use Rattle.bm_arena.specs.NodeView.{node_view};
    ghost use Rattle.std.specs.Coded.{coded_list};
    ghost use Rattle.spec_terms.specs.contracts.path.PathStep as step;

    ghost Value = { List NodeValue };

    ghost coded = { coded_list (coded_node step.the_row.coded) };

    ghost view = { λ a. map node_view a.nodes.items };

    ghost invariant = { λ a. length a.nodes.items < 2 ^ 32 };
}

impl Drop for Arena {
    fn drop(self) {
        let Arena { nodes: _ } = self;
    }
}

// How many branches a choice's node has.
fn listed(node: &Node) -> usize
    ensures { result ≡ branches_in (Some (node_view node.now)) }
{
    match node {
        Node::Choice { branches, .. } => branches.len(),
        Node::Branch { .. } => 0,
    }
}

impl Arena {
    // No node.
    pub(crate) fn new(alloc: Global) -> Arena
        ensures { result ≡ [] }
    {
        Arena {
            nodes: Vec::new(alloc),
        }
    }

    // One more node, after all others.
    pub(crate) fn push(&mut self, node: Node) -> Result<(), OutOfMemory>
        requires { length self.old + 1 < 2 ^ 32 }
        ensures { OnOk result (self.new ≡ self.old ++ node_view node ∷ []) }
    {
        self.nodes.push(node)?;
        Ok(())
    }

    // Another node in the place of this number.
    pub(crate) fn set(&mut self, number: u32, node: Node)
        requires { number < length self.old }
        ensures { self.new ≡ slice_set self.old number (node_view node) }
    {
        self.nodes[number as usize] = node;
    }

    /// How many nodes there are.
    pub fn len(&self) -> u32
        ensures { result ≡ length self.now }
    {
        self.nodes.len() as u32
    }

    /// All nodes: the one of number n stands at index n.
    pub fn nodes(&self) -> &[Node]
        ensures { map node_view result.now ≡ self.now }
    {
        self.nodes.as_slice()
    }

    /// The node of this number, if there is one.
    pub fn node(&self, number: u32) -> Option<&Node>
        ensures { option_map (λ n. node_view n.now) result ≡ slice_get self.now number }
    {
        self.nodes.get(number as usize)
    }

    /// How many branches the choice of this number has, but no more than there are nodes.
    pub fn listed_at(&self, number: u32) -> u32
        ensures { result ≡ min (branches_in (slice_get self.now number)) (length self.now) }
    {
        match self.node(number) {
            Some(node) => listed(node).min(self.len() as usize) as u32,
            None => 0,
        }
    }
}
