//! Whom a contract pays.

ghost use Rattle.std.specs.Prelude.{◌≡◌, ◌++◌, ◌∷◌, [], map, IfOk, OnOk};
ghost use Rattle.std.specs.List.{flat_map};
ghost use Rattle.spec_data.specs.Lists.{is_among};
ghost use Rattle.spec_deal.specs.Used.{choice_paid};
ghost use Rattle.bm_arena.specs.NodeView.{deed_view, node_view};
ghost use Rattle.deal_payees.specs.Paid.{deed_paid, node_paid};

use bm_arena::{Arena, Core, Node};
use bm_wellformed::Checked;
use spec_data::{Name, OutOfMemory};
use std::alloc::Global;
use theory_nodes::few_nodes;

// Whom a branch pays that does this.
fn put_deed(out: &mut Vec<Name>, core: &Core) -> Result<(), OutOfMemory>
    ensures { OnOk result (out.new.items ≡ out.old.items ++ deed_paid (deed_view core.now)) }
{
    match core {
        Core::Withdraw { party } => out.push(*party)?,
        Core::PutReveal { .. } | Core::Split { .. } => {}
    }
    Ok(())
}

// Whom a node pays, if it is a branch.
fn put_node(out: &mut Vec<Name>, node: &Node) -> Result<(), OutOfMemory>
    ensures { OnOk result (out.new.items ≡ out.old.items ++ node_paid (node_view node.now)) }
{
    match node {
        Node::Choice { .. } => Ok(()),
        Node::Branch { core, .. } => put_deed(out, core),
    }
}

// Whom these nodes pay.
#[tactic(auto, using(std::proofs::Common::append_assoc))]
fn put_nodes(out: &mut Vec<Name>, nodes: &[Node]) -> Result<(), OutOfMemory>
    ensures { OnOk result (out.new.items ≡ out.old.items ++ flat_map node_paid (map node_view nodes.now)) }
{
    for node in nodes {
        put_node(out, node)?;
    }
    Ok(())
}

/// The parties of all withdraws of a contract, in the order of its text.
pub fn all_paid(alloc: Global, checked: &Checked) -> Result<Vec<Name>, OutOfMemory>
    ensures { IfOk result (λ paid. paid.items ≡ choice_paid checked.now.root) }
{
    few_nodes();
    let mut paid = Vec::new(alloc);
    let arena = Arena::of(alloc, &checked.advert().root)?;
    put_nodes(&mut paid, arena.nodes())?;
    Ok(paid)
}

/// Whether a withdraw is among these parties'.
pub fn is_paid(paid: &[Name], party: &Name) -> bool
    ensures { result ≡ is_among party.now paid.now }
{
    paid.contains(party)
}
