//! What a contract needs of wallets.

ghost use Rattle.std.specs.Prelude.{◌≡◌, ◌++◌, ◌∷◌, [], map, IfOk, OnOk};
ghost use Rattle.std.specs.List.{flat_map};
ghost use Rattle.spec_terms.specs.Faults.{IsWellFormed};
ghost use Rattle.spec_terms.specs.Order.{branch_paths};
ghost use Rattle.spec_terms.specs.Parties.{participants};
ghost use Rattle.spec_terms.specs.Precondition.{deposits, secrets, names_of};
ghost use Rattle.spec_deal.specs.Needed as spec;
ghost use Rattle.spec_deal.specs.declared.deal.Needed.TheVariants as needs;
ghost use Rattle.bm_arena.specs.NodeView.{node_view};
ghost use Rattle.deal_file.specs.Needs.{party_need, path_need, path_needs, node_needs};

use bm_arena::{Arena, Node};
use bm_wellformed::Checked;
use spec_bitcoin::Label;
use spec_data::{Name, OutOfMemory};
use spec_deal::Needed;
use spec_terms::{Path, Pre};
use std::alloc::Global;
use theory_nodes::few_nodes;

// The number of the only contract of a deal.
const CONTRACT: u32 = 0;

// The keys of the parties' deposits.
fn put_parties(out: &mut Vec<Needed>, parties: &[Name]) -> Result<(), OutOfMemory>
    ensures { OnOk result (out.new.items ≡ out.old.items ++ map party_need parties.now) }
{
    for party in parties {
        out.push(Needed::Key(Label::Deposit { party: *party }))?;
    }
    Ok(())
}

// The key of a party for the branch at a path.
fn path_need(alloc: Global, path: &Path, party: &Name) -> Result<Needed, OutOfMemory>
    ensures { IfOk result (λ need. need ≡ path_need path.now party.now) }
{
    Ok(Needed::Key(Label::Branch {
        contract: CONTRACT,
        path: path.copy(alloc)?,
        party: *party,
    }))
}

// The keys of the parties for the branch at a path.
fn put_path(
    alloc: Global,
    out: &mut Vec<Needed>,
    parties: &[Name],
    path: &Path,
) -> Result<(), OutOfMemory>
    ensures { OnOk result (out.new.items ≡ out.old.items ++ path_needs parties.now path.now) }
{
    for party in parties {
        out.push(path_need(alloc, path, party)?)?;
    }
    Ok(())
}

// The keys for a node, if it is a branch.
fn put_node(
    alloc: Global,
    out: &mut Vec<Needed>,
    parties: &[Name],
    node: &Node,
) -> Result<(), OutOfMemory>
    ensures { OnOk result (out.new.items ≡ out.old.items ++ node_needs parties.now (node_view node.now)) }
{
    match node {
        Node::Choice { .. } => Ok(()),
        Node::Branch { path, .. } => put_path(alloc, out, parties, path),
    }
}

// The keys for all branches among these nodes.
#[tactic(auto, using(std::proofs::Common::append_assoc))]
fn put_nodes(
    alloc: Global,
    out: &mut Vec<Needed>,
    parties: &[Name],
    nodes: &[Node],
) -> Result<(), OutOfMemory>
    ensures { OnOk result (out.new.items ≡ out.old.items ++ flat_map (node_needs parties.now) (map node_view nodes.now)) }
{
    for node in nodes {
        put_node(alloc, out, parties, node)?;
    }
    Ok(())
}

// The keys for all branches of a contract, in the order of its text.
fn put_branches(alloc: Global, out: &mut Vec<Needed>, checked: &Checked) -> Result<(), OutOfMemory>
    ensures { OnOk result (out.new.items ≡ out.old.items ++ flat_map (path_needs (participants checked.now)) (branch_paths checked.now.root)) }
{
    few_nodes();
    let arena = Arena::of(alloc, &checked.advert().root)?;
    put_nodes(alloc, out, checked.parties(), arena.nodes())
}

// The deposits of a precondition.
fn put_deposits(out: &mut Vec<Needed>, pre: &[Pre]) -> Result<(), OutOfMemory>
    ensures { OnOk result (out.new.items ≡ out.old.items ++ map needs.Deposit (names_of (deposits pre.now))) }
{
    for entry in pre {
        match entry {
            Pre::Persistent { name, .. } => out.push(Needed::Deposit(*name))?,
            Pre::Volatile { name, .. } => out.push(Needed::Deposit(*name))?,
            Pre::Secret { .. } => {}
        }
    }
    Ok(())
}

// The secrets of a precondition.
fn put_secrets(out: &mut Vec<Needed>, pre: &[Pre]) -> Result<(), OutOfMemory>
    ensures { OnOk result (out.new.items ≡ out.old.items ++ map needs.Hash (names_of (secrets pre.now))) }
{
    for entry in pre {
        match entry {
            Pre::Persistent { .. } => {}
            Pre::Volatile { .. } => {}
            Pre::Secret { name, .. } => out.push(Needed::Hash(*name))?,
        }
    }
    Ok(())
}

/// All that a contract needs: the key of each label, the place of each deposit, the hash of each secret, in order.
#[tactic(auto, using(std::proofs::Common::append_assoc))]
pub fn needed(alloc: Global, checked: &Checked) -> Result<Vec<Needed>, OutOfMemory>
    ensures { IfOk result (λ all. all.items ≡ spec.needed checked.now) }
{
    let mut all = Vec::new(alloc);
    put_parties(&mut all, checked.parties())?;
    put_branches(alloc, &mut all, checked)?;
    put_deposits(&mut all, &checked.advert().pre)?;
    put_secrets(&mut all, &checked.advert().pre)?;
    Ok(all)
}
