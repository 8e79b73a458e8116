//! What nodes say of branches, and the gate of one branch.

ghost use Rattle.std.specs.Prelude.{◌≡◌, IfOk, IfSome, Some, true, map, option_map};
ghost use Rattle.std.specs.List.{list_all};
ghost use Rattle.spec_data.specs.Lists.{is_among};
ghost use Rattle.spec_terms.specs.Term.{Contract as Term};
ghost use Rattle.spec_terms.specs.Paths.{at};
ghost use Rattle.spec_terms.specs.Precondition.{names_of, volatile};
ghost use Rattle.spec_nodes.specs.Nodes.{nodes_of};
ghost use Rattle.theory_nodes.specs.Walk.{deed_puts};
ghost use Rattle.bm_arena.specs.NodeView.{node_view, deed_view};
ghost use Rattle.bm_honest.specs.Gates.{gate_at, gate_for};
ghost use Rattle.bm_compile.specs.Numbered.{is_kind};
ghost use Rattle.bm_honest.specs.Seen.{AreSeen, IsSeen};
ghost use Rattle.bm_honest.specs.Unsigned.{unsigned_for, seen_node, seen_branch};

use crate::needs::{first_owner, first_person};
use bm_arena::{Arena, Core, Node};
use bm_book::Book;
use bm_hash::Hash32;
use bm_wellformed::Checked;
use spec_compiler::Prepared;
use spec_data::{Name, OutOfMemory};
use spec_terms::Path;
use std::alloc::Global;

// The deposits that a branch puts.
fn puts(core: &Core) -> &[Name]
    ensures { result.now ≡ deed_puts (deed_view core.now) }
{
    match core {
        Core::PutReveal { puts, .. } => puts,
        _ => &[],
    }
}

// The parties that a branch's node asks, and the deposits that it puts.
fn seen(node: &Node) -> Option<(&[Name], &[Name])>
    ensures { option_map (λ p. (p.0.now, p.1.now)) result ≡ seen_node (Some (node_view node.now)) }
{
    match node {
        Node::Choice { .. } => None,
        Node::Branch { asks, core, .. } => Some((asks, puts(core))),
    }
}

// The parties that the branch at a path asks, and the deposits that it puts.
fn seen_by_nodes<'a>(arena: &'a Arena, path: &Path) -> Option<(&'a [Name], &'a [Name])>
    ensures { (root : Term) → arena.now ≡ nodes_of root
        → option_map (λ p. (p.0.now, p.1.now)) result ≡ seen_branch (at root path.now) }
{
    let number = arena.find(path)?;
    seen(arena.node(number)?)
}

// The same by the node itself, where it is the branch at the path.
#[tactic(auto, using(crate::proofs::Nodes::seen_there))]
fn seen_by_node<'a>(node: &'a Node, path: &Path) -> Option<(&'a [Name], &'a [Name])>
    ensures { IfSome result (λ p. (root : Term) → IsSeen root (node_view node.now) → seen_branch (at root path.now) ≡ Some (p.0.now, p.1.now)) }
{
    match node {
        Node::Choice { .. } => None,
        Node::Branch {
            path: known,
            asks,
            core,
            ..
        } => {
            if *known == *path {
                return Some((asks, puts(core)));
            }
            None
        }
    }
}

// The same by the first of these nodes, where it is the branch at the path.
fn seen_first<'a>(nodes: &'a [Node], path: &Path) -> Option<(&'a [Name], &'a [Name])>
    ensures { IfSome result (λ p. (root : Term) → AreSeen root (map node_view nodes.now)
        → seen_branch (at root path.now) ≡ Some (p.0.now, p.1.now)) }
{
    let (node, _) = nodes.split_first()?;
    seen_by_node(node, path)
}

// The same by the first of these nodes, or else by the steps of the path.
fn seen_soon<'a>(
    arena: &'a Arena,
    nodes: &'a [Node],
    path: &Path,
) -> Option<(&'a [Name], &'a [Name])>
    ensures { (root : Term) → arena.now ≡ nodes_of root → AreSeen root (map node_view nodes.now)
        → option_map (λ p. (p.0.now, p.1.now)) result ≡ seen_branch (at root path.now) }
{
    match seen_first(nodes, path) {
        Some(seen) => Some(seen),
        None => seen_by_nodes(arena, path),
    }
}

// Whether the node is a branch's.
fn is_branch(node: &Node) -> bool
    ensures { result ≡ is_kind true (node_view node.now) }
{
    match node {
        Node::Choice { .. } => false,
        Node::Branch { .. } => true,
    }
}

// These nodes from the first branch on.
#[tactic(auto, using(crate::proofs::Nodes::rest_seen))]
fn from_branch(nodes: &[Node]) -> &[Node]
    ensures { (root : Term) → AreSeen root (map node_view nodes.now) → AreSeen root (map node_view result.now) }
{
    for (number, node) in nodes.iter().enumerate() {
        if is_branch(node) {
            return &nodes[number..];
        }
    }
    &[]
}

// These nodes after the first.
fn after_first(nodes: &[Node]) -> &[Node]
    ensures { (root : Term) → AreSeen root (map node_view nodes.now) → AreSeen root (map node_view result.now) }
{
    match nodes.split_first() {
        Some((_, others)) => others,
        None => &[],
    }
}

/// The nodes of a contract from its first branch on.
pub(crate) fn first_nodes<'a>(checked: &Checked, arena: &'a Arena) -> &'a [Node]
    requires { arena.now ≡ nodes_of checked.now.root }
    ensures { AreSeen checked.now.root (map node_view result.now) }
{
    from_branch(arena.nodes())
}

/// These nodes from the next branch after the first on.
pub(crate) fn next_nodes<'a>(checked: &Checked, nodes: &'a [Node]) -> &'a [Node]
    requires { AreSeen checked.now.root (map node_view nodes.now) }
    ensures { AreSeen checked.now.root (map node_view result.now) }
{
    from_branch(after_first(nodes))
}

/// The same in a checked contract, where each deposit that a branch puts is a volatile one. The branch is that of the first of these
/// nodes as a rule, and then its path's steps aren't followed from the root.
pub(crate) fn seen_at<'a>(
    checked: &Checked,
    arena: &'a Arena,
    nodes: &'a [Node],
    path: &Path,
) -> Option<(&'a [Name], &'a [Name])>
    requires arena { arena.now ≡ nodes_of checked.now.root }
    requires nodes { AreSeen checked.now.root (map node_view nodes.now) }
    ensures seen { option_map (λ p. (p.0.now, p.1.now)) result ≡ seen_branch (at checked.now.root path.now) }
    ensures known { IfSome result (λ p. list_all (λ name. is_among name (names_of (volatile checked.now.pre))) p.1.now ≡ true) }
{
    let _advert = checked.advert();
    let (asked, puts) = seen_soon(arena, nodes, path)?;
    Some((asked, puts))
}

// The first party that hasn't signed for a branch which has these keys of the participants, and asks and puts these, by the digests
// of its transaction's inputs.
fn first_for<H: Hash32>(
    alloc: Global,
    hash: &H,
    book: &Book,
    checked: &Checked,
    keys: &[[u8; 33]],
    asked: &[Name],
    puts: &[Name],
    digests: &[[u8; 32]],
) -> Result<Option<Name>, OutOfMemory>
    requires { list_all (λ name. is_among name (names_of (volatile checked.now.pre))) puts.now ≡ true }
    ensures { IfOk result (λ party. party
        ≡ unsigned_for (H.digest_of hash.now) book.now checked.now keys.now asked.now puts.now digests.now) }
{
    let Some((digest, others)) = digests.split_first() else {
        return Ok(None);
    };
    let person = first_person(book, asked, digest, checked.parties(), keys);
    if let Some(person) = person {
        return Ok(Some(person));
    }
    first_owner(alloc, hash, book, &checked.advert().pre, puts, others)
}

/// The first party that hasn't signed for the branch at a path, which has these keys of the participants, and is that of the first of
/// these nodes as a rule.
pub(crate) fn first_at<H: Hash32>(
    alloc: Global,
    hash: &H,
    book: &Book,
    checked: &Checked,
    arena: &Arena,
    nodes: &[Node],
    keys: &[[u8; 33]],
    path: &Path,
    made: &Prepared,
) -> Result<Option<Name>, OutOfMemory>
    requires arena { arena.now ≡ nodes_of checked.now.root }
    requires nodes { AreSeen checked.now.root (map node_view nodes.now) }
    ensures { IfOk result (λ party. gate_for (H.digest_of hash.now) book.now checked.now keys.now path.now made.now
        ≡ gate_at path.now party) }
{
    let Some((asked, puts)) = seen_at(checked, arena, nodes, path) else {
        return Ok(None);
    };
    let digests = made.digests.as_slice();
    first_for(alloc, hash, book, checked, keys, asked, puts, digests)
}
