//! The tables by which a node's number leads to what it is compiled to, and lists of what branches or choices have.

ghost use Rattle.std.specs.Prelude.{◌≡◌, ◌<◌, ◌^◌, ◌++◌, [], ◌∷◌, map, IfOk, OnOk, length};
ghost use Rattle.bm_arena.specs.NodeView.{node_view};
ghost use Rattle.bm_compile.specs.Numbered as spec;
ghost use Rattle.theory_nodes.specs.Walk.{listed_scripts};
ghost use Rattle.bm_compile.specs.Passes.{listed_script};

use crate::unsigned::script_at;
use bm_arena::Node;
use bm_syntax::Path;
use spec_data::{Bytes, OutOfMemory, Seq};
use std::alloc::Global;

// Whether the node is a branch, or where `branch` is false, a choice.
fn is_kind(branch: bool, node: &Node) -> bool
    ensures { result ≡ spec.is_kind branch (node_view node.now) }
{
    match node {
        Node::Choice { .. } => !branch,
        Node::Branch { .. } => branch,
    }
}

/// For each node its place among the branches, or among the choices where `branch` is false; none for the other kind.
pub(crate) fn places(
    alloc: Global,
    nodes: &[Node],
    branch: bool,
) -> Result<Seq<Option<u32>>, OutOfMemory>
    requires { length nodes.now < 2 ^ 32 }
    ensures { IfOk result (λ places. places ≡ spec.places_from branch 0 (map node_view nodes.now)) }
{
    let mut places = Seq::new(alloc);
    let mut next = 0u32;
    for node in nodes {
        if is_kind(branch, node) {
            places.push(Some(next))?;
            next += 1;
        } else {
            places.push(None)?;
        }
    }
    Ok(places)
}

/// The keys of the branches' nodes, by those of all nodes.
pub(crate) fn branches_keys(
    alloc: Global,
    nodes: &[Node],
    table: Seq<Seq<[u8; 33]>>,
) -> Result<Seq<Seq<[u8; 33]>>, OutOfMemory>
    ensures { IfOk result (λ made. made ≡ spec.keys_of_branches (map node_view nodes.now) table) }
{
    let mut made = Seq::new(alloc);
    let mut rest = nodes;
    for keys in table.into_vec() {
        let Some((node, others)) = rest.split_first() else {
            return Ok(made);
        };
        if is_kind(true, node) {
            made.push(keys)?;
        }
        rest = others;
    }
    Ok(made)
}

// The script of a position under its path, put to the others.
fn put_script(
    alloc: Global,
    made: &mut Seq<(Path, Bytes)>,
    position: &Path,
    script: &[u8],
) -> Result<(), OutOfMemory>
    ensures { OnOk result (made.new ≡ made.old ++ (position.now, script.now) ∷ []) }
{
    made.push((position.copy(alloc)?, Bytes::from_slice(alloc, script)?))
}

/// The script of each position, in the order of the text, by the scripts of all nodes.
pub(crate) fn position_scripts(
    alloc: Global,
    nodes: &[Node],
    scripts: &[Bytes],
) -> Result<Seq<(Path, Bytes)>, OutOfMemory>
    ensures { IfOk result (λ made. made ≡ listed_scripts (listed_script scripts.now) 0 (map node_view nodes.now)) }
{
    let mut made = Seq::new(alloc);
    for (number, node) in nodes.iter().enumerate() {
        if let Node::Choice { position, .. } = node {
            put_script(alloc, &mut made, position, script_at(scripts, number))?;
        }
    }
    Ok(made)
}
