//! The scripts of a contract's positions.

ghost use Rattle.std.specs.Prelude.{◌≡◌, ℕ, List, ◌++◌, [], ◌∷◌, map, true, None, IfOk, OnOk, slice_get, slice_index_or};
ghost use Rattle.std.specs.List.{flat_map, list_all};
ghost use Rattle.spec_bitcoin.specs.Meaning.{is_short_push};
ghost use Rattle.spec_terms.specs.Term.{always};
ghost use Rattle.spec_compiler.specs.Scripts as spec;
ghost use Rattle.spec_compiler.specs.Scripts.{demands};
ghost use Rattle.spec_compiler.specs.Keyed.Keys.{Keys};
ghost use Rattle.theory_nodes.specs.Keyed.Walk.{deed_demands, node_demands};
ghost use Rattle.bm_hash.specs.Messages.{evidence_of};
ghost use Rattle.bm_hash.specs.Trails.{Hashes};
ghost use Rattle.bm_arena.specs.NodeView.{node_view, deed_view};
ghost use Rattle.bm_compile.specs.Passes.{keys_of_node, choice_script, script_of_node, scripts_of_node};
ghost use Rattle.bm_compile.specs.Passes.{has_short_reveals, are_short_reveals};

use crate::setting::Setting;
use crate::sourcing::KeySource;
use bm_arena::{Core, Node};
use bm_branch::{output_script, prefix_script};
use bm_hash::{Hash32, Trail, TrailError};
use bm_syntax::Pred;
use spec_bitcoin::Op;
use spec_data::{Bytes, Name, OutOfMemory, Seq};
use std::alloc::Global;

// The operations of a branch that does this, with these keys.
fn core_ops(
    alloc: Global,
    core: &Core,
    keys: &[[u8; 33]],
    hashes: &[(Name, [u8; 32])],
) -> Result<Vec<Op>, OutOfMemory>
    requires { are_short_reveals (deed_view core.now) ≡ true }
    ensures operations { IfOk result (λ ops. ops.items ≡ spec.branch_ops (deed_demands (deed_view core.now) keys.now hashes.now)) }
    ensures short { IfOk result (λ ops. list_all is_short_push ops.items ≡ true) }
{
    match core {
        Core::PutReveal { reveals, test, .. } => prefix_script(alloc, reveals, test, keys, hashes),
        _ => prefix_script(alloc, &[], &Pred::True, keys, hashes),
    }
}

// The operations of a branch whose script asks for nothing.
fn no_ops(alloc: Global) -> Result<Vec<Op>, OutOfMemory>
    ensures operations { IfOk result (λ ops. ops.items ≡ spec.branch_ops (demands [] always [] [])) }
    ensures short { IfOk result (λ ops. list_all is_short_push ops.items ≡ true) }
{
    prefix_script(alloc, &[], &Pred::True, &[], &[])
}

// The keys of the node of this number, none where there is no such node.
fn keys_at(keys: &[Seq<[u8; 33]>], number: u32) -> &[[u8; 33]]
    ensures { result.now ≡ slice_index_or keys.now number [] }
{
    match keys.get(number as usize) {
        Some(keys) => keys.as_slice(),
        None => &[],
    }
}

// The operations of the branch whose node has this number.
fn branch_ops(
    alloc: Global,
    setting: &Setting,
    nodes: &[Node],
    keys: &[Seq<[u8; 33]>],
    number: u32,
) -> Result<Vec<Op>, OutOfMemory>
    requires { list_all (λ node. has_short_reveals (node_view node)) nodes.now ≡ true }
    ensures operations { (hash : List ℕ → List ℕ) (all : Keys) → keys.now ≡ map (λ node. keys_of_node hash all setting.now (node_view node)) nodes.now
        → IfOk result (λ ops. ops.items ≡ spec.branch_ops (node_demands hash all setting.now (slice_get (map node_view nodes.now) number))) }
    ensures short { IfOk result (λ ops. list_all is_short_push ops.items ≡ true) }
{
    match nodes.get(number as usize) {
        Some(Node::Branch { core, .. }) => core_ops(
            alloc,
            core,
            keys_at(keys, number),
            setting.hashes(),
        ),
        _ => no_ops(alloc),
    }
}

// The script of a position with these branches.
fn choice_script(
    alloc: Global,
    setting: &Setting,
    nodes: &[Node],
    keys: &[Seq<[u8; 33]>],
    branches: &[u32],
) -> Result<Bytes, OutOfMemory>
    requires { list_all (λ node. has_short_reveals (node_view node)) nodes.now ≡ true }
    ensures { (hash : List ℕ → List ℕ) (all : Keys) → keys.now ≡ map (λ node. keys_of_node hash all setting.now (node_view node)) nodes.now
        → IfOk result (λ script. script ≡ choice_script hash all setting.now (map node_view nodes.now) branches.now) }
{
    let mut ops = Vec::new(alloc);
    for number in branches {
        ops.push(branch_ops(alloc, setting, nodes, keys, *number)?)?;
    }
    output_script(alloc, &ops)
}

// The script of a position with these branches, put to the others. It is hashed.
#[tactic(auto, using(bm_hash::proofs::HashesLemmas::stops_early, bm_hash::proofs::HashesLemmas::stops_late))]
fn put_choice_script<H: Hash32 + Drop, K: KeySource>(
    alloc: Global,
    trail: &mut Trail<H>,
    source: &K,
    setting: &Setting,
    nodes: &[Node],
    keys: &[Seq<[u8; 33]>],
    scripts: &mut Seq<Bytes>,
    branches: &[u32],
) -> Result<(), TrailError>
    requires clear { evidence_of (H.digest_of trail.old.hasher) trail.old.messages ≡ None }
    requires few { list_all (λ node. has_short_reveals (node_view node)) nodes.now ≡ true }
    requires keys { let hash = H.digest_of trail.old.hasher in
        keys.now ≡ map (λ node. keys_of_node hash (K.keys source.now) setting.now (node_view node)) nodes.now }
    ensures scripts { let made = choice_script (H.digest_of trail.old.hasher) (K.keys source.now) setting.now (map node_view nodes.now) branches.now in
        OnOk result (scripts.new ≡ scripts.old ++ made ∷ []) }
    ensures trail { let made = choice_script (H.digest_of trail.old.hasher) (K.keys source.now) setting.now (map node_view nodes.now) branches.now in
        Hashes H.digest_of trail.old trail.new (made ∷ []) result }
{
    let script = choice_script(alloc, setting, nodes, keys, branches)?;
    trail.hash(script.as_slice())?;
    scripts.push(script)?;
    Ok(())
}

// The script of one more node, which is hashed where the node is a choice.
#[tactic(auto, using(bm_hash::proofs::HashesLemmas::hashed_none, bm_hash::proofs::HashesLemmas::stops_early))]
fn put_script<H: Hash32 + Drop, K: KeySource>(
    alloc: Global,
    trail: &mut Trail<H>,
    source: &K,
    setting: &Setting,
    nodes: &[Node],
    keys: &[Seq<[u8; 33]>],
    scripts: &mut Seq<Bytes>,
    node: &Node,
) -> Result<(), TrailError>
    requires clear { evidence_of (H.digest_of trail.old.hasher) trail.old.messages ≡ None }
    requires few { list_all (λ node. has_short_reveals (node_view node)) nodes.now ≡ true }
    requires keys { let hash = H.digest_of trail.old.hasher in
        keys.now ≡ map (λ node. keys_of_node hash (K.keys source.now) setting.now (node_view node)) nodes.now }
    ensures scripts { let made = script_of_node (H.digest_of trail.old.hasher) (K.keys source.now) setting.now (map node_view nodes.now) (node_view node.now) in
        OnOk result (scripts.new ≡ scripts.old ++ made ∷ []) }
    ensures trail { let made = scripts_of_node (H.digest_of trail.old.hasher) (K.keys source.now) setting.now (map node_view nodes.now) (node_view node.now) in
        Hashes H.digest_of trail.old trail.new made result }
{
    match node {
        Node::Choice { branches, .. } => put_choice_script(
            alloc, trail, source, setting, nodes, keys, scripts, branches,
        ),
        Node::Branch { .. } => {
            scripts.push(Bytes::of(Vec::new(alloc)))?;
            Ok(())
        }
    }
}

/// The script of each node: that of a position for its choice, and nothing for a branch. The scripts are hashed in order.
#[tactic(auto, using(bm_hash::proofs::HashesLemmas::hashed_none))]
pub(crate) fn script_table<H: Hash32 + Drop, K: KeySource>(
    alloc: Global,
    trail: &mut Trail<H>,
    source: &K,
    setting: &Setting,
    nodes: &[Node],
    keys: &[Seq<[u8; 33]>],
) -> Result<Seq<Bytes>, TrailError>
    requires clear { evidence_of (H.digest_of trail.old.hasher) trail.old.messages ≡ None }
    requires few { list_all (λ node. has_short_reveals (node_view node)) nodes.now ≡ true }
    requires keys { let hash = H.digest_of trail.old.hasher in
        keys.now ≡ map (λ node. keys_of_node hash (K.keys source.now) setting.now (node_view node)) nodes.now }
    ensures scripts { let hash = H.digest_of trail.old.hasher in
        IfOk result (λ table. table ≡ map (λ node. script_of_node hash (K.keys source.now) setting.now (map node_view nodes.now) (node_view node)) nodes.now) }
    ensures trail { let hash = H.digest_of trail.old.hasher in
        Hashes H.digest_of trail.old trail.new
        (flat_map (λ node. scripts_of_node hash (K.keys source.now) setting.now (map node_view nodes.now) (node_view node)) nodes.now) result }
{
    let mut scripts = Seq::new(alloc);
    for node in nodes {
        put_script(
            alloc,
            trail,
            source,
            setting,
            nodes,
            keys,
            &mut scripts,
            node,
        )?;
    }
    Ok(scripts)
}
