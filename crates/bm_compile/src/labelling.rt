//! The keys of a contract's branches.

ghost use Rattle.std.specs.Prelude.{◌≡◌, ◌++◌, [], ◌∷◌, map, None, IfOk, OnOk};
ghost use Rattle.std.specs.List.{flat_map};
ghost use Rattle.bm_hash.specs.Messages.{evidence_of};
ghost use Rattle.bm_hash.specs.Trails.{Hashes};
ghost use Rattle.spec_compiler.specs.Keyed.Keys.{key_in};
ghost use Rattle.spec_compiler.specs.Keyed.Instance.{branch_label, branch_keys};
ghost use Rattle.bm_arena.specs.NodeView.{node_view};
ghost use Rattle.bm_compile.specs.Keyed.Sources.{label_strings, named_for};
ghost use Rattle.bm_compile.specs.Passes.{keys_of_node, labels_of_path, labels_of_node};

use crate::setting::Setting;
use crate::sourcing::KeySource;
use bm_arena::Node;
use bm_hash::{Hash32, Trail, TrailError};
use bm_keys::Label;
use bm_syntax::Path;
use spec_data::{Name, OutOfMemory, Seq};
use std::alloc::Global;

fn label_of(alloc: Global, contract: u32, path: &Path, party: &Name) -> Result<Label, OutOfMemory>
    ensures { IfOk result (λ label. label ≡ branch_label contract path.now party.now) }
{
    Ok(Label::Branch {
        contract,
        path: path.copy(alloc)?,
        party: *party,
    })
}

// The label is then another party's.
fn rename(label: &mut Label, party: &Name)
    ensures { label.new ≡ named_for label.old party.now }
{
    match label {
        Label::Deposit { party: named } => *named = *party,
        Label::Branch { party: named, .. } => *named = *party,
    }
}

// The key of a party by this label once it is the party's, put to the others. All that can fail after its strings are hashed is done
// here, so that a loop over the parties has one way to end early.
#[tactic(auto, using(bm_hash::proofs::HashesLemmas::stops_early, bm_hash::proofs::HashesLemmas::stops_late))]
fn put_key<H: Hash32 + Drop, K: KeySource>(
    alloc: Global,
    trail: &mut Trail<H>,
    source: &K,
    keys: &mut Seq<[u8; 33]>,
    label: &mut Label,
    party: &Name,
) -> Result<(), TrailError>
    requires clear { evidence_of (H.digest_of trail.old.hasher) trail.old.messages ≡ None }
    ensures label { label.new ≡ named_for label.old party.now }
    ensures keys { OnOk result (keys.new ≡ keys.old
        ++ key_in (H.digest_of trail.old.hasher) (K.keys source.now) (named_for label.old party.now) ∷ []) }
    ensures trail { Hashes H.digest_of trail.old trail.new (label_strings (K.keys source.now) (named_for label.old party.now)) result }
{
    rename(label, party);
    let made = source.key(alloc, trail, label)?;
    keys.push(made)?;
    Ok(())
}

// The key of each of these parties for the branch at a path, in order. One label serves all, since its path takes memory.
#[tactic(auto, using(bm_hash::proofs::HashesLemmas::hashed_none, bm_hash::proofs::HashesLemmas::stops_early))]
fn party_keys<H: Hash32 + Drop, K: KeySource>(
    alloc: Global,
    trail: &mut Trail<H>,
    source: &K,
    contract: u32,
    path: &Path,
    parties: &[Name],
) -> Result<Seq<[u8; 33]>, TrailError>
    requires clear { evidence_of (H.digest_of trail.old.hasher) trail.old.messages ≡ None }
    ensures keys { let hash = H.digest_of trail.old.hasher in
        IfOk result (λ keys. keys ≡ map (λ party. key_in hash (K.keys source.now) (branch_label contract path.now party)) parties.now) }
    ensures trail { Hashes H.digest_of trail.old trail.new
        (flat_map (λ party. label_strings (K.keys source.now) (branch_label contract path.now party)) parties.now) result }
{
    let mut keys = Seq::with_capacity(alloc, parties.len())?;
    let Some(first) = parties.first() else {
        return Ok(keys);
    };
    let mut label = label_of(alloc, contract, path, first)?;
    for party in parties {
        put_key(alloc, trail, source, &mut keys, &mut label, party)?;
    }
    Ok(keys)
}

// The keys of the branch at a path, in the order of the participants.
fn path_keys<H: Hash32 + Drop, K: KeySource>(
    alloc: Global,
    trail: &mut Trail<H>,
    source: &K,
    setting: &Setting,
    path: &Path,
) -> Result<Seq<[u8; 33]>, TrailError>
    requires clear { evidence_of (H.digest_of trail.old.hasher) trail.old.messages ≡ None }
    ensures keys { IfOk result (λ keys. keys ≡ branch_keys (H.digest_of trail.old.hasher) (K.keys source.now) setting.now path.now) }
    ensures trail { Hashes H.digest_of trail.old trail.new (labels_of_path (K.keys source.now) setting.now path.now) result }
{
    party_keys(
        alloc,
        trail,
        source,
        setting.contract(),
        path,
        setting.parties(),
    )
}

// The keys of a node: those of a branch, and none of a choice.
#[tactic(auto, using(bm_hash::proofs::HashesLemmas::hashed_none))]
fn node_keys<H: Hash32 + Drop, K: KeySource>(
    alloc: Global,
    trail: &mut Trail<H>,
    source: &K,
    setting: &Setting,
    node: &Node,
) -> Result<Seq<[u8; 33]>, TrailError>
    requires clear { evidence_of (H.digest_of trail.old.hasher) trail.old.messages ≡ None }
    ensures keys { IfOk result (λ keys. keys ≡ keys_of_node (H.digest_of trail.old.hasher) (K.keys source.now) setting.now (node_view node.now)) }
    ensures trail { Hashes H.digest_of trail.old trail.new (labels_of_node (K.keys source.now) setting.now (node_view node.now)) result }
{
    match node {
        Node::Choice { .. } => Ok(Seq::new(alloc)),
        Node::Branch { path, .. } => path_keys(alloc, trail, source, setting, path),
    }
}

// The keys of one more node.
#[tactic(auto, using(bm_hash::proofs::HashesLemmas::stops_late))]
fn put_keys<H: Hash32 + Drop, K: KeySource>(
    alloc: Global,
    trail: &mut Trail<H>,
    source: &K,
    setting: &Setting,
    table: &mut Seq<Seq<[u8; 33]>>,
    node: &Node,
) -> Result<(), TrailError>
    requires clear { evidence_of (H.digest_of trail.old.hasher) trail.old.messages ≡ None }
    ensures keys { let made = keys_of_node (H.digest_of trail.old.hasher) (K.keys source.now) setting.now (node_view node.now) in
        OnOk result (table.new ≡ table.old ++ made ∷ []) }
    ensures trail { Hashes H.digest_of trail.old trail.new (labels_of_node (K.keys source.now) setting.now (node_view node.now)) result }
{
    let made = node_keys(alloc, trail, source, setting, node)?;
    table.push(made)?;
    Ok(())
}

/// The keys of each node, in order. What it takes to have them is hashed.
#[tactic(auto, using(bm_hash::proofs::HashesLemmas::hashed_none))]
pub(crate) fn key_table<H: Hash32 + Drop, K: KeySource>(
    alloc: Global,
    trail: &mut Trail<H>,
    source: &K,
    setting: &Setting,
    nodes: &[Node],
) -> Result<Seq<Seq<[u8; 33]>>, TrailError>
    requires clear { evidence_of (H.digest_of trail.old.hasher) trail.old.messages ≡ None }
    ensures keys { let hash = H.digest_of trail.old.hasher in
        IfOk result (λ table. table ≡ map (λ node. keys_of_node hash (K.keys source.now) setting.now (node_view node)) nodes.now) }
    ensures trail { Hashes H.digest_of trail.old trail.new
        (flat_map (λ node. labels_of_node (K.keys source.now) setting.now (node_view node)) nodes.now) result }
{
    let mut table = Seq::new(alloc);
    for node in nodes {
        put_keys(alloc, trail, source, setting, &mut table, node)?;
    }
    Ok(table)
}
