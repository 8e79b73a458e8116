//! The transactions of a contract, in one pass over its nodes.

ghost use Rattle.std.specs.Prelude.{◌≡◌, ◌<◌, ◌≤◌, ◌+◌, ◌^◌, ◌++◌, ◌∷◌, [], length, map, true, None, IfOk, OnOk, reverse};
ghost use Rattle.std.specs.List.{flat_map, list_all};
ghost use Rattle.bm_hash.specs.Messages.{evidence_of};
ghost use Rattle.bm_hash.specs.Trails.{Hashes};
ghost use Rattle.spec_terms.specs.Precondition.{volatile, value_of_puts};
ghost use Rattle.spec_compiler.specs.Keyed.Hashed.{unsigned_strings};
ghost use Rattle.theory_nodes.specs.Keyed.Walk as spec;
ghost use Rattle.bm_arena.specs.NodeView.{node_view, deed_view};
ghost use Rattle.bm_compile.specs.Keyed.Detailed.{detailed, kept_of};
ghost use Rattle.bm_compile.specs.Passes.{listed_script, ready_strings};
ghost use Rattle.bm_compile.specs.Seen.{is_bound, deed_parts, has_bound_puts, has_few_parts, is_payable};

use crate::detailed::{Detailed, Kept};
use crate::preparing::detail;
use crate::setting::Setting;
use crate::sourcing::KeySource;
use crate::stacking::{push_copies, push_waits};
use crate::unsigned::branch_unsigned;
use bm_arena::{Core, Node};
use bm_hash::{Hash32, Trail, TrailError};
use bm_syntax::Path;
use spec_data::{Bytes, OutOfMemory, Seq};
use std::alloc::Global;
use theory_nodes::Waiting;

// A transaction with its path, put to the others.
fn put_made<M: Kept + Drop>(
    alloc: Global,
    made: &mut Seq<(Path, M)>,
    path: &Path,
    kept: M,
) -> Result<(), OutOfMemory>
    ensures { OnOk result (made.new ≡ made.old ++ (path.now, kept) ∷ []) }
{
    made.push((path.copy(alloc)?, kept))
}

// The transaction of a branch of a choice that waits, ready to be signed. Its strings are hashed.
#[tactic(auto, using(bm_hash::proofs::HashesLemmas::stops_early))]
fn prepare_branch<H: Hash32 + Drop, K: KeySource>(
    alloc: Global,
    trail: &mut Trail<H>,
    source: &K,
    setting: &Setting,
    scripts: &[Bytes],
    waiting: &Waiting,
    lock: u32,
    core: &Core,
) -> Result<Detailed, TrailError>
    requires clear { evidence_of (H.digest_of trail.old.hasher) trail.old.messages ≡ None }
    requires sum { let puts = spec.deed_puts (deed_view core.now) in
        waiting.now.value + value_of_puts (volatile setting.now.advert.pre) puts < 2 ^ 64 }
    requires bound { list_all (is_bound setting.now.bound) (spec.deed_puts (deed_view core.now)) ≡ true }
    ensures detailed { let hash = H.digest_of trail.old.hasher in
        let made = spec.node_unsigned hash (K.keys source.now) setting.now (listed_script scripts.now) waiting.now lock (deed_view core.now) in
        IfOk result (λ d. d ≡ detailed hash made) }
    ensures trail { let hash = H.digest_of trail.old.hasher in
        let made = spec.node_unsigned hash (K.keys source.now) setting.now (listed_script scripts.now) waiting.now lock (deed_view core.now) in
        Hashes H.digest_of trail.old trail.new (unsigned_strings hash made) result }
{
    let pending = branch_unsigned(
        alloc, &*trail, source, setting, scripts, waiting, lock, core,
    )?;
    detail(alloc, trail, pending)
}

// What a branch of a choice that waits makes: what is kept of its transaction, and the choices that wait for it.
#[tactic(auto, using(bm_hash::proofs::HashesLemmas::stops_late))]
fn put_branch<H: Hash32 + Drop, K: KeySource, M: Kept + Drop>(
    alloc: Global,
    trail: &mut Trail<H>,
    source: &K,
    setting: &Setting,
    scripts: &[Bytes],
    made: &mut Seq<(Path, M)>,
    stack: &mut Vec<Waiting>,
    waiting: &Waiting,
    path: &Path,
    lock: u32,
    core: &Core,
) -> Result<(), TrailError>
    requires clear { evidence_of (H.digest_of trail.old.hasher) trail.old.messages ≡ None }
    requires sum { let puts = spec.deed_puts (deed_view core.now) in
        waiting.now.value + value_of_puts (volatile setting.now.advert.pre) puts < 2 ^ 64 }
    requires bound { list_all (is_bound setting.now.bound) (spec.deed_puts (deed_view core.now)) ≡ true }
    requires parts { length (deed_parts (deed_view core.now)) ≤ 1024 }
    ensures stack { let hash = H.digest_of trail.old.hasher in
        let one = spec.node_unsigned hash (K.keys source.now) setting.now (listed_script scripts.now) waiting.now lock (deed_view core.now) in
        OnOk result (reverse stack.new.items
        ≡ spec.deed_waits hash setting.now one waiting.now.value (deed_view core.now) ++ reverse stack.old.items) }
    ensures made { let hash = H.digest_of trail.old.hasher in
        let one = spec.node_unsigned hash (K.keys source.now) setting.now (listed_script scripts.now) waiting.now lock (deed_view core.now) in
        OnOk result (made.new ≡ made.old ++ (path.now, M.kept (detailed hash one)) ∷ []) }
    ensures trail { let hash = H.digest_of trail.old.hasher in
        let one = spec.node_unsigned hash (K.keys source.now) setting.now (listed_script scripts.now) waiting.now lock (deed_view core.now) in
        Hashes H.digest_of trail.old trail.new (unsigned_strings hash one) result }
{
    let detailed = prepare_branch(alloc, trail, source, setting, scripts, waiting, lock, core)?;
    push_waits(setting, stack, detailed.prepared.txid, waiting.value, core)?;
    put_made(alloc, made, path, M::keep(detailed))?;
    Ok(())
}

// What a node makes: a choice that waits then waits once for each of its branches.
#[tactic(auto, using(bm_hash::proofs::HashesLemmas::hashed_none, bm_hash::proofs::HashesLemmas::stops_early))]
fn put_node<H: Hash32 + Drop, K: KeySource, M: Kept + Drop>(
    alloc: Global,
    trail: &mut Trail<H>,
    source: &K,
    setting: &Setting,
    scripts: &[Bytes],
    made: &mut Seq<(Path, M)>,
    stack: &mut Vec<Waiting>,
    node: &Node,
) -> Result<(), TrailError>
    requires clear { evidence_of (H.digest_of trail.old.hasher) trail.old.messages ≡ None }
    requires payable { let hash = H.digest_of trail.old.hasher in
        let more = spec.made_by hash (K.keys source.now) setting.now (listed_script scripts.now) (node_view node.now) (reverse stack.old.items) in
        list_all is_payable more ≡ true }
    requires bound { has_bound_puts setting.now.bound (node_view node.now) ≡ true }
    requires parts { has_few_parts (node_view node.now) ≡ true }
    ensures stack { let hash = H.digest_of trail.old.hasher in
        OnOk result (reverse stack.new.items
        ≡ spec.next_stack hash (K.keys source.now) setting.now (listed_script scripts.now) (node_view node.now) (reverse stack.old.items)) }
    ensures made { let hash = H.digest_of trail.old.hasher in
        let more = spec.made_by hash (K.keys source.now) setting.now (listed_script scripts.now) (node_view node.now) (reverse stack.old.items) in
        OnOk result (made.new ≡ made.old ++ map (kept_of M.kept hash) more) }
    ensures trail { let hash = H.digest_of trail.old.hasher in
        let more = spec.made_by hash (K.keys source.now) setting.now (listed_script scripts.now) (node_view node.now) (reverse stack.old.items) in
        Hashes H.digest_of trail.old trail.new (flat_map (ready_strings hash) more) result }
{
    let Some(waiting) = stack.pop() else {
        return Ok(());
    };
    match node {
        Node::Choice { branches, .. } => {
            push_copies(stack, waiting, branches.len())?;
            Ok(())
        }
        Node::Branch {
            path,
            lock,
            core,
            ..
        } => put_branch(
            alloc, trail, source, setting, scripts, made, stack, &waiting, path, *lock, core,
        ),
    }
}

/// What is kept of the transactions that these nodes make, by path, where the first one waits for `root`. It hashes the strings of each.
#[tactic(auto, using(bm_hash::proofs::HashesLemmas::stops_early))]
pub(crate) fn prepare_nodes<H: Hash32 + Drop, K: KeySource, M: Kept + Drop>(
    alloc: Global,
    trail: &mut Trail<H>,
    source: &K,
    setting: &Setting,
    scripts: &[Bytes],
    nodes: &[Node],
    root: Waiting,
) -> Result<Seq<(Path, M)>, TrailError>
    requires clear { evidence_of (H.digest_of trail.old.hasher) trail.old.messages ≡ None }
    requires payable { let hash = H.digest_of trail.old.hasher in
        let all = spec.walk hash (K.keys source.now) setting.now (listed_script scripts.now) (map node_view nodes.now) (root ∷ []) in
        list_all is_payable all ≡ true }
    requires bound { list_all (has_bound_puts setting.now.bound) (map node_view nodes.now) ≡ true }
    requires parts { list_all has_few_parts (map node_view nodes.now) ≡ true }
    ensures made { let hash = H.digest_of trail.old.hasher in
        let all = spec.walk hash (K.keys source.now) setting.now (listed_script scripts.now) (map node_view nodes.now) (root ∷ []) in
        IfOk result (λ made. made ≡ map (kept_of M.kept hash) all) }
    ensures trail { let hash = H.digest_of trail.old.hasher in
        let all = spec.walk hash (K.keys source.now) setting.now (listed_script scripts.now) (map node_view nodes.now) (root ∷ []) in
        Hashes H.digest_of trail.old trail.new (flat_map (ready_strings hash) all) result }
{
    let mut made = Seq::new(alloc);
    let mut stack = Vec::new(alloc);
    stack.push(root)?;
    for node in nodes {
        put_node(
            alloc, trail, source, setting, scripts, &mut made, &mut stack, node,
        )?;
    }
    Ok(made)
}
