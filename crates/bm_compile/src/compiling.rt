//! A checked contract compiled.

ghost use Rattle.std.specs.Prelude.{◌≡◌, ℕ, [], ◌++◌, map, true, None, IfOk, is_some};
ghost use Rattle.std.specs.List.{flat_map, list_all};
ghost use Rattle.spec_data.specs.Lists.{look_up};
ghost use Rattle.spec_terms.specs.Precondition.{deposits};
ghost use Rattle.bm_hash.specs.Messages.{evidence_of};
ghost use Rattle.bm_hash.specs.Trails.{Hashes};
ghost use Rattle.spec_compiler.specs.Keyed.Hashed.{compiled_strings, unsigned_strings, key_strings};
ghost use Rattle.spec_compiler.specs.Keyed.Instance.{position_script};
ghost use Rattle.spec_compiler.specs.Keyed.Statements.{AreKeys};
ghost use Rattle.spec_compiler.specs.Keyed.Keys.{by_plan};
ghost use Rattle.spec_compiler.specs.Keyed.Transactions.{prepared, initial_unsigned as initial};
ghost use Rattle.spec_compiler.specs.Keyed.Compilation.{path_transactions, scripts as scripts_of};
ghost use Rattle.spec_compiler.specs.Hashed as plan;
ghost use Rattle.spec_nodes.specs.Nodes.{nodes_of};
ghost use Rattle.theory_nodes.specs.Keyed.Walk.{script_of};
ghost use Rattle.bm_compile.specs.Keyed.Detailed.{detailed, details, kept_of};
ghost use Rattle.bm_compile.specs.Keyed.Numbered as keyed;
ghost use Rattle.bm_compile.specs.Limits.{MeetNoLimit};
ghost use Rattle.bm_compile.specs.Numbered.{numbered, instance_with};
ghost use Rattle.bm_compile.specs.Passes.{has_short_reveals, keys_of_node, listed_script, root_with};

use crate::compiled::Compiled;
use crate::detailed::{Detailed, Details, Kept};
use crate::labelling::key_table;
use crate::preparing::detail;
use crate::scripting::script_table;
use crate::setting::Setting;
use crate::sourcing::{KeyPlan, KeySource};
use crate::tables::{branches_keys, position_scripts};
use crate::unsigned::{initial_unsigned, root_value};
use crate::walking::prepare_nodes;
use bm_arena::Arena;
use bm_hash::{Hash32, Trail, TrailError};
use bm_syntax::{Name, Path};
use bm_wellformed::Checked;
use spec_bitcoin::OutPoint;
use spec_compiler::Prepared;
use spec_data::{Bytes, OutOfMemory, Seq};
use std::alloc::Global;
use theory_nodes::any_keys::{nodes_give_paths, nodes_give_scripts, nodes_give_transactions};
use theory_nodes::{Waiting, few_nodes};
use theory_script::any_keys::{no_limit_is_met, paths_in_order};

// The keys and the script of each node. What it takes to have the branches' keys is hashed, and then the scripts.
fn node_scripts<H: Hash32 + Drop, K: KeySource>(
    alloc: Global,
    trail: &mut Trail<H>,
    source: &K,
    setting: &Setting,
    arena: &Arena,
) -> Result<(Seq<Seq<[u8; 33]>>, Seq<Bytes>), TrailError>
    requires clear { evidence_of (H.digest_of trail.old.hasher) trail.old.messages ≡ None }
    requires root { arena.now ≡ nodes_of setting.now.advert.root }
    requires few { list_all has_short_reveals arena.now ≡ true }
    ensures keys { let hash = H.digest_of trail.old.hasher in
        IfOk result (λ made. made.0 ≡ map (keys_of_node hash (K.keys source.now) setting.now) (nodes_of setting.now.advert.root)) }
    ensures scripts { let hash = H.digest_of trail.old.hasher in
        IfOk result (λ made. (n : ℕ) → listed_script made.1 n ≡ script_of hash (K.keys source.now) setting.now (nodes_of setting.now.advert.root) n) }
    ensures trail { let hash = H.digest_of trail.old.hasher in
        let labels = flat_map (λ p. key_strings (K.keys source.now) setting.now p.0) (path_transactions hash (K.keys source.now) setting.now) in
        Hashes H.digest_of trail.old trail.new (labels ++ map (λ p. p.1) (scripts_of hash (K.keys source.now) setting.now)) result }
{
    nodes_give_paths();
    nodes_give_scripts();
    let nodes = arena.nodes();
    let keys = key_table(alloc, trail, source, setting, nodes)?;
    let scripts = script_table(alloc, trail, source, setting, nodes, keys.as_slice())?;
    Ok((keys, scripts))
}

// The initial transaction, ready to be signed. Its strings are hashed.
#[tactic(auto, using(bm_hash::proofs::HashesLemmas::stops_early))]
fn prepare_initial<H: Hash32 + Drop, K: KeySource>(
    alloc: Global,
    trail: &mut Trail<H>,
    source: &K,
    setting: &Setting,
    scripts: &[Bytes],
) -> Result<Detailed, TrailError>
    requires clear { evidence_of (H.digest_of trail.old.hasher) trail.old.messages ≡ None }
    requires root { let script = position_script (H.digest_of trail.old.hasher) (K.keys source.now) setting.now [] setting.now.advert.root in
        listed_script scripts.now 0 ≡ script }
    ensures detailed { let hash = H.digest_of trail.old.hasher in
        IfOk result (λ d. d ≡ detailed hash (initial hash (K.keys source.now) setting.now)) }
    ensures trail { let hash = H.digest_of trail.old.hasher in
        Hashes H.digest_of trail.old trail.new (unsigned_strings hash (initial hash (K.keys source.now) setting.now)) result }
{
    let pending = initial_unsigned(alloc, &*trail, source, setting, scripts)?;
    detail(alloc, trail, pending)
}

// The root, which waits from the initial transaction of this txid on.
fn root_waiting(setting: &Setting, txid: [u8; 32]) -> Waiting
    ensures { result ≡ root_with setting.now txid }
{
    Waiting {
        outpoint: OutPoint { txid, vout: 0 },
        choice: 0,
        value: root_value(setting),
    }
}

// What is kept of the transactions of the paths, from the initial one on. Their strings are hashed.
fn prepare_paths<H: Hash32 + Drop, K: KeySource, M: Kept + Drop>(
    alloc: Global,
    trail: &mut Trail<H>,
    source: &K,
    setting: &Setting,
    scripts: &[Bytes],
    arena: &Arena,
    init: &Prepared,
) -> Result<Seq<(Path, M)>, TrailError>
    requires clear { evidence_of (H.digest_of trail.old.hasher) trail.old.messages ≡ None }
    requires root { arena.now ≡ nodes_of setting.now.advert.root }
    requires scripts { let hash = H.digest_of trail.old.hasher in
        (n : ℕ) → listed_script scripts.now n ≡ script_of hash (K.keys source.now) setting.now (nodes_of setting.now.advert.root) n }
    requires initial { let hash = H.digest_of trail.old.hasher in init.now ≡ prepared hash (initial hash (K.keys source.now) setting.now) }
    ensures made { let hash = H.digest_of trail.old.hasher in
        IfOk result (λ made. made ≡ map (kept_of M.kept hash) (path_transactions hash (K.keys source.now) setting.now)) }
    ensures trail { let hash = H.digest_of trail.old.hasher in
        let strings = flat_map (λ p. unsigned_strings hash p.1) (path_transactions hash (K.keys source.now) setting.now) in
        Hashes H.digest_of trail.old trail.new strings result }
{
    setting.is_seen_to();
    few_nodes();
    nodes_give_transactions();
    let root = root_waiting(setting, init.txid);
    prepare_nodes(alloc, trail, source, setting, scripts, arena.nodes(), root)
}

// The initial transaction, and what is kept of the others. Their strings are hashed.
fn prepare_all<H: Hash32 + Drop, K: KeySource, M: Kept + Drop>(
    alloc: Global,
    trail: &mut Trail<H>,
    source: &K,
    setting: &Setting,
    scripts: &[Bytes],
    arena: &Arena,
) -> Result<(Detailed, Seq<(Path, M)>), TrailError>
    requires clear { evidence_of (H.digest_of trail.old.hasher) trail.old.messages ≡ None }
    requires root { arena.now ≡ nodes_of setting.now.advert.root }
    requires scripts { let hash = H.digest_of trail.old.hasher in
        (n : ℕ) → listed_script scripts.now n ≡ script_of hash (K.keys source.now) setting.now (nodes_of setting.now.advert.root) n }
    ensures init { let hash = H.digest_of trail.old.hasher in
        IfOk result (λ made. made.0 ≡ detailed hash (initial hash (K.keys source.now) setting.now)) }
    ensures paths { let hash = H.digest_of trail.old.hasher in
        IfOk result (λ made. made.1 ≡ map (kept_of M.kept hash) (path_transactions hash (K.keys source.now) setting.now)) }
    ensures trail { let hash = H.digest_of trail.old.hasher in
        let paths = flat_map (λ p. unsigned_strings hash p.1) (path_transactions hash (K.keys source.now) setting.now) in
        Hashes H.digest_of trail.old trail.new (unsigned_strings hash (initial hash (K.keys source.now) setting.now) ++ paths) result }
{
    nodes_give_scripts();
    let init = prepare_initial(alloc, trail, source, setting, scripts)?;
    let paths = prepare_paths(
        alloc,
        trail,
        source,
        setting,
        scripts,
        arena,
        &init.prepared,
    )?;
    Ok((init, paths))
}

// What a contract is compiled to: the transactions, of which the initial one is whole, the script of each position, and the keys of each
// node.
type Made<M> = (
    Detailed,
    Seq<(Path, M)>,
    Seq<(Path, Bytes)>,
    Seq<Seq<[u8; 33]>>,
);

// All transactions and scripts, and the keys of each node. The strings of the keys, of the scripts and of the transactions are hashed.
fn make_all<H: Hash32 + Drop, K: KeySource, M: Kept + Drop>(
    alloc: Global,
    trail: &mut Trail<H>,
    source: &K,
    setting: &Setting,
    arena: &Arena,
) -> Result<Made<M>, TrailError>
    requires clear { evidence_of (H.digest_of trail.old.hasher) trail.old.messages ≡ None }
    requires root { arena.now ≡ nodes_of setting.now.advert.root }
    requires few { list_all has_short_reveals arena.now ≡ true }
    ensures init { let hash = H.digest_of trail.old.hasher in
        IfOk result (λ made. made.0 ≡ detailed hash (initial hash (K.keys source.now) setting.now)) }
    ensures paths { let hash = H.digest_of trail.old.hasher in
        IfOk result (λ made. made.1 ≡ map (kept_of M.kept hash) (path_transactions hash (K.keys source.now) setting.now)) }
    ensures scripts { let hash = H.digest_of trail.old.hasher in
        IfOk result (λ made. made.2 ≡ scripts_of hash (K.keys source.now) setting.now) }
    ensures keys { let hash = H.digest_of trail.old.hasher in
        IfOk result (λ made. made.3 ≡ map (keys_of_node hash (K.keys source.now) setting.now) (nodes_of setting.now.advert.root)) }
    ensures trail { let hash = H.digest_of trail.old.hasher in
        Hashes H.digest_of trail.old trail.new (compiled_strings hash (K.keys source.now) setting.now) result }
{
    nodes_give_scripts();
    let keyed = node_scripts(alloc, trail, source, setting, arena)?;
    let (keys, scripts) = keyed;
    let made = prepare_all(alloc, trail, source, setting, scripts.as_slice(), arena)?;
    let listed = position_scripts(alloc, arena.nodes(), scripts.as_slice())?;
    let (init, paths) = made;
    Ok((init, paths, listed, keys))
}

// The whole, of what was made.
fn gather<H: Hash32, K: KeySource>(
    alloc: Global,
    trail: &Trail<H>,
    source: &K,
    setting: &Setting,
    arena: Arena,
    made: Made<Prepared>,
) -> Result<Compiled, OutOfMemory>
    requires root { arena ≡ nodes_of setting.now.advert.root }
    requires init { let hash = H.digest_of trail.now.hasher in made.0 ≡ detailed hash (initial hash (K.keys source.now) setting.now) }
    requires paths { let hash = H.digest_of trail.now.hasher in
        made.1 ≡ map (λ p. (p.0, prepared hash p.1)) (path_transactions hash (K.keys source.now) setting.now) }
    requires scripts { let hash = H.digest_of trail.now.hasher in made.2 ≡ scripts_of hash (K.keys source.now) setting.now }
    requires keys { let hash = H.digest_of trail.now.hasher in
        made.3 ≡ map (keys_of_node hash (K.keys source.now) setting.now) (nodes_of setting.now.advert.root) }
    ensures { IfOk result (λ c. c ≡ keyed.numbered (H.digest_of trail.now.hasher) (K.keys source.now) setting.now) }
{
    nodes_give_scripts();
    nodes_give_paths();
    paths_in_order();
    let (init, paths, scripts, table) = made;
    let keys = branches_keys(alloc, arena.nodes(), table)?;
    Compiled::of(alloc, arena, init.into_prepared(), paths, scripts, keys)
}

// The contract of these nodes.
#[tactic(auto, using(bm_hash::proofs::HashesLemmas::stops_late))]
fn compile_nodes<H: Hash32 + Drop, K: KeySource>(
    alloc: Global,
    trail: &mut Trail<H>,
    source: &K,
    setting: &Setting,
    arena: Arena,
) -> Result<Compiled, TrailError>
    requires clear { evidence_of (H.digest_of trail.old.hasher) trail.old.messages ≡ None }
    requires root { arena ≡ nodes_of setting.now.advert.root }
    requires few { list_all has_short_reveals arena ≡ true }
    ensures compiled { let hash = H.digest_of trail.old.hasher in
        IfOk result (λ c. c ≡ keyed.numbered hash (K.keys source.now) setting.now) }
    ensures trail { let hash = H.digest_of trail.old.hasher in
        Hashes H.digest_of trail.old trail.new (compiled_strings hash (K.keys source.now) setting.now) result }
{
    let made = make_all(alloc, trail, source, setting, &arena)?;
    let compiled = gather(alloc, trail, source, setting, arena, made)?;
    Ok(compiled)
}

// What a checked contract of this number is compiled with, where each of its deposits is bound.
fn setting_of<'a>(
    contract: u32,
    checked: &'a Checked,
    bound: &'a [(Name, OutPoint)],
    hashes: &'a [(Name, [u8; 32])],
) -> Setting<'a>
    requires bound { list_all (λ d. is_some (look_up d.0 bound.now)) (deposits checked.now.pre) ≡ true }
    ensures { result ≡ instance_with contract checked.now bound.now hashes.now }
{
    Setting::of(contract, checked.advert(), checked.parties(), bound, hashes)
}

/// The transactions of a checked contract with what each does and spends, and its scripts, by the keys that `source` gives. It is
/// otherwise as `compile_with`, and hashes the same strings.
#[tactic(auto, using(bm_hash::proofs::HashesLemmas::stopping))]
pub fn compile_details<H: Hash32 + Drop, K: KeySource>(
    alloc: Global,
    trail: &mut Trail<H>,
    source: &K,
    contract: u32,
    checked: &Checked,
    bound: &[(Name, OutPoint)],
    hashes: &[(Name, [u8; 32])],
) -> Result<Details, TrailError>
    requires bound { list_all (λ d. is_some (look_up d.0 bound.now)) (deposits checked.now.pre) ≡ true }
    ensures details { let s = instance_with contract checked.now bound.now hashes.now in
        IfOk result (λ d. d ≡ details (H.digest_of trail.old.hasher) (K.keys source.now) s) }
    ensures trail { let s = instance_with contract checked.now bound.now hashes.now in
        Hashes H.digest_of trail.old trail.new (compiled_strings (H.digest_of trail.old.hasher) (K.keys source.now) s) result }
{
    few_nodes();
    if trail.has_collided() {
        return Err(TrailError::Collided);
    }
    let advert = checked.advert();
    let setting = setting_of(contract, checked, bound, hashes);
    let arena = Arena::of(alloc, &advert.root)?;
    let made = make_all(alloc, trail, source, &setting, &arena)?;
    let (init, paths, scripts, _) = made;
    Ok(Details {
        init,
        paths,
        scripts,
    })
}

/// The transactions, digests and scripts that a checked contract is compiled to, with its numbered nodes, by the keys that `source`
/// gives. The contract has this number; its deposits lie at these outpoints, and these are the committed digests of its secrets.
/// What is hashed are the strings of the keys by path and participant, the scripts by position, and the strings of the initial
/// transaction and of each path's, in the order of the text. No limit of scripts is met where
/// keys have 33 bytes, since the check keeps them. Nor does a sum exceed its type, since no balance is more than all money:
/// `Memory` is answered only where memory has run out.
#[tactic(auto, using(bm_hash::proofs::HashesLemmas::stopping))]
pub fn compile_with<H: Hash32 + Drop, K: KeySource>(
    alloc: Global,
    trail: &mut Trail<H>,
    source: &K,
    contract: u32,
    checked: &Checked,
    bound: &[(Name, OutPoint)],
    hashes: &[(Name, [u8; 32])],
) -> Result<Compiled, TrailError>
    requires bound { list_all (λ d. is_some (look_up d.0 bound.now)) (deposits checked.now.pre) ≡ true }
    ensures compiled { let s = instance_with contract checked.now bound.now hashes.now in
        IfOk result (λ c. c ≡ keyed.numbered (H.digest_of trail.old.hasher) (K.keys source.now) s) }
    ensures trail { let s = instance_with contract checked.now bound.now hashes.now in
        Hashes H.digest_of trail.old trail.new (compiled_strings (H.digest_of trail.old.hasher) (K.keys source.now) s) result }
    ensures limits { let s = instance_with contract checked.now bound.now hashes.now in
        let hash = H.digest_of trail.old.hasher in
        AreKeys hash (K.keys source.now) → IfOk result (λ c. MeetNoLimit hash (K.keys source.now) s) }
{
    no_limit_is_met();
    few_nodes();
    if trail.has_collided() {
        return Err(TrailError::Collided);
    }
    let advert = checked.advert();
    let setting = setting_of(contract, checked, bound, hashes);
    let arena = Arena::of(alloc, &advert.root)?;
    compile_nodes(alloc, trail, source, &setting, arena)
}

/// A checked contract compiled by the key plan, as it is in a run: the text of each label is hashed to have its key.
pub fn compile<H: Hash32 + Drop>(
    alloc: Global,
    trail: &mut Trail<H>,
    contract: u32,
    checked: &Checked,
    bound: &[(Name, OutPoint)],
    hashes: &[(Name, [u8; 32])],
) -> Result<Compiled, TrailError>
    requires bound { list_all (λ d. is_some (look_up d.0 bound.now)) (deposits checked.now.pre) ≡ true }
    ensures compiled { let s = instance_with contract checked.now bound.now hashes.now in
        IfOk result (λ c. c ≡ numbered (H.digest_of trail.old.hasher) s) }
    ensures trail { let s = instance_with contract checked.now bound.now hashes.now in
        Hashes H.digest_of trail.old trail.new (plan.compiled_strings (H.digest_of trail.old.hasher) s) result }
    ensures limits { let s = instance_with contract checked.now bound.now hashes.now in
        IfOk result (λ c. MeetNoLimit (H.digest_of trail.old.hasher) by_plan s) }
{
    compile_with(alloc, trail, &KeyPlan, contract, checked, bound, hashes)
}
