//! What a party signs to endorse a contract.

ghost use Rattle.std.specs.Prelude.{◌≡◌, ◌++◌, ◌∷◌, [], map, IfOk, OnOk, true};
ghost use Rattle.std.specs.List.{list_all};
ghost use Rattle.spec_data.specs.Lists.{is_among};
ghost use Rattle.spec_terms.specs.Precondition.{names_of, volatile};
ghost use Rattle.spec_compiler.specs.Instance.{Instance};
ghost use Rattle.spec_compiler.specs.Endorsements.{needed};
ghost use Rattle.spec_nodes.specs.Nodes.{nodes_of};
ghost use Rattle.spec_run.specs.Signing.{pairs_of_party};
ghost use Rattle.bm_compile.specs.Numbered.{numbered};
ghost use Rattle.bm_arena.specs.NodeView.{node_view};
ghost use Rattle.bm_honest.specs.Seen.{AreSeen};
ghost use Rattle.bm_honest.specs.Pairs.{person_pairs, owner_pairs, pairs_for, pairs_at, pairs_of_paths};

use crate::branches::{first_nodes, next_nodes, seen_at};
use crate::keys::deposit_key;
use crate::needs::{is_asked, owner_of};
use bm_arena::{Arena, Node};
use bm_compile::Compiled;
use bm_hash::Hash32;
use bm_wellformed::Checked;
use spec_compiler::Prepared;
use spec_data::{Name, OutOfMemory, Seq};
use spec_terms::{Path, Pre};
use std::alloc::Global;

/// A key and the digest that it signs.
pub type Pair = ([u8; 33], [u8; 32]);

// The pair of a participant that is the party, by its key of the branch, unless that asks it.
fn put_person(
    pairs: &mut Vec<Pair>,
    asked: &[Name],
    digest: &[u8; 32],
    party: &Name,
    person: &Name,
    key: &[u8; 33],
) -> Result<(), OutOfMemory>
    ensures { OnOk result (pairs.new.items ≡ pairs.old.items
        ++ person_pairs asked.now digest.now party.now (person.now ∷ []) (key.now ∷ [])) }
{
    if *person == *party && !is_asked(asked, person) {
        pairs.push((*key, *digest))?;
    }
    Ok(())
}

// The pairs of the participants, who have these keys of the branch, that are the party, unless the branch asks it.
fn put_people(
    pairs: &mut Vec<Pair>,
    asked: &[Name],
    digest: &[u8; 32],
    party: &Name,
    people: &[Name],
    keys: &[[u8; 33]],
) -> Result<(), OutOfMemory>
    ensures { OnOk result (pairs.new.items ≡ pairs.old.items
        ++ person_pairs asked.now digest.now party.now people.now keys.now) }
{
    let mut rest = keys;
    for person in people {
        let Some((key, others)) = rest.split_first() else {
            return Ok(());
        };
        put_person(pairs, asked, digest, party, person, key)?;
        rest = others;
    }
    Ok(())
}

// The pair of the deposit of this name, if it is the party's.
fn put_owner<H: Hash32>(
    alloc: Global,
    hash: &H,
    pairs: &mut Vec<Pair>,
    pre: &[Pre],
    party: &Name,
    name: &Name,
    digest: &[u8; 32],
) -> Result<(), OutOfMemory>
    requires { is_among name.now (names_of (volatile pre.now)) ≡ true }
    ensures { OnOk result (pairs.new.items ≡ pairs.old.items
        ++ owner_pairs (H.digest_of hash.now) pre.now party.now (name.now ∷ []) (digest.now ∷ [])) }
{
    let owner = owner_of(pre, name);
    if owner == *party {
        let key = deposit_key(alloc, hash, &owner)?;
        pairs.push((key, *digest))?;
    }
    Ok(())
}

// The pairs of those of these deposits that are the party's.
fn put_owners<H: Hash32>(
    alloc: Global,
    hash: &H,
    pairs: &mut Vec<Pair>,
    pre: &[Pre],
    party: &Name,
    puts: &[Name],
    digests: &[[u8; 32]],
) -> Result<(), OutOfMemory>
    requires { list_all (λ name. is_among name (names_of (volatile pre.now))) puts.now ≡ true }
    ensures { OnOk result (pairs.new.items ≡ pairs.old.items
        ++ owner_pairs (H.digest_of hash.now) pre.now party.now puts.now digests.now) }
{
    let mut rest = digests;
    for put in puts {
        let Some((digest, others)) = rest.split_first() else {
            return Ok(());
        };
        put_owner(alloc, hash, pairs, pre, party, put, digest)?;
        rest = others;
    }
    Ok(())
}

// The pairs of the participants that are the party, and then those of its deposits.
fn put_both<H: Hash32>(
    alloc: Global,
    hash: &H,
    pairs: &mut Vec<Pair>,
    people: &[Name],
    keys: &[[u8; 33]],
    pre: &[Pre],
    party: &Name,
    asked: &[Name],
    puts: &[Name],
    digest: &[u8; 32],
    others: &[[u8; 32]],
) -> Result<(), OutOfMemory>
    requires { list_all (λ name. is_among name (names_of (volatile pre.now))) puts.now ≡ true }
    ensures { OnOk result (pairs.new.items ≡ pairs.old.items
        ++ (person_pairs asked.now digest.now party.now people.now keys.now
        ++ owner_pairs (H.digest_of hash.now) pre.now party.now puts.now others.now)) }
{
    put_people(pairs, asked, digest, party, people, keys)?;
    put_owners(alloc, hash, pairs, pre, party, puts, others)?;
    Ok(())
}

// What the party signs for a branch which has these keys of the participants, and asks and puts these, by the digests of its
// transaction's inputs.
fn put_branch<H: Hash32>(
    alloc: Global,
    hash: &H,
    pairs: &mut Vec<Pair>,
    checked: &Checked,
    keys: &[[u8; 33]],
    party: &Name,
    asked: &[Name],
    puts: &[Name],
    digests: &[[u8; 32]],
) -> Result<(), OutOfMemory>
    requires { list_all (λ name. is_among name (names_of (volatile checked.now.pre))) puts.now ≡ true }
    ensures { OnOk result (pairs.new.items ≡ pairs.old.items
        ++ pairs_for (H.digest_of hash.now) checked.now keys.now party.now asked.now puts.now digests.now) }
{
    let Some((digest, others)) = digests.split_first() else {
        return Ok(());
    };
    put_both(
        alloc,
        hash,
        pairs,
        checked.parties(),
        keys,
        &checked.advert().pre,
        party,
        asked,
        puts,
        digest,
        others,
    )
}

// What the party signs of the path of a branch, which has these keys of the participants.
fn put_path<H: Hash32>(
    alloc: Global,
    hash: &H,
    pairs: &mut Vec<Pair>,
    checked: &Checked,
    arena: &Arena,
    nodes: &[Node],
    keys: &[[u8; 33]],
    party: &Name,
    path: &Path,
    made: &Prepared,
) -> Result<(), OutOfMemory>
    requires arena { arena.now ≡ nodes_of checked.now.root }
    requires nodes { AreSeen checked.now.root (map node_view nodes.now) }
    ensures { OnOk result (pairs.new.items ≡ pairs.old.items
        ++ pairs_at (H.digest_of hash.now) checked.now keys.now party.now path.now made.now) }
{
    let Some((asked, puts)) = seen_at(checked, arena, nodes, path) else {
        return Ok(());
    };
    let digests = made.digests.as_slice();
    put_branch(
        alloc, hash, pairs, checked, keys, party, asked, puts, digests,
    )
}

// What the party signs of these paths, each with the participants' keys of it. The nodes of branches stand in the order of the paths,
// so that each is found beside its path.
fn pairs_by_paths<H: Hash32>(
    alloc: Global,
    hash: &H,
    checked: &Checked,
    arena: &Arena,
    party: &Name,
    paths: &[(Path, Prepared)],
    table: &[Seq<[u8; 33]>],
) -> Result<Vec<Pair>, OutOfMemory>
    requires { arena.now ≡ nodes_of checked.now.root }
    ensures { IfOk result (λ pairs. pairs.items
        ≡ pairs_of_paths (H.digest_of hash.now) checked.now party.now paths.now table.now) }
{
    let mut pairs = Vec::with_capacity(alloc, paths.len())?;
    let mut rest = table;
    let mut nodes = first_nodes(checked, arena);
    for (path, made) in paths {
        let Some((keys, others)) = rest.split_first() else {
            return Ok(pairs);
        };
        let keys = keys.as_slice();
        put_path(
            alloc, hash, &mut pairs, checked, arena, nodes, keys, party, path, made,
        )?;
        rest = others;
        nodes = next_nodes(checked, nodes);
    }
    Ok(pairs)
}

/// What a party signs to endorse a contract of this number, with its keys by this hash: of all that the contract needs, what
/// is the party's, in the same order. The contract is compiled to `compiled`, which has the participants' keys of each path, so that
/// none is hashed anew: the keys are the plan's where it was compiled by the plan.
pub fn endorsing_pairs<H: Hash32>(
    alloc: Global,
    hash: &H,
    checked: &Checked,
    contract: u32,
    compiled: &Compiled,
    party: &Name,
) -> Result<Vec<Pair>, OutOfMemory>
    requires { compiled.now.nodes ≡ nodes_of checked.now.root }
    ensures listed { IfOk result (λ pairs. pairs.items
        ≡ pairs_of_paths (H.digest_of hash.now) checked.now party.now compiled.now.paths compiled.now.keys) }
    ensures defined { (s : Instance) → compiled.now ≡ numbered (H.digest_of hash.now) s → s.contract ≡ contract → s.advert ≡ checked.now
        → IfOk result (λ pairs. pairs.items ≡ pairs_of_party party.now (needed (H.digest_of hash.now) s)) }
{
    let pairs = pairs_by_paths(
        alloc,
        hash,
        checked,
        compiled.arena(),
        party,
        compiled.paths(),
        compiled.keys(),
    )?;
    Ok(pairs)
}
