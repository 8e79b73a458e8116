//! Signatures that are in the book by hand.

ghost use Rattle.std.specs.Prelude.{◌≡◌, ◌++◌, ◌∷◌, [], ℕ, List, Some, filter, not, option_copied, option_map, option_to_list, IfOk, OnOk};
ghost use Rattle.spec_terms.specs.Precondition.{persistent, owners_of};
ghost use Rattle.spec_run.specs.Compiled.{compiled_instance};
ghost use Rattle.spec_run.specs.Setup.{contract_at};
ghost use Rattle.spec_run.specs.Signing as run;
ghost use Rattle.spec_run.specs.World.{live_position_at};
ghost use Rattle.spec_next.specs.Hands as spec;
ghost use Rattle.bm_compile.specs.Numbered.{numbered};
ghost use Rattle.bm_world.specs.Playing.{setup_in};
ghost use Rattle.bm_world_sign.specs.Authorising.{first_pair};
ghost use Rattle.bm_world_sign.specs.Starting.{pairs_by_key};

use crate::endorsed::are_signed;
use bm_book::Book;
use bm_compile::Compiled;
use bm_hash::Hash32;
use bm_honest::{Pair, Prepared, branch_key, deposit_key};
use bm_wellformed::Checked;
use bm_world::World;
use bm_world_coins::HeldPosition;
use spec_data::{Name, OutOfMemory, Seq};
use spec_next::Requirement;
use spec_terms::{Path, Pre};
use std::alloc::Global;

// Whether there are such pairs, and the book has all of them.
fn are_in_book(book: &Book, pairs: &[Pair]) -> bool
    ensures { result ≡ spec.are_in_book book.now pairs.now }
{
    match pairs {
        [] => false,
        _ => are_signed(book, pairs),
    }
}

// ---- the initial transaction

fn owners_among(alloc: Global, entries: &[Pre]) -> Result<Vec<Name>, OutOfMemory>
    ensures { IfOk result (λ owners. owners.items ≡ owners_of (persistent entries.now)) }
{
    let mut owners = Vec::new(alloc);
    for entry in entries {
        if let Pre::Persistent { party, .. } = entry {
            owners.push(*party)?;
        }
    }
    Ok(owners)
}

// The owners of the deposits that the initial transaction spends, in order.
fn persistent_owners(alloc: Global, checked: &Checked) -> Result<Vec<Name>, OutOfMemory>
    ensures { IfOk result (λ owners. owners.items ≡ owners_of (persistent checked.now.pre)) }
{
    let owners = owners_among(alloc, checked.advert().pre.as_slice())?;
    Ok(owners)
}

// The pair of a deposit, if its owner is the party.
fn put_deposit(
    pairs: &mut Vec<Pair>,
    key: &[u8; 33],
    party: &Name,
    owner: &Name,
    digest: &[u8; 32],
) -> Result<(), OutOfMemory>
    ensures { OnOk result (pairs.new.items ≡ pairs.old.items
        ++ pairs_by_key key.now party.now (owner.now ∷ []) (digest.now ∷ [])) }
{
    if *owner == *party {
        pairs.push((*key, *digest))?;
    }
    Ok(())
}

// The pairs of those of these owners' deposits that are the party's, with this key of it and the digests of their inputs.
fn pairs_of(
    alloc: Global,
    key: &[u8; 33],
    party: &Name,
    owners: &[Name],
    digests: &[[u8; 32]],
) -> Result<Vec<Pair>, OutOfMemory>
    ensures { IfOk result (λ pairs. pairs.items ≡ pairs_by_key key.now party.now owners.now digests.now) }
{
    let mut pairs = Vec::new(alloc);
    let mut rest = digests;
    for owner in owners {
        let Some((digest, others)) = rest.split_first() else {
            return Ok(pairs);
        };
        put_deposit(&mut pairs, key, party, owner, digest)?;
        rest = others;
    }
    Ok(pairs)
}

// What the party signs of the initial transaction of this contract, which is compiled so.
fn pairs_to_start<H: Hash32 + Drop>(
    alloc: Global,
    world: &World<H>,
    contract: u32,
    checked: &Checked,
    compiled: &Compiled,
    party: &Name,
) -> Result<Vec<Pair>, OutOfMemory>
    requires checked { Some checked.now ≡ contract_at (setup_in H.digest_of world.now) contract }
    requires compiled { Some compiled.now ≡ option_map (numbered (setup_in H.digest_of world.now).hash)
        (compiled_instance (setup_in H.digest_of world.now) world.now.world contract) }
    ensures { let s = setup_in H.digest_of world.now in
        IfOk result (λ pairs. pairs.items ≡ run.initial_pairs s party.now (compiled_instance s world.now.world contract)) }
{
    let owners = persistent_owners(alloc, checked)?;
    let key = deposit_key(alloc, world.trail().hasher(), party)?;
    let digests = compiled.init().digests.as_slice();
    let pairs = pairs_of(alloc, &key, party, &owners, digests)?;
    Ok(pairs)
}

// Whether the book has all of that.
fn is_start_signed<H: Hash32 + Drop>(
    alloc: Global,
    world: &World<H>,
    contract: u32,
    checked: &Checked,
    compiled: &Compiled,
    party: &Name,
) -> Result<bool, OutOfMemory>
    requires checked { Some checked.now ≡ contract_at (setup_in H.digest_of world.now) contract }
    requires compiled { Some compiled.now ≡ option_map (numbered (setup_in H.digest_of world.now).hash)
        (compiled_instance (setup_in H.digest_of world.now) world.now.world contract) }
    ensures { let s = setup_in H.digest_of world.now in
        let w = world.now.world in
        IfOk result (λ all. all ≡ spec.are_in_book w.book (run.initial_pairs s party.now (compiled_instance s w contract))) }
{
    let pairs = pairs_to_start(alloc, world, contract, checked, compiled, party)?;
    Ok(are_in_book(world.book(), &pairs))
}

// The same of a contract by its number.
fn is_start_signed_with<H: Hash32 + Drop>(
    alloc: Global,
    world: &World<H>,
    contract: u32,
    compiled: &Compiled,
    party: &Name,
) -> Result<bool, OutOfMemory>
    requires { Some compiled.now ≡ option_map (numbered (setup_in H.digest_of world.now).hash)
        (compiled_instance (setup_in H.digest_of world.now) world.now.world contract) }
    ensures { let s = setup_in H.digest_of world.now in
        let w = world.now.world in
        IfOk result (λ all. all ≡ spec.are_in_book w.book (run.initial_pairs s party.now (compiled_instance s w contract))) }
{
    match world.board().contract(contract) {
        Some(checked) => is_start_signed(alloc, world, contract, checked, compiled, party),
        None => Ok(false),
    }
}

// Whether all that the party signs of the initial transaction is in the book, where the contract is compiled.
fn is_start_in_hand<H: Hash32 + Drop>(
    alloc: Global,
    world: &World<H>,
    contract: u32,
    party: &Name,
) -> Result<bool, OutOfMemory>
    ensures { let s = setup_in H.digest_of world.now in
        let w = world.now.world in
        IfOk result (λ all. all ≡ spec.are_in_book w.book (run.initial_pairs s party.now (compiled_instance s w contract))) }
{
    match world.compiled(contract) {
        Some(compiled) => is_start_signed_with(alloc, world, contract, compiled, party),
        None => Ok(false),
    }
}

// ---- branches

// The transaction of the branch at a path, where the contract is compiled.
fn transaction_at<'a, H: Hash32 + Drop>(
    world: &'a World<H>,
    contract: u32,
    path: &Path,
) -> Option<&'a Prepared>
    ensures { let s = setup_in H.digest_of world.now in
        option_map (λ p. p.now) result ≡ run.prepared_if_compiled s (compiled_instance s world.now.world contract) path.now }
{
    match world.compiled(contract) {
        Some(compiled) => compiled.transaction_at(path),
        None => None,
    }
}

// The pair of a key and the first of these digests, if there is one.
fn first_pair(key: [u8; 33], digests: &[[u8; 32]]) -> Option<Pair>
    ensures { option_to_list result ≡ first_pair key digests.now }
{
    let (digest, _) = digests.split_first()?;
    Some((key, *digest))
}

// The pair of the party's key of the branch at a path, nothing where the contract isn't compiled.
fn pair_at<H: Hash32 + Drop>(
    alloc: Global,
    world: &World<H>,
    party: &Name,
    contract: u32,
    path: &Path,
) -> Result<Option<Pair>, OutOfMemory>
    ensures { let s = setup_in H.digest_of world.now in
        IfOk result (λ pair. option_to_list pair ≡ run.branch_pair s party.now contract path.now
        (run.prepared_if_compiled s (compiled_instance s world.now.world contract) path.now)) }
{
    let Some(made) = transaction_at(world, contract, path) else {
        return Ok(None);
    };
    let key = branch_key(alloc, world.trail().hasher(), contract, path, party)?;
    Ok(first_pair(key, made.digests.as_slice()))
}

// What the output of this number holds, if it is live and a contract's.
fn held_at<H: Hash32 + Drop>(world: &World<H>, output: u32) -> Option<&HeldPosition>
    ensures { option_copied result ≡ live_position_at world.now.world output }
{
    world.board().coins.held_at(output)
}

// What the party signs to authorise the branch of this number of what the output holds.
fn pair_to_authorise<H: Hash32 + Drop>(
    alloc: Global,
    world: &World<H>,
    party: &Name,
    output: u32,
    branch: u32,
) -> Result<Option<Pair>, OutOfMemory>
    ensures { let s = setup_in H.digest_of world.now in
        let w = world.now.world in
        IfOk result (λ pair. option_to_list pair ≡ run.authorising_pairs s w party.now (live_position_at w output) branch) }
{
    let Some(held) = held_at(world, output) else {
        return Ok(None);
    };
    let path = held.path_of(alloc, branch)?;
    let pair = pair_at(alloc, world, party, held.contract(), &path)?;
    Ok(pair)
}

fn is_in_book(book: &Book, pair: &Option<Pair>) -> bool
    ensures { result ≡ spec.are_in_book book.now (option_to_list pair.now) }
{
    match pair {
        Some(pair) => are_in_book(book, &[*pair]),
        None => false,
    }
}

// Whether what the party signs to authorise the branch is in the book.
fn is_branch_in_hand<H: Hash32 + Drop>(
    alloc: Global,
    world: &World<H>,
    party: &Name,
    output: u32,
    branch: u32,
) -> Result<bool, OutOfMemory>
    ensures { let s = setup_in H.digest_of world.now in
        let w = world.now.world in
        IfOk result (λ all. all ≡ spec.are_in_book w.book (run.authorising_pairs s w party.now (live_position_at w output) branch)) }
{
    let pair = pair_to_authorise(alloc, world, party, output, branch)?;
    Ok(is_in_book(world.book(), &pair))
}

// ---- what is missing

// Whether a signature by hand gives it.
fn is_in_hand<H: Hash32 + Drop>(
    alloc: Global,
    world: &World<H>,
    requirement: &Requirement,
) -> Result<bool, OutOfMemory>
    ensures { IfOk result (λ all. all ≡ spec.is_in_hand (setup_in H.digest_of world.now) world.now.world requirement.now) }
{
    match requirement {
        Requirement::Start { party, contract } => is_start_in_hand(alloc, world, *contract, party),
        Requirement::Authorisation {
            party,
            output,
            branch,
        } => is_branch_in_hand(alloc, world, party, *output, *branch),
        _ => Ok(false),
    }
}

/// Adds those of these that no signature by hand gives.
#[tactic(auto, using(std::proofs::Common::append_assoc))]
pub(crate) fn put_outstanding<H: Hash32 + Drop>(
    alloc: Global,
    outstanding: &mut Seq<Requirement>,
    world: &World<H>,
    requirements: &[Requirement],
) -> Result<(), OutOfMemory>
    ensures { let s = setup_in H.digest_of world.now in
        OnOk result (outstanding.new
        ≡ outstanding.old ++ filter (λ x. not (spec.is_in_hand s world.now.world x)) requirements.now) }
{
    for requirement in requirements {
        let given = is_in_hand(alloc, world, requirement)?;
        if !given {
            outstanding.push(requirement.copy())?;
        }
    }
    Ok(())
}
