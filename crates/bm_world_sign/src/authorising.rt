//! Branches of active contracts that ask a party.

ghost use Rattle.std.specs.Prelude.{◌≡◌, ◌++◌, ◌∷◌, [], ℕ, List, IfOk, IfSome, option_map, option_to_list};
ghost use Rattle.spec_bitcoin.specs.Keys.{key_of};
ghost use Rattle.spec_compiler.specs.Instance.{branch_label};
ghost use Rattle.spec_data.specs.Lists.{first_reason};
ghost use Rattle.spec_run.specs.World.{live_position_at};
ghost use Rattle.spec_run.specs.Signing as spec;
ghost use Rattle.bm_world_board.specs.Playable.{IsPlayable};
ghost use Rattle.bm_world_board.specs.Prepares.{setup_of, world_of, Prepares, Signs};
ghost use Rattle.bm_world_sign.specs.Instances.{AllCompiled, instance_on};
ghost use Rattle.bm_world_sign.specs.Authorising.{first_pair};

use crate::booking::pending_pairs;
use crate::known::compiled_contract;
use bm_hash::{Hash32, Trail};
use bm_honest::{Pair, Prepared, branch_key, known_key};
use bm_syntax::asks;
use bm_world_board::{Board, PendingChange};
use spec_data::{Name, OutOfMemory};
use spec_run::Reason;
use spec_terms::Path;
use std::alloc::Global;

// Why it is refused, if it is.
fn authorise_refusal(board: &Board, party: &Name, output: u32, branch: u32) -> Option<Reason>
    ensures { (hash : List ℕ → List ℕ) (messages : List (List ℕ)) → result
        ≡ first_reason (spec.authorise_row (setup_of hash board.now) (world_of board.now messages) party.now output branch) }
{
    let Some(held) = board.coins.held_at(output) else {
        return Some(Reason::NotActive);
    };
    let Some(taken) = board.branch_held(held, branch) else {
        return Some(Reason::NoBranch);
    };
    if !asks(taken, party) {
        return Some(Reason::NotAsked);
    }
    None
}

// The transaction of the branch at a path, where the contract is compiled.
fn transaction_at<'a>(board: &'a Board, contract: u32, path: &Path) -> Option<&'a Prepared>
    ensures { (hash : List ℕ → List ℕ) (messages : List (List ℕ)) → AllCompiled hash board.now messages
        → option_map (λ p. p.now) result
        ≡ spec.prepared_if_compiled (setup_of hash board.now) (instance_on hash board.now messages contract) path.now }
{
    match board.compiled(contract) {
        Some(compiled) => compiled.transaction_at(path),
        None => None,
    }
}

// The party's key of the branch at a path, where what the contract is compiled to has it.
fn known_at(board: &Board, party: &Name, contract: u32, path: &Path) -> Option<[u8; 33]>
    ensures { (hash : List ℕ → List ℕ) (messages : List (List ℕ)) → AllCompiled hash board.now messages
        → IfSome result (λ key. key ≡ key_of hash (branch_label contract path.now party.now)) }
{
    let (checked, compiled) = compiled_contract(board, contract)?;
    known_key(checked, contract, compiled, party, path)
}

// The party's key of the branch at a path. It is worked out only where nothing has it.
fn key_at<H: Hash32 + Drop>(
    alloc: Global,
    trail: &Trail<H>,
    board: &Board,
    party: &Name,
    contract: u32,
    path: &Path,
) -> Result<[u8; 33], OutOfMemory>
    requires { AllCompiled (H.digest_of trail.now.hasher) board.now trail.now.messages }
    ensures { IfOk result (λ key. key ≡ key_of (H.digest_of trail.now.hasher) (branch_label contract path.now party.now)) }
{
    if let Some(key) = known_at(board, party, contract, path) {
        return Ok(key);
    }
    branch_key(alloc, trail.hasher(), contract, path, party)
}

// The pair of a key and the first of these digests, if there is one.
fn first_pair(key: [u8; 33], digests: &[[u8; 32]]) -> Option<Pair>
    ensures { option_to_list result ≡ first_pair key digests.now }
{
    let (digest, _) = digests.split_first()?;
    Some((key, *digest))
}

// The pair of the party's key of the branch at a path, nothing where the contract isn't compiled.
fn pair_at<H: Hash32 + Drop>(
    alloc: Global,
    trail: &Trail<H>,
    board: &Board,
    party: &Name,
    contract: u32,
    path: &Path,
) -> Result<Option<Pair>, OutOfMemory>
    requires { AllCompiled (H.digest_of trail.now.hasher) board.now trail.now.messages }
    ensures { let hash = H.digest_of trail.now.hasher in
        let s = setup_of hash board.now in
        IfOk result (λ pair. option_to_list pair ≡ spec.branch_pair s party.now contract path.now
        (spec.prepared_if_compiled s (instance_on hash board.now trail.now.messages contract) path.now)) }
{
    let Some(made) = transaction_at(board, contract, path) else {
        return Ok(None);
    };
    let key = key_at(alloc, trail, board, party, contract, path)?;
    Ok(first_pair(key, made.digests.as_slice()))
}

// What the party signs to authorise the branch of this number of what the output holds.
fn pair_to_authorise<H: Hash32 + Drop>(
    alloc: Global,
    trail: &Trail<H>,
    board: &Board,
    party: &Name,
    output: u32,
    branch: u32,
) -> Result<Option<Pair>, OutOfMemory>
    requires { AllCompiled (H.digest_of trail.now.hasher) board.now trail.now.messages }
    ensures { let hash = H.digest_of trail.now.hasher in
        let w = world_of board.now trail.now.messages in
        IfOk result (λ pair. option_to_list pair
        ≡ spec.authorising_pairs (setup_of hash board.now) w party.now (live_position_at w output) branch) }
{
    let Some(held) = board.coins.held_at(output) else {
        return Ok(None);
    };
    let path = held.path_of(alloc, branch)?;
    let pair = pair_at(alloc, trail, board, party, held.contract(), &path)?;
    Ok(pair)
}

/// The pending effect of `authorise`, whose pair is then in the book; it hashes nothing.
pub fn pending_authorise<H: Hash32 + Drop>(
    alloc: Global,
    trail: &Trail<H>,
    board: &mut Board,
    party: &Name,
    output: u32,
    branch: u32,
) -> Result<PendingChange, OutOfMemory>
    requires playable { IsPlayable (setup_of (H.digest_of trail.now.hasher) board.old) board.old trail.now.messages }
    ensures board { Signs board.old board.new }
    ensures ok { let hash = H.digest_of trail.now.hasher in
        let messages = trail.now.messages in
        IfOk result (Prepares hash (world_of board.new messages) messages messages
        (spec.authorise_pending (setup_of hash board.old) (world_of board.old messages) party.now output branch)) }
{
    if let Some(reason) = authorise_refusal(board, party, output, branch) {
        return Ok(PendingChange::refused(alloc, reason));
    }
    let pair = pair_to_authorise(alloc, trail, board, party, output, branch)?;
    let pending_change = pending_pairs(alloc, board, pair.as_slice())?;
    Ok(pending_change)
}
