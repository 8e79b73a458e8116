//! Initial transactions: what a party signs of its deposits, an honest one only once the contract is endorsed.

ghost use Rattle.std.specs.Prelude.{◌≡◌, ◌++◌, ◌∷◌, [], IfOk, OnOk, if◌then◌else◌};
ghost use Rattle.std.specs.Str.{bytes_eq};
ghost use Rattle.spec_data.specs.Lists.{first_reason};
ghost use Rattle.spec_terms.specs.Precondition.{persistent, owners_of};
ghost use Rattle.spec_run.specs.Signing as spec;
ghost use Rattle.bm_world_board.specs.Playable.{IsPlayable};
ghost use Rattle.bm_world_board.specs.Prepares.{setup_of, world_of, Prepares, Signs};
ghost use Rattle.bm_world_sign.specs.Instances.{AllCompiled, instance_on};
ghost use Rattle.bm_world_sign.specs.Starting as starting;

use crate::booking::pending_pairs;
use crate::known::{compiled_contract, refusal};
use bm_hash::{Hash32, Trail};
use bm_honest::{Gate, Pair, deposit_key, may};
use bm_wellformed::Checked;
use bm_world_board::{Board, PendingChange};
use spec_data::{Boxed, Name, OutOfMemory};
use spec_run::Reason;
use spec_terms::Pre;
use std::alloc::Global;

// A gate that is shut as a reason.
fn gate_reason(alloc: Global, gate: Gate) -> Result<Option<Reason>, OutOfMemory>
    ensures { IfOk result (λ reason. reason ≡ starting.gate_reason gate) }
{
    match gate {
        Gate::Yes => Ok(None),
        Gate::No { path, party } => {
            let path = Boxed::new(alloc, path)?;
            Ok(Some(Reason::NotEndorsed(path, Boxed::new(alloc, party)?)))
        }
    }
}

// Why an honest party doesn't sign yet, if it doesn't: the first endorsement that is missing.
fn missing<H: Hash32 + Drop>(
    alloc: Global,
    trail: &Trail<H>,
    board: &Board,
    contract: u32,
) -> Result<Option<Reason>, OutOfMemory>
    requires { AllCompiled (H.digest_of trail.now.hasher) board.now trail.now.messages }
    ensures { let hash = H.digest_of trail.now.hasher in
        let messages = trail.now.messages in
        IfOk result (λ reason. reason ≡ starting.missed_reason
        (spec.missing_need (setup_of hash board.now) (world_of board.now messages) (instance_on hash board.now messages contract))) }
{
    let Some((checked, compiled)) = compiled_contract(board, contract) else {
        return Ok(None);
    };
    let gate = may(
        alloc,
        trail.hasher(),
        checked,
        contract,
        compiled,
        &board.book,
    )?;
    let first = gate_reason(alloc, gate)?;
    Ok(first)
}

// Why it is refused, if it is.
fn init_refusal<H: Hash32 + Drop>(
    alloc: Global,
    trail: &Trail<H>,
    board: &Board,
    contract: u32,
    party: &Name,
) -> Result<Option<Reason>, OutOfMemory>
    requires { AllCompiled (H.digest_of trail.now.hasher) board.now trail.now.messages }
    ensures { let hash = H.digest_of trail.now.hasher in
        IfOk result (λ reason. reason
        ≡ first_reason (spec.init_row (setup_of hash board.now) (world_of board.now trail.now.messages) contract party.now)) }
{
    if let Some(reason) = refusal(board, contract, party) {
        return Ok(Some(reason));
    }
    if !board.is_honest(party) {
        return Ok(None);
    }
    let reason = missing(alloc, trail, board, contract)?;
    Ok(reason)
}

// The owners of the deposits that the initial transaction spends, in order.
fn persistent_owners(alloc: Global, checked: &Checked) -> Result<Vec<Name>, OutOfMemory>
    ensures { IfOk result (λ owners. owners.items ≡ owners_of (persistent checked.now.pre)) }
{
    let owners = owners_among(alloc, checked.advert().pre.as_slice())?;
    Ok(owners)
}

fn owners_among(alloc: Global, entries: &[Pre]) -> Result<Vec<Name>, OutOfMemory>
    ensures { IfOk result (λ owners. owners.items ≡ owners_of (persistent entries.now)) }
{
    let mut owners = Vec::new(alloc);
    for entry in entries {
        if let Pre::Persistent { party, .. } = entry {
            owners.push(*party)?;
        }
    }
    Ok(owners)
}

// The pair of a deposit, if its owner is the party.
fn put_deposit(
    pairs: &mut Vec<Pair>,
    key: &[u8; 33],
    party: &Name,
    owner: &Name,
    digest: &[u8; 32],
) -> Result<(), OutOfMemory>
    ensures { OnOk result (pairs.new.items ≡ pairs.old.items
        ++ starting.pairs_by_key key.now party.now (owner.now ∷ []) (digest.now ∷ [])) }
{
    if *owner == *party {
        pairs.push((*key, *digest))?;
    }
    Ok(())
}

// The pairs of those of these owners' deposits that are the party's, with this key of it and the digests of their inputs.
fn pairs_by_key(
    alloc: Global,
    key: &[u8; 33],
    party: &Name,
    owners: &[Name],
    digests: &[[u8; 32]],
) -> Result<Vec<Pair>, OutOfMemory>
    ensures { IfOk result (λ pairs. pairs.items ≡ starting.pairs_by_key key.now party.now owners.now digests.now) }
{
    let mut pairs = Vec::new(alloc);
    let mut rest = digests;
    for owner in owners {
        let Some((digest, others)) = rest.split_first() else {
            return Ok(pairs);
        };
        put_deposit(&mut pairs, key, party, owner, digest)?;
        rest = others;
    }
    Ok(pairs)
}

// What the party signs of the initial transaction, nothing where the contract isn't compiled.
fn pairs_to_start<H: Hash32 + Drop>(
    alloc: Global,
    trail: &Trail<H>,
    board: &Board,
    contract: u32,
    party: &Name,
) -> Result<Vec<Pair>, OutOfMemory>
    requires { AllCompiled (H.digest_of trail.now.hasher) board.now trail.now.messages }
    ensures { let hash = H.digest_of trail.now.hasher in
        IfOk result (λ pairs. pairs.items
        ≡ spec.initial_pairs (setup_of hash board.now) party.now (instance_on hash board.now trail.now.messages contract)) }
{
    let Some((checked, compiled)) = compiled_contract(board, contract) else {
        return Ok(Vec::new(alloc));
    };
    let owners = persistent_owners(alloc, checked)?;
    let key = deposit_key(alloc, trail.hasher(), party)?;
    let digests = compiled.init().digests.as_slice();
    let pairs = pairs_by_key(alloc, &key, party, &owners, digests)?;
    Ok(pairs)
}

/// The pending effect of `init`, whose pairs are then in the book; it hashes nothing.
pub fn pending_init<H: Hash32 + Drop>(
    alloc: Global,
    trail: &Trail<H>,
    board: &mut Board,
    contract: u32,
    party: &Name,
) -> Result<PendingChange, OutOfMemory>
    requires playable { IsPlayable (setup_of (H.digest_of trail.now.hasher) board.old) board.old trail.now.messages }
    ensures board { Signs board.old board.new }
    ensures ok { let hash = H.digest_of trail.now.hasher in
        let messages = trail.now.messages in
        IfOk result (Prepares hash (world_of board.new messages) messages messages
        (spec.init_pending (setup_of hash board.old) (world_of board.old messages) contract party.now)) }
{
    let refusal = init_refusal(alloc, trail, board, contract, party)?;
    if let Some(reason) = refusal {
        return Ok(PendingChange::refused(alloc, reason));
    }
    let pairs = pairs_to_start(alloc, trail, board, contract, party)?;
    let pending_change = pending_pairs(alloc, board, &pairs)?;
    Ok(pending_change)
}
