//! Secrets that honest parties post.

ghost use Rattle.std.specs.Prelude.{◌≡◌, ◌∷◌, [], ℕ, List, Some, None, slice_get, IfOk, IfErr};
ghost use Rattle.spec_data.specs.Lists.{is_among, first_reason};
ghost use Rattle.spec_terms.specs.Precondition.{secrets_of};
ghost use Rattle.bm_hash.specs.Messages.{evidence_of};
ghost use Rattle.bm_hash.specs.Trails.{StopsAlong};
ghost use Rattle.spec_run.specs.Setup.{pre_of, held_among, bytes_or_none};
ghost use Rattle.spec_run.specs.World.{World};
ghost use Rattle.spec_run.specs.Pending.{posting};
ghost use Rattle.spec_run.specs.Revealing.{reveal_row, reveal_pending};
ghost use Rattle.bm_world_board.specs.Prepares.{setup_of, world_of, Prepares};

use crate::posting::pending_posting;
use bm_exchange::held_secret;
use bm_hash::{Hash32, Trail, TrailError};
use bm_world_board::{Board, PendingChange};
use spec_data::{Bytes, Name, OutOfMemory};
use spec_run::{HeldSecret, Reason};
use spec_terms::Pre;
use std::alloc::Global;

// Whether it is a secret of the party in this precondition.
fn is_secret_of(pre: &[Pre], party: &Name, secret: &Name) -> bool
    ensures { result ≡ is_among secret.now (secrets_of party.now pre.now) }
{
    for entry in pre {
        if let Pre::Secret { party: owner, name } = entry {
            if *owner == *party {
                if *name == *secret {
                    return true;
                }
            }
        }
    }
    false
}

// Whether it is a secret of the party in the contract.
fn has_secret(board: &Board, contract: u32, party: &Name, secret: &Name) -> bool
    ensures { result ≡ is_among secret.now (secrets_of party.now (pre_of (slice_get board.now.contracts contract))) }
{
    match board.contract(contract) {
        Some(checked) => is_secret_of(checked.advert().pre.as_slice(), party, secret),
        None => false,
    }
}

// The bytes of the party's secret, none where it isn't held.
fn own_bytes(
    alloc: Global,
    secrets: &[HeldSecret],
    party: &Name,
    name: &Name,
) -> Result<Bytes, OutOfMemory>
    ensures { IfOk result (λ b. b ≡ bytes_or_none (held_among party.now name.now secrets.now)) }
{
    match held_secret(secrets, party, name) {
        Some(bytes) => Ok(Bytes::from_slice(alloc, bytes)?),
        None => Ok(Bytes::of(Vec::new(alloc))),
    }
}

// Whether the party's secret is posted, or the empty string, where it isn't held.
fn is_posted(board: &Board, party: &Name, secret: &Name) -> bool
    ensures { result ≡ is_among (bytes_or_none (held_among party.now secret.now board.now.header.secrets)) board.now.exchange.posted }
{
    match held_secret(board.header.secrets.as_slice(), party, secret) {
        Some(bytes) => board.exchange.posted(bytes),
        None => board.exchange.posted(&[]),
    }
}

// Why it is refused, if it is.
fn reveal_refusal(board: &Board, contract: u32, party: &Name, secret: &Name) -> Option<Reason>
    ensures { (hash : List ℕ → List ℕ) (messages : List (List ℕ)) → result ≡ first_reason (reveal_row (setup_of hash board.now) (world_of board.now messages) contract party.now secret.now) }
{
    if board.contract(contract).is_none() {
        return Some(Reason::NoContract);
    }
    if !board.is_honest(party) {
        return Some(Reason::NotHonest);
    }
    if !has_secret(board, contract, party, secret) {
        return Some(Reason::NoSecret(*secret));
    }
    if !board.exchange.committed(contract, party) {
        return Some(Reason::NotCommitted);
    }
    if !board.has_begun(contract) {
        return Some(Reason::NotBegun);
    }
    if is_posted(board, party, secret) {
        return Some(Reason::AlreadyRevealed);
    }
    None
}

// The pending effect of an event that posts the party's own secret.
#[tactic(auto, using(bm_hash::proofs::HashesLemmas::stops_early))]
fn pending_own<H: Hash32 + Drop>(
    alloc: Global,
    trail: &mut Trail<H>,
    secrets: &[HeldSecret],
    party: &Name,
    secret: &Name,
) -> Result<PendingChange, TrailError>
    requires clear { evidence_of (H.digest_of trail.old.hasher) trail.old.messages ≡ None }
    ensures hasher { trail.new.hasher ≡ trail.old.hasher }
    ensures ok { IfOk result (λ d. (w : World) → Prepares (H.digest_of trail.old.hasher) w trail.old.messages trail.new.messages (posting w (bytes_or_none (held_among party.now secret.now secrets.now)) (Some (party.now, secret.now))) d) }
    ensures err { IfErr result (StopsAlong H.digest_of trail.old trail.new (bytes_or_none (held_among party.now secret.now secrets.now) ∷ [])) }
{
    let bytes = own_bytes(alloc, secrets, party, secret)?;
    let pending_change = pending_posting(alloc, trail, bytes.as_slice(), Some((*party, *secret)))?;
    Ok(pending_change)
}

/// The pending effect of `reveal`.
pub fn pending_reveal<H: Hash32 + Drop>(
    alloc: Global,
    trail: &mut Trail<H>,
    board: &Board,
    contract: u32,
    party: &Name,
    secret: &Name,
) -> Result<PendingChange, TrailError>
    requires clear { evidence_of (H.digest_of trail.old.hasher) trail.old.messages ≡ None }
    ensures hasher { trail.new.hasher ≡ trail.old.hasher }
    ensures ok { IfOk result (Prepares (H.digest_of trail.old.hasher) (world_of board.now trail.old.messages) trail.old.messages trail.new.messages (reveal_pending (setup_of (H.digest_of trail.old.hasher) board.now) (world_of board.now trail.old.messages) contract party.now secret.now)) }
    ensures err { IfErr result (StopsAlong H.digest_of trail.old trail.new ((reveal_pending (setup_of (H.digest_of trail.old.hasher) board.now) (world_of board.now trail.old.messages) contract party.now secret.now).hashes)) }
{
    if let Some(reason) = reveal_refusal(board, contract, party, secret) {
        return Ok(PendingChange::refused(alloc, reason));
    }
    let pending_change = pending_own(alloc, trail, board.header.secrets.as_slice(), party, secret)?;
    Ok(pending_change)
}
