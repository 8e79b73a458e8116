//! Why a commitment is refused before any string is hashed.

ghost use Rattle.std.specs.Prelude.{◌≡◌, ◌==◌, ℕ, List, None, length, slice_get, if◌then◌else◌};
ghost use Rattle.spec_data.specs.Lists.{is_among, first_reason};
ghost use Rattle.spec_terms.specs.Precondition.{names_of, secrets_of};
ghost use Rattle.spec_run.specs.Setup.{pre_of};
ghost use Rattle.spec_run.specs.Advertising as told;
ghost use Rattle.spec_run.specs.Committing as spec;
ghost use Rattle.bm_world_board.specs.Prepares.{setup_of, world_of};

use crate::digests::are_rearranged;
use crate::secrets::{badly_long, not_held};
use bm_world_board::Board;
use spec_data::Name;
use spec_run::Reason;

// Whether an honest party names no digest, and another one for each of its secrets.
fn names_fit(board: &Board, party: &Name, digests: &[(Name, [u8; 32])], required: &[Name]) -> bool
    ensures { let rearranged = told.are_rearranged (names_of digests.now) required.now in
        result ≡ (if is_among party.now board.now.header.honest then length digests.now == 0 else rearranged) }
{
    if board.is_honest(party) {
        digests.is_empty()
    } else {
        are_rearranged(digests, required)
    }
}

// The first of an honest party's secrets that isn't held.
fn missing_secret(board: &Board, party: &Name, required: &[Name]) -> Option<Name>
    ensures { (hash : List ℕ → List ℕ) → let s = setup_of hash board.now in
        result ≡ (if is_among party.now board.now.header.honest then spec.not_held s party.now required.now else None) }
{
    if board.is_honest(party) {
        not_held(board, party, required)
    } else {
        None
    }
}

// The first of an honest party's secrets that hasn't the size of one.
fn bad_secret(board: &Board, party: &Name, required: &[Name]) -> Option<Name>
    ensures { (hash : List ℕ → List ℕ) → let s = setup_of hash board.now in
        result ≡ (if is_among party.now board.now.header.honest then spec.badly_long s party.now required.now else None) }
{
    if board.is_honest(party) {
        badly_long(board, party, required)
    } else {
        None
    }
}

/// Why it is refused, if it is, where these are the names of the party's secrets.
pub(crate) fn commit_refusal(
    board: &Board,
    contract: u32,
    party: &Name,
    digests: &[(Name, [u8; 32])],
    required: &[Name],
) -> Option<Reason>
    requires { required.now ≡ secrets_of party.now (pre_of (slice_get board.now.contracts contract)) }
    ensures { (hash : List ℕ → List ℕ) (messages : List (List ℕ)) → let s = setup_of hash board.now in
        result ≡ first_reason (spec.commit_row s (world_of board.now messages) contract party.now digests.now) }
{
    if board.contract(contract).is_none() {
        return Some(Reason::NoContract);
    }
    if board.exchange.bindings(contract).is_none() {
        return Some(Reason::NotAdvertised);
    }
    if !board.takes_part(contract, party) {
        return Some(Reason::NotParticipant);
    }
    if board.exchange.committed(contract, party) {
        return Some(Reason::AlreadyCommitted);
    }
    if !names_fit(board, party, digests, required) {
        return Some(Reason::WrongNames);
    }
    if let Some(name) = missing_secret(board, party, required) {
        return Some(Reason::NoSecret(name));
    }
    if let Some(name) = bad_secret(board, party, required) {
        return Some(Reason::BadSecretLength(name));
    }
    None
}
