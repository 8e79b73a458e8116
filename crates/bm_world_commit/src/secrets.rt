//! A party's secrets: their names in a contract, and those of honest parties, which stand in the header.

ghost use Rattle.std.specs.Prelude.{◌≡◌, ◌++◌, ◌∷◌, [], ℕ, List, None, map, slice_get};
ghost use Rattle.std.specs.Prelude.{if◌then◌else◌, IfOk, OnOk};
ghost use Rattle.spec_data.specs.Lists.{is_among};
ghost use Rattle.spec_terms.specs.Precondition.{secrets_of};
ghost use Rattle.bm_hash.specs.Messages.{evidence_of};
ghost use Rattle.bm_hash.specs.Trails.{Hashes};
ghost use Rattle.spec_run.specs.Setup.{pre_of, held_among, bytes_or_none};
ghost use Rattle.spec_run.specs.Committing as spec;
ghost use Rattle.bm_world_board.specs.Prepares.{setup_of};
ghost use Rattle.bm_world_commit.specs.Committed.{own_string, own_digest};

use bm_exchange::{held_secret, is_secret_long};
use bm_hash::{Hash32, Trail, TrailError};
use bm_world_board::Board;
use spec_data::{Name, OutOfMemory, Seq};
use spec_run::HeldSecret;
use spec_terms::Pre;
use std::alloc::Global;

// The names of the party's secrets in a precondition.
fn names_in(alloc: Global, entries: &[Pre], party: &Name) -> Result<Seq<Name>, OutOfMemory>
    ensures { IfOk result (λ names. names ≡ secrets_of party.now entries.now) }
{
    let mut names = Seq::new(alloc);
    for entry in entries {
        if let Pre::Secret { party: owner, name } = entry {
            if *owner == *party {
                names.push(*name)?;
            }
        }
    }
    Ok(names)
}

/// The names of the party's secrets in the contract, in the precondition's order.
pub(crate) fn secret_names(
    alloc: Global,
    board: &Board,
    contract: u32,
    party: &Name,
) -> Result<Seq<Name>, OutOfMemory>
    ensures { IfOk result (λ names. names ≡ secrets_of party.now (pre_of (slice_get board.now.contracts contract))) }
{
    match board.contract(contract) {
        Some(checked) => names_in(alloc, checked.advert().pre.as_slice(), party),
        None => Ok(Seq::new(alloc)),
    }
}

/// The first of the names whose secret doesn't stand in the header.
pub(crate) fn not_held(board: &Board, party: &Name, required: &[Name]) -> Option<Name>
    ensures { (hash : List ℕ → List ℕ) → result ≡ spec.not_held (setup_of hash board.now) party.now required.now }
{
    for name in required {
        if held_secret(board.header.secrets.as_slice(), party, name).is_none() {
            return Some(*name);
        }
    }
    None
}

// Whether the party's secret has the size of one.
fn is_held_long(secrets: &[HeldSecret], party: &Name, name: &Name) -> bool
    ensures { result ≡ spec.is_secret_long (bytes_or_none (held_among party.now name.now secrets.now)) }
{
    match held_secret(secrets, party, name) {
        Some(bytes) => is_secret_long(bytes),
        None => is_secret_long(&[]),
    }
}

/// The first of the names whose secret hasn't the size of one.
pub(crate) fn badly_long(board: &Board, party: &Name, required: &[Name]) -> Option<Name>
    ensures { (hash : List ℕ → List ℕ) → result ≡ spec.badly_long (setup_of hash board.now) party.now required.now }
{
    for name in required {
        if !is_held_long(board.header.secrets.as_slice(), party, name) {
            return Some(*name);
        }
    }
    None
}

// The digest of the party's secret, which is hashed.
fn hash_held<H: Hash32 + Drop>(
    trail: &mut Trail<H>,
    secrets: &[HeldSecret],
    party: &Name,
    name: &Name,
) -> Result<[u8; 32], TrailError>
    ensures digest { IfOk result (λ d. d ≡ H.digest_of trail.old.hasher (own_string secrets.now party.now name.now)) }
    ensures trail { Hashes H.digest_of trail.old trail.new (own_string secrets.now party.now name.now ∷ []) result }
{
    match held_secret(secrets, party, name) {
        Some(bytes) => trail.hash(bytes),
        None => trail.hash(&[]),
    }
}

// The digest of the party's secret, put to the others.
#[tactic(auto, using(bm_hash::proofs::HashesLemmas::stops_late))]
fn put_own<H: Hash32 + Drop>(
    trail: &mut Trail<H>,
    digests: &mut Seq<(Name, [u8; 32])>,
    secrets: &[HeldSecret],
    party: &Name,
    name: &Name,
) -> Result<(), TrailError>
    ensures digests { let own = own_digest (H.digest_of trail.old.hasher) secrets.now party.now name.now in
        OnOk result (digests.new ≡ digests.old ++ own ∷ []) }
    ensures trail { Hashes H.digest_of trail.old trail.new (own_string secrets.now party.now name.now ∷ []) result }
{
    let digest = hash_held(trail, secrets, party, name)?;
    digests.push((*name, digest))?;
    Ok(())
}

// The digests of the party's secrets of these names. They are hashed.
#[tactic(auto, using(bm_hash::proofs::HashesLemmas::hashed_none))]
fn own_digests<H: Hash32 + Drop>(
    alloc: Global,
    trail: &mut Trail<H>,
    secrets: &[HeldSecret],
    party: &Name,
    names: &[Name],
) -> Result<Seq<(Name, [u8; 32])>, TrailError>
    requires clear { evidence_of (H.digest_of trail.old.hasher) trail.old.messages ≡ None }
    ensures digests { IfOk result (λ ds. ds ≡ map (own_digest (H.digest_of trail.old.hasher) secrets.now party.now) names.now) }
    ensures trail { Hashes H.digest_of trail.old trail.new (map (own_string secrets.now party.now) names.now) result }
{
    let mut digests = Seq::new(alloc);
    for name in names {
        put_own(trail, &mut digests, secrets, party, name)?;
    }
    Ok(digests)
}

fn copied(alloc: Global, digests: &[(Name, [u8; 32])]) -> Result<Seq<(Name, [u8; 32])>, OutOfMemory>
    ensures { IfOk result (λ ds. ds ≡ digests.now) }
{
    Ok(Seq::of(Vec::from_slice(alloc, digests)?))
}

/// The digests that the party commits, where these are the names of its secrets: an honest one's own, which are hashed,
/// another's those that it names.
#[tactic(auto, using(bm_hash::proofs::HashesLemmas::hashed_none, bm_hash::proofs::HashesLemmas::stops_early))]
pub(crate) fn committed_digests<H: Hash32 + Drop>(
    alloc: Global,
    trail: &mut Trail<H>,
    board: &Board,
    party: &Name,
    digests: &[(Name, [u8; 32])],
    names: &[Name],
) -> Result<Seq<(Name, [u8; 32])>, TrailError>
    requires clear { evidence_of (H.digest_of trail.old.hasher) trail.old.messages ≡ None }
    ensures digests { let s = setup_of (H.digest_of trail.old.hasher) board.now in
        let honest = is_among party.now board.now.header.honest in
        IfOk result (λ ds. ds ≡ (if honest then spec.own_digests s party.now names.now else digests.now)) }
    ensures trail { let s = setup_of (H.digest_of trail.old.hasher) board.now in
        let honest = is_among party.now board.now.header.honest in
        Hashes H.digest_of trail.old trail.new (if honest then spec.own_strings s party.now names.now else []) result }
{
    if board.is_honest(party) {
        let own = own_digests(alloc, trail, board.header.secrets.as_slice(), party, names)?;
        return Ok(own);
    }
    let named = copied(alloc, digests)?;
    Ok(named)
}
