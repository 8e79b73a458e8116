//! Commitments of secrets.

ghost use Rattle.std.specs.Prelude.{◌≡◌, ℕ, List, None, IfOk, IfErr};
ghost use Rattle.spec_data.specs.Lists.{first_reason};
ghost use Rattle.bm_hash.specs.Messages.{evidence_of};
ghost use Rattle.bm_hash.specs.Trails.{StopsAlong};
ghost use Rattle.spec_run.specs.Committing.{secrets_at, commit_row, commit_pending};
ghost use Rattle.spec_run.specs.Committing as spec;
ghost use Rattle.bm_match.specs.Matches.{all_compiled};
ghost use Rattle.bm_world_board.specs.Prepares.{setup_of, world_of, Prepares};
ghost use Rattle.bm_world_commit.specs.Committed.{IsBoundAt, later_pending};
ghost use Rattle.bm_world_board.specs.Compiling.{placed};

use crate::compiling::compile_last;
use crate::digests::{arranged, repeated_digest};
use crate::refusals::commit_refusal;
use crate::secrets::{committed_digests, secret_names};
use bm_compile::Compiled;
use bm_hash::{Hash32, Trail, TrailError};
use bm_world_board::{Board, Change, PendingChange, Promising};
use spec_data::{Name, OutOfMemory};
use spec_run::Reason;
use std::alloc::Global;

// The pending effect once the digests are known, where it wasn't refused before.
#[tactic(auto, using(bm_hash::proofs::HashesLemmas::stops_early))]
fn pending_committed<H: Hash32 + Drop>(
    alloc: Global,
    trail: &mut Trail<H>,
    board: &Board,
    contract: u32,
    party: &Name,
    digests: &[(Name, [u8; 32])],
    committed: &[(Name, [u8; 32])],
    names: &[Name],
) -> Result<(PendingChange, Option<(u32, Compiled)>), TrailError>
    requires clear { evidence_of (H.digest_of trail.old.hasher) trail.old.messages ≡ None }
    requires bound { let s = setup_of (H.digest_of trail.old.hasher) board.now in
        (messages : List (List ℕ)) → IsBoundAt s (world_of board.now messages) contract }
    requires row { let s = setup_of (H.digest_of trail.old.hasher) board.now in
        (messages : List (List ℕ)) → first_reason (commit_row s (world_of board.now messages) contract party.now digests.now) ≡ None }
    requires names { names.now ≡ secrets_at (setup_of (H.digest_of trail.old.hasher) board.now) contract party.now }
    requires committed { let s = setup_of (H.digest_of trail.old.hasher) board.now in
        committed.now ≡ spec.committed_digests s contract party.now digests.now }
    ensures hasher { trail.new.hasher ≡ trail.old.hasher }
    ensures ok { (messages : List (List ℕ)) →
        let s = setup_of (H.digest_of trail.old.hasher) board.now in
        let w = world_of board.now messages in
        IfOk result (λ p. Prepares s.hash w trail.old.messages trail.new.messages (later_pending s w contract party.now digests.now) p.0) }
    ensures compiled { (messages : List (List ℕ)) →
        let s = setup_of (H.digest_of trail.old.hasher) board.now in
        let w = world_of board.now messages in
        board.now.compiled ≡ all_compiled s w
        → IfOk result (λ p. placed p.1 board.now.compiled ≡ all_compiled s (later_pending s w contract party.now digests.now).world) }
    ensures err { (messages : List (List ℕ)) →
        let s = setup_of (H.digest_of trail.old.hasher) board.now in
        let w = world_of board.now messages in
        IfErr result (StopsAlong H.digest_of trail.old trail.new ((later_pending s w contract party.now digests.now).hashes)) }
{
    if let Some(name) = repeated_digest(&board.exchange, committed) {
        return Ok((
            PendingChange::refused(alloc, Reason::HashRepeated(name)),
            None,
        ));
    }
    let promising = Promising {
        contract,
        party: *party,
        digests: arranged(alloc, names, committed)?,
    };
    let compiled = compile_last(alloc, trail, board, &promising)?;
    Ok((
        PendingChange::done(alloc, Change::Commit(promising)),
        compiled,
    ))
}

/// The pending effect of `commit`, and the contract that it compiles, where it is the last commitment to it. The board has what it is
/// compiled to only once it is placed there.
#[tactic(auto, using(bm_hash::proofs::HashesLemmas::stops_early))]
pub fn pending_commit<H: Hash32 + Drop>(
    alloc: Global,
    trail: &mut Trail<H>,
    board: &Board,
    contract: u32,
    party: &Name,
    digests: &[(Name, [u8; 32])],
) -> Result<(PendingChange, Option<(u32, Compiled)>), TrailError>
    requires clear { evidence_of (H.digest_of trail.old.hasher) trail.old.messages ≡ None }
    requires bound { IsBoundAt (setup_of (H.digest_of trail.old.hasher) board.now) (world_of board.now trail.old.messages) contract }
    requires compiled { let s = setup_of (H.digest_of trail.old.hasher) board.now in
        board.now.compiled ≡ all_compiled s (world_of board.now trail.old.messages) }
    ensures hasher { trail.new.hasher ≡ trail.old.hasher }
    ensures ok { let s = setup_of (H.digest_of trail.old.hasher) board.now in let w = world_of board.now trail.old.messages in
        IfOk result (λ p. Prepares s.hash w trail.old.messages trail.new.messages (commit_pending s w contract party.now digests.now) p.0) }
    ensures compiled { let s = setup_of (H.digest_of trail.old.hasher) board.now in let w = world_of board.now trail.old.messages in
        IfOk result (λ p. placed p.1 board.now.compiled ≡ all_compiled s (commit_pending s w contract party.now digests.now).world) }
    ensures err { let s = setup_of (H.digest_of trail.old.hasher) board.now in let w = world_of board.now trail.old.messages in
        IfErr result (StopsAlong H.digest_of trail.old trail.new ((commit_pending s w contract party.now digests.now).hashes)) }
{
    let names = secret_names(alloc, board, contract, party)?;
    if let Some(reason) = commit_refusal(board, contract, party, digests, names.as_slice()) {
        return Ok((PendingChange::refused(alloc, reason), None));
    }
    let committed = committed_digests(alloc, trail, board, party, digests, names.as_slice())?;
    let pending_change = pending_committed(
        alloc,
        trail,
        board,
        contract,
        party,
        digests,
        committed.as_slice(),
        names.as_slice(),
    )?;
    Ok(pending_change)
}
