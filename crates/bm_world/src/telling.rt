//! The pending effects of events that hand nothing to the ledger, in a world that a run led to. Each is made in a function of its own and
//! stands in a box: few pending effects fill what the largest of them need.

ghost use Rattle.std.specs.Prelude.{◌≡◌, IfOk, IfErr};
ghost use Rattle.bm_hash.specs.Trails.{StopsAlong};
ghost use Rattle.spec_run.specs.Event as run;
ghost use Rattle.spec_run.specs.declared.event.Event.TheVariants as events;
ghost use Rattle.bm_world_board.specs.Playable.{IsPlayable};
ghost use Rattle.bm_world_board.specs.Prepares.{setup_of, world_of, Prepares, Signs};
ghost use Rattle.bm_world.specs.Playing.{IsCompiledAfter};

use bm_compile::Compiled;
use bm_hash::{Hash32, Trail, TrailError};
use bm_world_board::{Board, PendingChange};
use bm_world_commit::pending_commit;
use bm_world_events::{
    pending_advertise, pending_mine, pending_post, pending_reveal, pending_sign,
};
use bm_world_sign::{pending_authorise, pending_endorse, pending_init};
use spec_bitcoin::Label;
use spec_data::{Boxed, Name, OutOfMemory};
use std::alloc::Global;

/// The pending effect of an advertisement.
#[tactic(auto, using(bm_hash::proofs::HashesLemmas::stops_early))]
pub(crate) fn pending_advertised<H: Hash32 + Drop>(
    alloc: Global,
    trail: &mut Trail<H>,
    board: &Board,
    contract: u32,
    bindings: &[(Name, u32)],
) -> Result<Boxed<PendingChange>, TrailError>
    requires playable { IsPlayable (setup_of (H.digest_of trail.old.hasher) board.now) board.now trail.old.messages }
    ensures hasher { trail.new.hasher ≡ trail.old.hasher }
    ensures ok { let s = setup_of (H.digest_of trail.old.hasher) board.now in let w = world_of board.now trail.old.messages in
        IfOk result (Prepares s.hash w trail.old.messages trail.new.messages (run.pending s w (events.Advertise contract bindings.now))) }
    ensures err { let s = setup_of (H.digest_of trail.old.hasher) board.now in let w = world_of board.now trail.old.messages in
        IfErr result (StopsAlong H.digest_of trail.old trail.new ((run.pending s w (events.Advertise contract bindings.now)).hashes)) }
{
    let pending_change = pending_advertise(alloc, board, contract, bindings)?;
    Ok(Boxed::new(alloc, pending_change)?)
}

/// The pending effect of an endorsement, whose pairs are then in the book.
#[tactic(auto, using(bm_hash::proofs::HashesLemmas::stops_early))]
pub(crate) fn pending_endorsed<H: Hash32 + Drop>(
    alloc: Global,
    trail: &mut Trail<H>,
    board: &mut Board,
    contract: u32,
    party: &Name,
) -> Result<Boxed<PendingChange>, TrailError>
    requires playable { IsPlayable (setup_of (H.digest_of trail.old.hasher) board.old) board.old trail.old.messages }
    ensures hasher { trail.new.hasher ≡ trail.old.hasher }
    ensures board { Signs board.old board.new }
    ensures ok { let s = setup_of (H.digest_of trail.old.hasher) board.old in let w = world_of board.old trail.old.messages in
        IfOk result (Prepares s.hash (world_of board.new trail.old.messages) trail.old.messages trail.new.messages (run.pending s w (events.Endorse contract party.now))) }
    ensures err { let s = setup_of (H.digest_of trail.old.hasher) board.old in let w = world_of board.old trail.old.messages in
        IfErr result (StopsAlong H.digest_of trail.old trail.new ((run.pending s w (events.Endorse contract party.now)).hashes)) }
{
    let pending_change = pending_endorse(alloc, trail, board, contract, party)?;
    Ok(Boxed::new(alloc, pending_change)?)
}

/// The pending effect of a party's signatures of an initial transaction, which are then in the book.
#[tactic(auto, using(bm_hash::proofs::HashesLemmas::stops_early))]
pub(crate) fn pending_allowed<H: Hash32 + Drop>(
    alloc: Global,
    trail: &mut Trail<H>,
    board: &mut Board,
    contract: u32,
    party: &Name,
) -> Result<Boxed<PendingChange>, TrailError>
    requires playable { IsPlayable (setup_of (H.digest_of trail.old.hasher) board.old) board.old trail.old.messages }
    ensures hasher { trail.new.hasher ≡ trail.old.hasher }
    ensures board { Signs board.old board.new }
    ensures ok { let s = setup_of (H.digest_of trail.old.hasher) board.old in let w = world_of board.old trail.old.messages in
        IfOk result (Prepares s.hash (world_of board.new trail.old.messages) trail.old.messages trail.new.messages (run.pending s w (events.Init contract party.now))) }
    ensures err { let s = setup_of (H.digest_of trail.old.hasher) board.old in let w = world_of board.old trail.old.messages in
        IfErr result (StopsAlong H.digest_of trail.old trail.new ((run.pending s w (events.Init contract party.now)).hashes)) }
{
    let pending_change = pending_init(alloc, trail, board, contract, party)?;
    Ok(Boxed::new(alloc, pending_change)?)
}

/// The pending effect of an authorisation, whose pair is then in the book.
#[tactic(auto, using(bm_hash::proofs::HashesLemmas::stops_early))]
pub(crate) fn pending_authorised<H: Hash32 + Drop>(
    alloc: Global,
    trail: &mut Trail<H>,
    board: &mut Board,
    party: &Name,
    output: u32,
    branch: u32,
) -> Result<Boxed<PendingChange>, TrailError>
    requires playable { IsPlayable (setup_of (H.digest_of trail.old.hasher) board.old) board.old trail.old.messages }
    ensures hasher { trail.new.hasher ≡ trail.old.hasher }
    ensures board { Signs board.old board.new }
    ensures ok { let s = setup_of (H.digest_of trail.old.hasher) board.old in let w = world_of board.old trail.old.messages in
        IfOk result (Prepares s.hash (world_of board.new trail.old.messages) trail.old.messages trail.new.messages (run.pending s w (events.Authorise party.now output branch))) }
    ensures err { let s = setup_of (H.digest_of trail.old.hasher) board.old in let w = world_of board.old trail.old.messages in
        IfErr result (StopsAlong H.digest_of trail.old trail.new ((run.pending s w (events.Authorise party.now output branch)).hashes)) }
{
    let pending_change = pending_authorise(alloc, trail, board, party, output, branch)?;
    Ok(Boxed::new(alloc, pending_change)?)
}

/// The pending effect of a secret that its owner reveals.
#[tactic(auto, using(bm_hash::proofs::HashesLemmas::stops_early))]
pub(crate) fn pending_revealed<H: Hash32 + Drop>(
    alloc: Global,
    trail: &mut Trail<H>,
    board: &Board,
    contract: u32,
    party: &Name,
    secret: &Name,
) -> Result<Boxed<PendingChange>, TrailError>
    requires playable { IsPlayable (setup_of (H.digest_of trail.old.hasher) board.now) board.now trail.old.messages }
    ensures hasher { trail.new.hasher ≡ trail.old.hasher }
    ensures ok { let s = setup_of (H.digest_of trail.old.hasher) board.now in let w = world_of board.now trail.old.messages in
        IfOk result (Prepares s.hash w trail.old.messages trail.new.messages (run.pending s w (events.Reveal contract party.now secret.now))) }
    ensures err { let s = setup_of (H.digest_of trail.old.hasher) board.now in let w = world_of board.now trail.old.messages in
        IfErr result (StopsAlong H.digest_of trail.old trail.new ((run.pending s w (events.Reveal contract party.now secret.now)).hashes)) }
{
    let pending_change = pending_reveal(alloc, trail, board, contract, party, secret)?;
    Ok(Boxed::new(alloc, pending_change)?)
}

/// The pending effect of a string that is posted.
#[tactic(auto, using(bm_hash::proofs::HashesLemmas::stops_early))]
pub(crate) fn pending_posted<H: Hash32 + Drop>(
    alloc: Global,
    trail: &mut Trail<H>,
    board: &Board,
    string: &[u8],
) -> Result<Boxed<PendingChange>, TrailError>
    requires playable { IsPlayable (setup_of (H.digest_of trail.old.hasher) board.now) board.now trail.old.messages }
    ensures hasher { trail.new.hasher ≡ trail.old.hasher }
    ensures ok { let s = setup_of (H.digest_of trail.old.hasher) board.now in let w = world_of board.now trail.old.messages in
        IfOk result (Prepares s.hash w trail.old.messages trail.new.messages (run.pending s w (events.Post string.now))) }
    ensures err { let s = setup_of (H.digest_of trail.old.hasher) board.now in let w = world_of board.now trail.old.messages in
        IfErr result (StopsAlong H.digest_of trail.old trail.new ((run.pending s w (events.Post string.now)).hashes)) }
{
    let pending_change = pending_post(alloc, trail, string)?;
    Ok(Boxed::new(alloc, pending_change)?)
}

/// The pending effect of a signature, whose pair is then in the book.
#[tactic(auto, using(bm_hash::proofs::HashesLemmas::stops_early))]
pub(crate) fn pending_signed<H: Hash32 + Drop>(
    alloc: Global,
    trail: &mut Trail<H>,
    board: &mut Board,
    party: &Name,
    label: &Label,
    digest: &[u8; 32],
) -> Result<Boxed<PendingChange>, TrailError>
    requires playable { IsPlayable (setup_of (H.digest_of trail.old.hasher) board.old) board.old trail.old.messages }
    ensures hasher { trail.new.hasher ≡ trail.old.hasher }
    ensures board { Signs board.old board.new }
    ensures ok { let s = setup_of (H.digest_of trail.old.hasher) board.old in let w = world_of board.old trail.old.messages in
        IfOk result (Prepares s.hash (world_of board.new trail.old.messages) trail.old.messages trail.new.messages (run.pending s w (events.Sign party.now label.now digest.now))) }
    ensures err { let s = setup_of (H.digest_of trail.old.hasher) board.old in let w = world_of board.old trail.old.messages in
        IfErr result (StopsAlong H.digest_of trail.old trail.new ((run.pending s w (events.Sign party.now label.now digest.now)).hashes)) }
{
    let pending_change = pending_sign(alloc, trail, board, party, label, digest)?;
    Ok(Boxed::new(alloc, pending_change)?)
}

/// The pending effect of blocks that come.
#[tactic(auto, using(bm_hash::proofs::HashesLemmas::stops_early))]
pub(crate) fn pending_mined<H: Hash32 + Drop>(
    alloc: Global,
    trail: &mut Trail<H>,
    board: &Board,
    blocks: u32,
) -> Result<Boxed<PendingChange>, TrailError>
    requires playable { IsPlayable (setup_of (H.digest_of trail.old.hasher) board.now) board.now trail.old.messages }
    ensures hasher { trail.new.hasher ≡ trail.old.hasher }
    ensures ok { let s = setup_of (H.digest_of trail.old.hasher) board.now in let w = world_of board.now trail.old.messages in
        IfOk result (Prepares s.hash w trail.old.messages trail.new.messages (run.pending s w (events.Mine blocks))) }
    ensures err { let s = setup_of (H.digest_of trail.old.hasher) board.now in let w = world_of board.now trail.old.messages in
        IfErr result (StopsAlong H.digest_of trail.old trail.new ((run.pending s w (events.Mine blocks)).hashes)) }
{
    let pending_change = pending_mine(alloc, board, blocks);
    Ok(Boxed::new(alloc, pending_change)?)
}

// What was prepared, and the contract that was compiled, if one was, each in a box.
fn boxed(
    alloc: Global,
    pending_change: PendingChange,
    entry: Option<(u32, Compiled)>,
) -> Result<(Boxed<PendingChange>, Option<(u32, Boxed<Compiled>)>), OutOfMemory>
    ensures { IfOk result (λ p. p ≡ (pending_change, entry)) }
{
    let pending_change = Boxed::new(alloc, pending_change)?;
    match entry {
        Some((contract, compiled)) => {
            let compiled = Boxed::new(alloc, compiled)?;
            Ok((pending_change, Some((contract, compiled))))
        }
        None => Ok((pending_change, None)),
    }
}

/// The pending effect of a commitment, and the contract that it compiles, where it is the last one to it.
#[tactic(auto, using(bm_hash::proofs::HashesLemmas::stops_early))]
pub(crate) fn pending_committed<H: Hash32 + Drop>(
    alloc: Global,
    trail: &mut Trail<H>,
    board: &Board,
    contract: u32,
    party: &Name,
    digests: &[(Name, [u8; 32])],
) -> Result<(Boxed<PendingChange>, Option<(u32, Boxed<Compiled>)>), TrailError>
    requires playable { IsPlayable (setup_of (H.digest_of trail.old.hasher) board.now) board.now trail.old.messages }
    ensures hasher { trail.new.hasher ≡ trail.old.hasher }
    ensures ok { let s = setup_of (H.digest_of trail.old.hasher) board.now in let w = world_of board.now trail.old.messages in
        IfOk result (λ p. Prepares s.hash w trail.old.messages trail.new.messages (run.pending s w (events.Commit contract party.now digests.now)) p.0) }
    ensures compiled { let s = setup_of (H.digest_of trail.old.hasher) board.now in let w = world_of board.now trail.old.messages in
        IfOk result (λ p. IsCompiledAfter s w board.now.compiled (events.Commit contract party.now digests.now) p.1) }
    ensures err { let s = setup_of (H.digest_of trail.old.hasher) board.now in let w = world_of board.now trail.old.messages in
        IfErr result (StopsAlong H.digest_of trail.old trail.new ((run.pending s w (events.Commit contract party.now digests.now)).hashes)) }
{
    let answer = pending_commit(alloc, trail, board, contract, party, digests)?;
    let boxed = boxed(alloc, answer.0, answer.1)?;
    Ok(boxed)
}
