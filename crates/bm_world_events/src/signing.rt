//! Signatures at will.

ghost use Rattle.std.specs.Prelude.{◌≡◌, ◌∷◌, [], IfOk, IfErr, OnOk, OnErr, ℕ, List, None};
ghost use Rattle.spec_data.specs.Lists.{first_reason};
ghost use Rattle.bm_hash.specs.Messages.{evidence_of};
ghost use Rattle.bm_hash.specs.Trails.{Hashes, StopsAlong};
ghost use Rattle.spec_bitcoin.specs.Keys.{key_of, label_text};
ghost use Rattle.spec_run.specs.Signing.{label_party, signed, sign_row, sign_pending};
ghost use Rattle.bm_world_board.specs.Prepares.{setup_of, world_of, Prepares, Signs};

use bm_book::Book;
use bm_hash::{Hash32, Trail, TrailError};
use bm_keys::key;
use bm_world_board::{Board, Change, PendingChange};
use spec_bitcoin::Label;
use spec_data::Name;
use spec_run::Reason;
use std::alloc::Global;

fn party_of(label: &Label) -> Name
    ensures { result ≡ label_party label.now }
{
    match label {
        Label::Deposit { party } => *party,
        Label::Branch { party, .. } => *party,
    }
}

// Why it is refused, if it is.
fn sign_refusal(board: &Board, party: &Name, label: &Label) -> Option<Reason>
    ensures { (hash : List ℕ → List ℕ) → result ≡ first_reason (sign_row (setup_of hash board.now) party.now label.now) }
{
    if board.is_honest(party) {
        return Some(Reason::Honest);
    }
    if party_of(label) != *party {
        return Some(Reason::NotOwner);
    }
    None
}

// Signs a digest by the key of a label, which is hashed.
#[tactic(auto, using(bm_hash::proofs::HashesLemmas::stops_late))]
fn sign_digest<H: Hash32 + Drop>(
    alloc: Global,
    trail: &mut Trail<H>,
    book: &mut Book,
    label: &Label,
    digest: &[u8; 32],
) -> Result<(), TrailError>
    ensures signed { OnOk result (book.new ≡ signed book.old (key_of (H.digest_of trail.old.hasher) label.now, digest.now)) }
    ensures same { OnErr result (book.new ≡ book.old) }
    ensures trail { Hashes H.digest_of trail.old trail.new (label_text label.now ∷ []) result }
{
    let key = key(alloc, trail, label)?;
    book.sign(key, *digest)?;
    Ok(())
}

/// The pending effect of `sign`, whose pair is then in the book.
pub fn pending_sign<H: Hash32 + Drop>(
    alloc: Global,
    trail: &mut Trail<H>,
    board: &mut Board,
    party: &Name,
    label: &Label,
    digest: &[u8; 32],
) -> Result<PendingChange, TrailError>
    requires clear { evidence_of (H.digest_of trail.old.hasher) trail.old.messages ≡ None }
    ensures hasher { trail.new.hasher ≡ trail.old.hasher }
    ensures board { Signs board.old board.new }
    ensures ok { IfOk result (Prepares (H.digest_of trail.old.hasher) (world_of board.new trail.old.messages) trail.old.messages trail.new.messages (sign_pending (setup_of (H.digest_of trail.old.hasher) board.old) (world_of board.old trail.old.messages) party.now label.now digest.now)) }
    ensures err { IfErr result (StopsAlong H.digest_of trail.old trail.new ((sign_pending (setup_of (H.digest_of trail.old.hasher) board.old) (world_of board.old trail.old.messages) party.now label.now digest.now).hashes)) }
{
    if let Some(reason) = sign_refusal(board, party, label) {
        return Ok(PendingChange::refused(alloc, reason));
    }
    sign_digest(alloc, trail, &mut board.book, label, digest)?;
    Ok(PendingChange::done(alloc, Change::Nothing))
}
