//! Gifts.

ghost use Rattle.std.specs.Prelude.{◌≡◌, ◌≤◌, ◌<◌, ◌^◌, None, length, take, is_some, if◌then◌else◌, IfOk, IfErr, OnOk};
ghost use Rattle.spec_data.specs.Lists.{first_reason};
ghost use Rattle.bm_hash.specs.Trails.{Hashes, StopsAlong};
ghost use Rattle.spec_bitcoin.specs.Keys.{Pair};
ghost use Rattle.spec_compiler.specs.Transactions.{party_script};
ghost use Rattle.spec_run.specs.Signing.{signed_all};
ghost use Rattle.spec_run.specs.Conditions.{IsGift};
ghost use Rattle.spec_run.specs.Giving as spec;
ghost use Rattle.bm_world_board.specs.Prepares.{setup_of, world_of, tx_in, Prepares, Signs, IsPrefix};
ghost use Rattle.bm_world_board.specs.Playable.{IsPlayable};
ghost use Rattle.bm_world_spend.specs.Gifts.{gift_pending, gift_strings};

use crate::appending::pending_reaching;
use crate::gifts::{bare_gift, signed_gift};
use crate::refusing::give_refusal;
use bm_book::Book;
use bm_hash::{Hash32, Trail, TrailError};
use bm_world_board::{Board, Change, PendingChange, declared_account};
use spec_bitcoin::Tx;
use spec_data::Name;
use std::alloc::Global;

// The gift with its signatures, whose pairs are then in the book. It hashes the strings of the transaction.
fn sign_gift<H: Hash32 + Drop>(
    alloc: Global,
    trail: &mut Trail<H>,
    board: &mut Board,
    party: &Name,
    inputs: &[u32],
    outputs: &[(Name, u64)],
) -> Result<Tx, TrailError>
    requires playable { IsPlayable (setup_of (H.digest_of trail.old.hasher) board.old) board.old trail.old.messages }
    requires gift { IsGift (setup_of (H.digest_of trail.old.hasher) board.old) party.now inputs.now outputs.now }
    requires passed { first_reason (spec.give_row (setup_of (H.digest_of trail.old.hasher) board.old) (world_of board.old trail.old.messages) party.now inputs.now outputs.now) ≡ None }
    ensures tx { IfOk result (λ tx. tx ≡ spec.gift (setup_of (H.digest_of trail.old.hasher) board.old) (world_of board.old trail.old.messages) party.now inputs.now outputs.now) }
    ensures pairs { OnOk result (board.new.book ≡ signed_all board.old.book (spec.given_pairs (setup_of (H.digest_of trail.old.hasher) board.old) (world_of board.old trail.old.messages) party.now inputs.now outputs.now)) }
    ensures board { Signs board.old board.new }
    ensures trail { Hashes H.digest_of trail.old trail.new (gift_strings (H.digest_of trail.old.hasher) board.old.coins.outputs (party_script (H.digest_of trail.old.hasher) party.now) (spec.unsigned_gift (setup_of (H.digest_of trail.old.hasher) board.old) (world_of board.old trail.old.messages) inputs.now outputs.now) inputs.now) result }
{
    let account = *declared_account(board.accounts.as_slice(), party);
    let bare = bare_gift(
        alloc,
        &board.coins,
        board.accounts.as_slice(),
        inputs,
        outputs,
    )?;
    let tx = signed_gift(
        alloc,
        trail,
        &board.coins,
        &mut board.book,
        &account,
        bare,
        inputs,
    )?;
    Ok(tx)
}

// Whether a transaction is appended.
fn appends(pending_change: &PendingChange) -> bool
    ensures { result ≡ is_some (tx_in pending_change.now.change) }
{
    match &pending_change.change {
        Change::Append(_) => true,
        _ => false,
    }
}

// Leaves the first `count` pairs, unless a transaction is appended.
fn keep_pairs(book: &mut Book, count: usize, pending_change: &PendingChange)
    requires { count ≤ length book.old }
    ensures { book.new ≡ (if is_some (tx_in pending_change.now.change) then book.old else take count book.old) }
{
    if !appends(pending_change) {
        book.cut(count);
    }
}

// The pending effect of a gift that isn't refused before it is signed. Where the ledger refuses it, the book is as before.
fn pending_gift<H: Hash32 + Drop>(
    alloc: Global,
    trail: &mut Trail<H>,
    board: &mut Board,
    party: &Name,
    inputs: &[u32],
    outputs: &[(Name, u64)],
) -> Result<PendingChange, TrailError>
    requires playable { IsPlayable (setup_of (H.digest_of trail.old.hasher) board.old) board.old trail.old.messages }
    requires gift { IsGift (setup_of (H.digest_of trail.old.hasher) board.old) party.now inputs.now outputs.now }
    requires few { length inputs.now < 2 ^ 32 }
    requires passed { first_reason (spec.give_row (setup_of (H.digest_of trail.old.hasher) board.old) (world_of board.old trail.old.messages) party.now inputs.now outputs.now) ≡ None }
    ensures hasher { trail.new.hasher ≡ trail.old.hasher }
    ensures board { Signs board.old board.new }
    ensures ok { IfOk result (Prepares (H.digest_of trail.old.hasher) (world_of board.new trail.old.messages) trail.old.messages trail.new.messages (gift_pending (setup_of (H.digest_of trail.old.hasher) board.old) (world_of board.old trail.old.messages) party.now inputs.now outputs.now)) }
    ensures err { IfErr result (StopsAlong H.digest_of trail.old trail.new ((gift_pending (setup_of (H.digest_of trail.old.hasher) board.old) (world_of board.old trail.old.messages) party.now inputs.now outputs.now).hashes)) }
{
    let count = board.book.count();
    let tx = sign_gift(alloc, trail, board, party, inputs, outputs)?;
    let pending_change = pending_reaching(alloc, trail, board, tx)?;
    keep_pairs(&mut board.book, count, &pending_change);
    Ok(pending_change)
}

/// The pending effect of `give`, whose pairs are then in the book.
pub fn pending_give<H: Hash32 + Drop>(
    alloc: Global,
    trail: &mut Trail<H>,
    board: &mut Board,
    party: &Name,
    inputs: &[u32],
    outputs: &[(Name, u64)],
) -> Result<PendingChange, TrailError>
    requires playable { IsPlayable (setup_of (H.digest_of trail.old.hasher) board.old) board.old trail.old.messages }
    requires gift { IsGift (setup_of (H.digest_of trail.old.hasher) board.old) party.now inputs.now outputs.now }
    ensures hasher { trail.new.hasher ≡ trail.old.hasher }
    ensures board { Signs board.old board.new }
    ensures ok { IfOk result (Prepares (H.digest_of trail.old.hasher) (world_of board.new trail.old.messages) trail.old.messages trail.new.messages (spec.give_pending (setup_of (H.digest_of trail.old.hasher) board.old) (world_of board.old trail.old.messages) party.now inputs.now outputs.now)) }
    ensures err { IfErr result (StopsAlong H.digest_of trail.old trail.new ((spec.give_pending (setup_of (H.digest_of trail.old.hasher) board.old) (world_of board.old trail.old.messages) party.now inputs.now outputs.now).hashes)) }
{
    if let Some(reason) = give_refusal(alloc, board, party, inputs, outputs) {
        return Ok(PendingChange::refused(alloc, reason));
    }
    let pending_change = pending_gift(alloc, trail, board, party, inputs, outputs)?;
    Ok(pending_change)
}
