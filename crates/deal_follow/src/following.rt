//! A chain is followed: what its transactions did to a deal, or why it is refused.

ghost use Rattle.std.specs.Prelude.{◌≡◌, ℕ, List, [], None, IfOk, OnOk};
ghost use Rattle.spec_data.specs.Messages.{noted_all, collision};
ghost use Rattle.spec_compiler.specs.Keyed.Keys.{Keys};
ghost use Rattle.spec_deal.specs.Hashed.{deal_strings};
ghost use Rattle.spec_deal.specs.Setting.{deal_instance};
ghost use Rattle.spec_deal.specs.Transactions.{transactions as transactions_of};
ghost use Rattle.spec_chain.specs.Chain as spec;
ghost use Rattle.spec_chain.specs.Following.{opening_state};
ghost use Rattle.bm_hash.specs.Messages.{evidence_of};
ghost use Rattle.bm_hash.specs.Trails.{Hashed};
ghost use Rattle.deal_follow.specs.Boards.{setting, IsBoard};
ghost use Rattle.deal_follow.specs.Follows.{HasRead, Goes, IsFollowed};
ghost use Rattle.deal_follow.specs.Seen.{state_in, course_in};

use crate::board::Board;
use crate::error::ChainError;
use crate::event::Event;
use crate::going_on::{go_on, outcome_of};
use crate::hashing::{Strings, hash_strings, with_digests};
use crate::outputs::deposit_outputs;
use crate::refusal::refusal;
use crate::standing::Standing;
use crate::which::own_transaction;
use bm_hash::{Hash32, Trail};
use bm_wellformed::Checked;
use spec_chain::{ChainFault, Confirmed, Reading};
use spec_data::OutOfMemory;
use spec_deal::{Deal, Transaction};
use std::alloc::{AllocError, Global};

/// A chain so far: where the deal stands, and what happened to it.
pub struct Course {
    pub standing: Standing,
    pub history: Vec<Event>,
}

impl Drop for Course {
    fn drop(self) {
        let Course {
            standing: _,
            history: _,
        } = self;
    }
}

// The deal before any transaction.
fn opening(alloc: Global, checked: &Checked, deal: &Deal) -> Result<Course, OutOfMemory>
    ensures state { IfOk result (λ c. state_in c.standing ≡ opening_state (deal_instance checked.now deal.now)) }
    ensures history { IfOk result (λ c. c.history.items ≡ []) }
{
    let live = deposit_outputs(alloc, checked, deal)?;
    if live.len() > u32::MAX as usize {
        return Err(AllocError);
    }
    let next = live.len() as u32;
    Ok(Course {
        standing: Standing {
            live,
            next,
            made: Vec::new(alloc),
            shown: Vec::new(alloc),
        },
        history: Vec::new(alloc),
    })
}

// A transaction whose strings are hashed: it is bad, or the deal goes on by it.
fn take_hashed<H: Hash32>(
    alloc: Global,
    hasher: &H,
    board: &Board,
    course: &mut Course,
    confirmed: &Confirmed,
    strings: &Strings,
) -> Result<(), ChainError>
    requires board { IsBoard board.now }
    requires read { HasRead (H.digest_of hasher.now) confirmed.now.tx strings.now }
    ensures { let hash = H.digest_of hasher.now in
        (messages later : List (List ℕ)) → collision hash messages (spec.transaction_strings hash confirmed.now.tx) ≡ None
        → later ≡ noted_all messages (spec.transaction_strings hash confirmed.now.tx)
        → Goes hash (setting board.now) board.now.transactions.now confirmed.now None (course_in messages course.old)
        (course_in later course.new) result }
{
    let tx = &confirmed.tx;
    let standing = &course.standing;
    let height = confirmed.height;
    let own = own_transaction(alloc, board, tx)?;
    if let Some(reason) = refusal(alloc, hasher, board, standing, height, tx, own)? {
        return Err(ChainError::Refused(ChainFault::Line(confirmed.line, reason)));
    }
    let outcome = outcome_of(alloc, board, standing, height, tx, own, strings)?;
    let inputs = tx.inputs.as_slice();
    go_on(
        alloc,
        &mut course.standing,
        &mut course.history,
        inputs,
        outcome,
    )?;
    Ok(())
}

// A transaction is hashed and taken.
fn take<H: Hash32 + Drop>(
    alloc: Global,
    trail: &mut Trail<H>,
    board: &Board,
    course: &mut Course,
    confirmed: &Confirmed,
) -> Result<(), ChainError>
    requires clear { evidence_of (H.digest_of trail.old.hasher) trail.old.messages ≡ None }
    requires board { IsBoard board.now }
    ensures hasher { trail.new.hasher ≡ trail.old.hasher }
    ensures clear { OnOk result (evidence_of (H.digest_of trail.old.hasher) trail.new.messages ≡ None) }
    ensures goes { let hash = H.digest_of trail.old.hasher in
        Goes hash (setting board.now) board.now.transactions.now confirmed.now (evidence_of hash trail.new.messages)
        (course_in trail.old.messages course.old) (course_in trail.new.messages course.new) result }
{
    let txid = hash_strings(alloc, trail, &confirmed.tx)?;
    let items = with_digests(alloc, trail.hasher(), &confirmed.tx)?;
    let strings = Strings { txid, items };
    take_hashed(alloc, trail.hasher(), board, course, confirmed, &strings)
}

// The transactions in order.
fn take_all<H: Hash32 + Drop>(
    alloc: Global,
    trail: &mut Trail<H>,
    board: &Board,
    course: Course,
    reading: &Reading,
) -> Result<Course, ChainError>
    requires clear { evidence_of (H.digest_of trail.old.hasher) trail.old.messages ≡ None }
    requires board { IsBoard board.now }
    ensures hasher { trail.new.hasher ≡ trail.old.hasher }
    ensures clear { OnOk result (evidence_of (H.digest_of trail.old.hasher) trail.new.messages ≡ None) }
    ensures followed { let hash = H.digest_of trail.old.hasher in
        IsFollowed (evidence_of hash trail.new.messages) trail.new.messages reading.now.tip result
        (spec.follow hash (setting board.now) board.now.transactions.now reading.now.fault reading.now.tip
        (course_in trail.old.messages course) reading.now.confirmed) }
{
    let mut course = course;
    for confirmed in reading.confirmed.as_slice() {
        take(alloc, trail, board, &mut course, confirmed)?;
    }
    match reading.fault {
        Some(fault) => Err(ChainError::Refused(fault)),
        None => Ok(course),
    }
}

/// Follows the transactions of a chain file behind the strings of the compiled deal, which were hashed: where the deal stands at the tip
/// and what happened to it; or the fault for which the file is refused. Each transaction's strings are hashed before it is looked at;
/// where two of all these collide, the trail has the evidence.
pub fn follow<H: Hash32 + Drop>(
    alloc: Global,
    trail: &mut Trail<H>,
    checked: &Checked,
    deal: &Deal,
    transactions: &[Transaction],
    reading: &Reading,
) -> Result<Course, ChainError>
    requires clear { evidence_of (H.digest_of trail.old.hasher) trail.old.messages ≡ None }
    ensures hasher { trail.new.hasher ≡ trail.old.hasher }
    ensures clear { OnOk result (evidence_of (H.digest_of trail.old.hasher) trail.new.messages ≡ None) }
    ensures followed { let hash = H.digest_of trail.old.hasher in
        (keys : Keys) → transactions.now ≡ transactions_of hash keys (deal_instance checked.now deal.now)
        → Hashed hash [] trail.old.messages (deal_strings hash keys (deal_instance checked.now deal.now))
        → IsFollowed (evidence_of hash trail.new.messages) trail.new.messages reading.now.tip result
        (spec.follow_reading hash keys (deal_instance checked.now deal.now) reading.now) }
{
    let board = Board::of(alloc, checked, deal, transactions)?;
    let course = opening(alloc, checked, deal)?;
    take_all(alloc, trail, &board, course, reading)
}
