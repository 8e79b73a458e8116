//! Blocks that come.

ghost use Rattle.std.specs.Prelude.{◌≡◌, ℕ, List, ◌+◌, ◌≤◌, None};
ghost use Rattle.spec_data.specs.Ranges.{last_height};
ghost use Rattle.spec_data.specs.Lists.{first_reason};
ghost use Rattle.bm_hash.specs.Messages.{evidence_of};
ghost use Rattle.spec_run.specs.Event.{mine_row, mine_pending};
ghost use Rattle.bm_world_board.specs.Prepares.{world_of, Prepares};

use bm_world_board::{Board, Change, PendingChange};
use spec_data::LAST_HEIGHT;
use spec_run::Reason;
use std::alloc::Global;

// Why it is refused, if it is.
fn mine_refusal(board: &Board, blocks: u32) -> Option<Reason>
    ensures reason { (messages : List (List ℕ)) → result ≡ first_reason (mine_row (world_of board.now messages) blocks) }
    ensures few { result ≡ None → board.now.coins.tip + blocks ≤ last_height }
{
    if board.coins.tip() as u64 + blocks as u64 > LAST_HEIGHT as u64 {
        return Some(Reason::TimeLimit);
    }
    None
}

/// The pending effect of `mine`; it hashes nothing.
pub fn pending_mine(alloc: Global, board: &Board, blocks: u32) -> PendingChange
    ensures { (hash : List ℕ → List ℕ) (messages : List (List ℕ)) → evidence_of hash messages ≡ None → Prepares hash (world_of board.now messages) messages messages (mine_pending (world_of board.now messages) blocks) result }
{
    if let Some(reason) = mine_refusal(board, blocks) {
        return PendingChange::refused(alloc, reason);
    }
    PendingChange::done(alloc, Change::Blocks(blocks))
}
