//! Where live contract outputs stand.

ghost use Rattle.std.specs.Prelude.{◌≡◌, slice_get};
ghost use Rattle.spec_run.specs.World.{live_position};
ghost use Rattle.bm_world.specs.Standing.{node_by};

use bm_world_board::Board;
use bm_world_spend::choice_of;

/// The contract of the live contract output of this number, and the number of its position's choice among the contract's nodes.
pub(crate) fn node_at(board: &Board, number: u32) -> Option<(u32, u32)>
    ensures { result ≡ node_by board.now.compiled number (live_position (slice_get board.now.coins.outputs number)) }
{
    let held = board.coins.held_at(number)?;
    let node = choice_of(board, held)?;
    Some((held.contract(), node))
}
