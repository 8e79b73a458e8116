//! Where the outputs of the first contract's positions are.

ghost use Rattle.std.specs.Prelude.{◌≡◌, ℕ, List, Some, slice_get};
ghost use Rattle.spec_run.specs.World.{live_position};
ghost use Rattle.spec_tool.specs.Turns as spec;
ghost use Rattle.bm_world_board.specs.Prepares.{setup_of, world_of};

use bm_plan::{last_branch, prefix_of};
use bm_syntax::walk::at;
use bm_world_board::Board;
use bm_world_coins::{Coins, HeldPosition};
use spec_terms::{Path, PathStep};

// Whether this is the position of the first contract.
fn is_at(held: &HeldPosition, position: &[PathStep]) -> bool
    ensures { result ≡ spec.stands_at 0 position.now (Some held.now) }
{
    held.contract() == 0 && held.position().steps() == position
}

// Whether the output of this number stands, live, for the position of the first contract.
fn stands(coins: &Coins, number: u32, position: &[PathStep]) -> bool
    ensures { result ≡ spec.stands_at 0 position.now (live_position (slice_get coins.now.outputs number)) }
{
    match coins.held_at(number) {
        Some(held) => is_at(held, position),
        None => false,
    }
}

// The number of the first output that does.
fn standing_at(coins: &Coins, position: &[PathStep]) -> Option<u32>
    ensures { result ≡ spec.standing_from 0 0 position.now coins.now.outputs }
{
    let births = coins.ledger().births();
    for number in 0..births {
        if stands(coins, number, position) {
            return Some(number);
        }
    }
    None
}

/// The live output of the first contract at whose position the path is a branch, and the branch's number. None where the contract
/// doesn't have the path, or nothing stands there.
pub(crate) fn taken_at(board: &Board, path: &Path) -> Option<(u32, u32)>
    ensures { (hash : List ℕ → List ℕ) (messages : List (List ℕ))
        → result ≡ spec.taken_at (setup_of hash board.now) (world_of board.now messages) path.now }
{
    let checked = board.contract(0)?;
    let _branch = at(&checked.advert().root, path)?;
    let number = standing_at(&board.coins, prefix_of(path))?;
    Some((number, last_branch(path)))
}
