//! What the ledger says of a transaction.

ghost use Rattle.std.specs.Prelude.{◌≡◌, ◌<◌, ◌^◌, ℕ, List, length, option_map, slice_get, IfOk};
ghost use Rattle.spec_bitcoin.specs.Verdict.{refusal_of};
ghost use Rattle.spec_run.specs.Setup.{Setup};
ghost use Rattle.spec_run.specs.World.{World as RunWorld, live_position};
ghost use Rattle.spec_run.specs.Ledger as run;
ghost use Rattle.spec_tool.specs.Audit as spec;
ghost use Rattle.bm_syntax.specs.View.{contract};
ghost use Rattle.bm_match.specs.Matches.{all_compiled};
ghost use Rattle.bm_world.specs.Playing.{setup_in};

use bm_hash::Hash32;
use bm_match::{chosen_by, first_initial, first_witness};
use bm_syntax::Contract;
use bm_syntax::walk::choice_at;
use bm_world::World;
use bm_world_board::{Board, spent_numbers};
use bm_world_coins::HeldPosition;
use spec_bitcoin::{Refusal, Tx};
use spec_data::OutOfMemory;
use spec_tool::Now;
use std::alloc::{AllocError, Global};

// A number of 32 bits; a greater one counts as out of memory.
fn narrow(number: usize) -> Result<u32, OutOfMemory>
    ensures { IfOk result (λ n. n ≡ number) }
{
    if number > u32::MAX as usize {
        return Err(AllocError);
    }
    Ok(number as u32)
}

// How many branches a choice has, none without a choice.
#[tactic(auto, using(crate::proofs::Choices::choice_count))]
fn branch_count(choice: Option<&Contract>) -> usize
    ensures { result ≡ run.count_of (option_map (λ c. contract c.now) choice.entry) }
{
    match choice {
        Some(choice) => choice.branches.len(),
        None => 0,
    }
}

// How many branches the position has that is held.
fn branches_at(board: &Board, held: &HeldPosition) -> usize
    ensures { result ≡ run.count_of (run.contract_in (slice_get board.now.contracts held.now.contract) held.now.position) }
{
    match board.contract(held.contract()) {
        Some(checked) => branch_count(choice_at(&checked.advert().root, held.position())),
        None => 0,
    }
}

// What an accepted transaction is that isn't an initial one, and spends the output of this number first.
fn taken(board: &Board, number: u32, tx: &Tx) -> Result<Now, OutOfMemory>
    ensures { (s : Setup) (spent : List ℕ) → s.contracts ≡ board.now.contracts → run.first_number spent ≡ number
        → IfOk result (λ now. now ≡ spec.now_by (run.kind_by s tx.now spent None
        (live_position (slice_get board.now.coins.outputs number)))) }
{
    let Some(held) = board.coins.held_at(number) else {
        return Ok(Now::Move);
    };
    let count = narrow(branches_at(board, held))?;
    Ok(Now::Branch {
        output: number,
        branch: chosen_by(count, first_witness(tx)),
    })
}

// The first of these numbers.
fn first_of(numbers: &[u32]) -> Option<u32>
    ensures { result ≡ slice_get numbers.now 0 }
{
    match numbers.first() {
        Some(number) => Some(*number),
        None => None,
    }
}

// What an accepted transaction is that isn't an initial one, and spends the outputs of these numbers.
fn other(board: &Board, spent: &[u32], tx: &Tx) -> Result<Now, OutOfMemory>
    ensures { (s : Setup) (w : RunWorld) → s.contracts ≡ board.now.contracts → w.outputs ≡ board.now.coins.outputs
        → IfOk result (λ now. now ≡ spec.now_by (run.kind_by s tx.now spent.now None (run.first_position w spent.now))) }
{
    match first_of(spent) {
        Some(number) => taken(board, number, tx),
        None => Ok(Now::Move),
    }
}

// What an accepted transaction is that spends the outputs of these numbers.
fn accepted(board: &Board, spent: &[u32], tx: &Tx) -> Result<Now, OutOfMemory>
    requires few { length board.now.compiled < 2 ^ 32 }
    ensures { (s : Setup) (w : RunWorld) → s.contracts ≡ board.now.contracts → w.outputs ≡ board.now.coins.outputs
        → board.now.compiled ≡ all_compiled s w
        → IfOk result (λ now. now ≡ spec.now_by (run.kind_of s w tx.now spent.now)) }
{
    match first_initial(board.compiled.as_slice(), tx) {
        Some(contract) => Ok(Now::Init(contract)),
        None => other(board, spent, tx),
    }
}

/// What the ledger says of a transaction in this world, where it would refuse it for this.
pub(crate) fn now_of<H: Hash32 + Drop>(
    alloc: Global,
    world: &World<H>,
    tx: &Tx,
    refusal: Option<Refusal>,
) -> Result<Now, OutOfMemory>
    requires { refusal ≡ refusal_of (setup_in H.digest_of world.now).hash world.now.world.book world.now.world.tip
        (run.live_from 0 world.now.world.outputs) tx.now }
    ensures { IfOk result (λ now. now ≡ spec.now_of (setup_in H.digest_of world.now) world.now.world tx.now) }
{
    if let Some(refusal) = refusal {
        return Ok(Now::Refused(refusal));
    }
    let spent = spent_numbers(alloc, world.ledger(), tx.inputs.as_slice())?;
    accepted(world.board(), spent.as_slice(), tx)
}
