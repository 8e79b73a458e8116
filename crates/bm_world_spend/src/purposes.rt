//! What a transaction is to the contracts.

ghost use Rattle.std.specs.Prelude.{◌≡◌, ◌<◌, ◌^◌, ◌++◌, ◌∷◌, [], ℕ, List, length, map, option_map, slice_get, IfOk};
ghost use Rattle.spec_terms.specs.declared.path.PathStep.TheVariants.{Branch as To};
ghost use Rattle.spec_bitcoin.specs.Verdict as spec;
ghost use Rattle.spec_run.specs.World.{live_position};
ghost use Rattle.spec_run.specs.Ledger.{live_from};
ghost use Rattle.bm_arena.specs.NodeView.{node_view, deed_view};
ghost use Rattle.bm_match.specs.Matches.{all_compiled};
ghost use Rattle.bm_world_coins.specs.Coined.{position_by};
ghost use Rattle.bm_world_board.specs.Compiling.{compiled_at};
ghost use Rattle.bm_world_board.specs.Prepares.{setup_of, world_of};
ghost use Rattle.bm_world_board.specs.Reaching.{IsPurpose};
ghost use Rattle.bm_world_spend.specs.Placed.{IsPlaced};
ghost use Rattle.bm_world_spend.specs.Purposes as by;

use bm_arena::{Core, Node};
use bm_match::{Active, Match, find_among};
use bm_world_board::{Board, Purpose};
use bm_world_coins::{HeldPosition, NewPositions};
use spec_bitcoin::Tx;
use spec_data::OutOfMemory;
use spec_terms::{Path, PathStep};
use std::alloc::Global;
use theory_nodes::{branches_are_found, choices_are_found};

/// The number of the choice at a position that is held, where its contract is compiled.
pub fn choice_of(board: &Board, held: &HeldPosition) -> Option<u32>
    ensures { result ≡ by.choice_at (compiled_at board.now.compiled held.now.contract) held.now.position }
{
    match board.compiled(held.contract()) {
        Some(compiled) => compiled.arena().find_choice(held.position()),
        None => None,
    }
}

// The live contract output of this number.
fn active_at(board: &Board, number: u32) -> Option<Active>
    ensures { result ≡ by.active_in board.now.compiled number (live_position (slice_get board.now.coins.outputs number)) }
{
    let held = board.coins.held_at(number)?;
    let node = choice_of(board, held)?;
    Some(Active {
        contract: held.contract(),
        output: number,
        node,
    })
}

// The live contract output that a transaction's first input spends.
fn active_of(board: &Board, tx: &Tx) -> Option<Active>
    ensures { result ≡ by.active_first board.now.compiled board.now.coins.outputs
        (map (spec.spent_number (live_from 0 board.now.coins.outputs)) tx.now.inputs) }
{
    match tx.inputs.as_slice().first() {
        Some(input) => active_at(board, board.coins.ledger().spent_number(input)),
        None => None,
    }
}

// The path of the branch of this number of a position.
fn branch_path(alloc: Global, position: &Path, branch: u32) -> Result<Path, OutOfMemory>
    ensures { IfOk result (λ path. path ≡ position.now ++ To branch ∷ []) }
{
    let mut steps = Vec::from_slice(alloc, position.steps())?;
    steps.push(PathStep::Branch(branch))?;
    Ok(Path::of(steps))
}

// The node of the branch at a path of a contract that is compiled.
fn branch_node<'a>(board: &'a Board, contract: u32, path: &Path) -> Option<&'a Node>
    ensures { option_map (λ n. node_view n.now) result ≡ by.branch_node_at (compiled_at board.now.compiled contract) path.now }
{
    let arena = board.compiled(contract)?.arena();
    arena.node(arena.find(path)?)
}

// What the outputs of the transaction of a branch stand for that does this.
fn positions_of_core(
    alloc: Global,
    contract: u32,
    path: &Path,
    core: &Core,
) -> Result<NewPositions, OutOfMemory>
    ensures { IfOk result (λ p. (k : ℕ) → position_by p k ≡ by.deed_holds contract path.now (deed_view core.now) k) }
{
    match core {
        Core::PutReveal { .. } => Ok(NewPositions::Same {
            contract,
            position: path.copy(alloc)?,
        }),
        Core::Withdraw { .. } => Ok(NewPositions::Deposits),
        Core::Split { .. } => Ok(NewPositions::Parts {
            contract,
            path: path.copy(alloc)?,
        }),
    }
}

// The same by the branch's node.
fn positions_of_node(alloc: Global, contract: u32, node: &Node) -> Result<NewPositions, OutOfMemory>
    ensures { IfOk result (λ p. (k : ℕ) → position_by p k ≡ by.node_holds contract (Some (node_view node.now)) k) }
{
    match node {
        Node::Branch { path, core, .. } => positions_of_core(alloc, contract, path, core),
        Node::Choice { .. } => Ok(NewPositions::Deposits),
    }
}

// What the outputs of the transaction of a branch of what is held stand for.
fn positions_of_held(
    alloc: Global,
    board: &Board,
    held: &HeldPosition,
    branch: u32,
) -> Result<NewPositions, OutOfMemory>
    ensures { IfOk result (λ p. (k : ℕ) → position_by p k ≡ by.branch_holds board.now.compiled branch (Some held.now) k) }
{
    let path = branch_path(alloc, held.position(), branch)?;
    match branch_node(board, held.contract(), &path) {
        Some(node) => positions_of_node(alloc, held.contract(), node),
        None => Ok(NewPositions::Deposits),
    }
}

// The same by the number of the output that holds it.
fn positions_of_taken(
    alloc: Global,
    board: &Board,
    output: u32,
    branch: u32,
) -> Result<NewPositions, OutOfMemory>
    ensures { IfOk result (λ p. (k : ℕ) → position_by p k
        ≡ by.branch_holds board.now.compiled branch (live_position (slice_get board.now.coins.outputs output)) k) }
{
    match board.coins.held_at(output) {
        Some(held) => positions_of_held(alloc, board, held, branch),
        None => Ok(NewPositions::Deposits),
    }
}

// What the outputs of a transaction stand for that is this to the contracts.
fn positions_of(alloc: Global, board: &Board, matched: &Match) -> Result<NewPositions, OutOfMemory>
    ensures { IfOk result (λ p. (k : ℕ) → position_by p k ≡ by.match_holds board.now.compiled board.now.coins.outputs matched.now k) }
{
    match matched {
        Match::Init(contract) => Ok(NewPositions::Same {
            contract: *contract,
            position: Path::of(Vec::new(alloc)),
        }),
        Match::Branch { output, branch, .. } => positions_of_taken(alloc, board, *output, *branch),
        Match::Move => Ok(NewPositions::Deposits),
    }
}

// The contract that begins by a transaction that is this to the contracts.
fn begun_by(matched: &Match) -> Option<u32>
    ensures { result ≡ by.match_begins matched.now }
{
    match matched {
        Match::Init(contract) => Some(*contract),
        _ => None,
    }
}

/// What a transaction is to the contracts: what its outputs stand for, and the contract that it begins.
pub(crate) fn purpose(alloc: Global, board: &Board, tx: &Tx) -> Result<Purpose, OutOfMemory>
    requires few { length board.now.compiled < 2 ^ 32 }
    ensures { IfOk result (λ p. (hash : List ℕ → List ℕ) (messages : List (List ℕ))
        → board.now.compiled ≡ all_compiled (setup_of hash board.now) (world_of board.now messages)
        → IsPlaced (setup_of hash board.now) (world_of board.now messages)
        → IsPurpose (setup_of hash board.now) (world_of board.now messages) tx.now p) }
{
    branches_are_found();
    choices_are_found();
    let matched = find_among(board.compiled.as_slice(), active_of(board, tx), tx);
    let positions = positions_of(alloc, board, &matched)?;
    Ok(Purpose {
        positions,
        begins: begun_by(&matched),
    })
}
