//! What an accepted transaction is to the contracts, and its steps.

ghost use Rattle.std.specs.Prelude.{◌≡◌, ◌<◌, ◌^◌, ◌++◌, ◌∷◌, [], ℕ, List, length, option_map, slice_get, false, Some, None, IfOk};
ghost use Rattle.spec_terms.specs.declared.path.PathStep.TheVariants.{Branch as To};
ghost use Rattle.spec_calculus.specs.Configuration.{Configuration};
ghost use Rattle.spec_calculus.specs.Beginning as beginning;
ghost use Rattle.spec_calculus.specs.Steps as calculus;
ghost use Rattle.spec_compiler.specs.Instance.{Instance};
ghost use Rattle.spec_compiler.specs.Transactions.{tx_of, initial_unsigned};
ghost use Rattle.spec_run.specs.Setup.{Setup, pre_of, people_of};
ghost use Rattle.spec_run.specs.World.{World};
ghost use Rattle.spec_run.specs.Ledger as run;
ghost use Rattle.spec_run.specs.Steps as spec;
ghost use Rattle.bm_world_board.specs.Compiling.{compiled_at};
ghost use Rattle.bm_compile.specs.Numbered.{numbered};
ghost use Rattle.bm_match.specs.Matches.{chosen_at};
ghost use Rattle.bm_syntax.specs.View.{guarded};
ghost use Rattle.bm_translate.specs.Kinds.{is_complete_now, begins_now, first_begun_now};
ghost use Rattle.bm_translate.specs.Moments.{IsMoment};

use crate::contracts::{begin_steps, branch_steps};
use crate::moves::move_steps;
use crate::running::Running;
use bm_calculus::Config;
use bm_calculus::config::Active;
use bm_compile::Compiled;
use bm_match::{Match, find, is_initial};
use bm_syntax::{Guarded, branch_at};
use bm_world_board::Board;
use spec_bitcoin::Tx;
use spec_calculus::Step;
use spec_data::{Name, OutOfMemory};
use spec_terms::{Path, Pre};
use std::alloc::Global;

// Whether all participants of the contract have committed, which is the first that the contract's beginning asks.
fn have_committed(config: &Config, contract: u32) -> bool
    ensures { result ≡ calculus.is_committed config.now contract (beginning.contract_at config.now.contracts contract) }
{
    match config.enabled(&Step::Init { contract }) {
        Ok(()) => true,
        Err(premise) => premise != 1,
    }
}

// Whether the contract is advertised.
fn is_advertised(config: &Config, contract: u32) -> bool
    ensures { result ≡ beginning.is_advertised config.now.advertised contract }
{
    match config.bindings(contract) {
        Some(_) => true,
        None => false,
    }
}

// Whether the contract is advertised, and all its participants have committed.
fn is_complete(config: &Config, contract: u32) -> bool
    ensures { result ≡ is_complete_now config.now contract }
{
    if !is_advertised(config, contract) {
        return false;
    }
    have_committed(config, contract)
}

// Whether it is the initial transaction of what the contract is compiled to, and that is complete.
fn begins(config: &Config, contract: u32, compiled: &Option<Compiled>, tx: &Tx) -> bool
    ensures { result ≡ begins_now config.now tx.now contract compiled.now }
{
    let Some(compiled) = compiled else {
        return false;
    };
    if !is_initial(compiled, tx) {
        return false;
    }
    is_complete(config, contract)
}

// The first contract whose initial transaction it is.
fn first_begun(config: &Config, compiled: &[Option<Compiled>], tx: &Tx) -> Option<u32>
    requires { length compiled.now < 2 ^ 32 }
    ensures { result ≡ first_begun_now config.now tx.now 0 compiled.now }
{
    for (k, compiled) in compiled.iter().enumerate() {
        if begins(config, k as u32, compiled, tx) {
            return Some(k as u32);
        }
    }
    None
}

/// The precondition of the contract, nothing without one.
pub(crate) fn pre_of(board: &Board, contract: u32) -> &[Pre]
    ensures { result.now ≡ pre_of (slice_get board.now.contracts contract) }
{
    match board.contract(contract) {
        Some(checked) => checked.advert().pre.as_slice(),
        None => &[],
    }
}

// Who takes part in the contract, nobody without one.
fn people_of(board: &Board, contract: u32) -> &[Name]
    ensures { result.now ≡ people_of (slice_get board.now.contracts contract) }
{
    match board.contract(contract) {
        Some(checked) => checked.parties(),
        None => &[],
    }
}

// The branch of this number at a position of the contract.
fn branch_of<'a>(
    board: &'a Board,
    contract: u32,
    position: &Path,
    branch: u32,
) -> Option<&'a Guarded>
    ensures { option_map (λ b. guarded b.now) result
        ≡ run.branch_in (slice_get board.now.contracts contract) (position.now ++ To branch ∷ []) }
{
    let checked = board.contract(contract)?;
    branch_at(&checked.advert().root, position, branch)
}

// The branch that a transaction chooses at a position of the contract, where it isn't the initial one.
fn chosen(board: &Board, contract: u32, output: u32, position: &Path, tx: &Tx) -> Option<u32>
    ensures { (hash : List ℕ → List ℕ) (st : Instance) → compiled_at board.now.compiled contract ≡ Some (numbered hash st)
        → run.same_bare tx.now (tx_of (initial_unsigned hash st)) ≡ false
        → result ≡ Some (chosen_at st.advert.root position.now tx.now) }
{
    let compiled = board.compiled(contract)?;
    match find(contract, compiled, Some((output, position)), tx) {
        Match::Branch { branch, .. } => Some(branch),
        _ => None,
    }
}

// The steps by which the branch of this number is taken at a position of the contract.
fn taken_steps(
    alloc: Global,
    board: &Board,
    running: &Running,
    contract: u32,
    position: &Path,
    output: u32,
    branch: u32,
) -> Result<Vec<Step>, OutOfMemory>
    ensures { (g : Configuration) → g.branch_authorised ≡ running.now.asked → IfOk result (λ made. made.items
        ≡ spec.branch_steps g (people_of (slice_get board.now.contracts contract)) output branch
        (run.branch_in (slice_get board.now.contracts contract) (position.now ++ To branch ∷ []))) }
{
    match branch_of(board, contract, position, branch) {
        Some(taken) => branch_steps(
            alloc,
            running.asked.as_slice(),
            people_of(board, contract),
            output,
            branch,
            taken,
        ),
        None => Ok(Vec::new(alloc)),
    }
}

// The steps of a transaction that takes a branch of an active contract, where it isn't an initial one.
fn taking_steps(
    alloc: Global,
    board: &Board,
    running: &Running,
    active: &Active,
    output: u32,
    tx: &Tx,
) -> Result<Vec<Step>, OutOfMemory>
    ensures { (hash : List ℕ → List ℕ) (st : Instance) (g : Configuration)
        → compiled_at board.now.compiled active.now.contract ≡ Some (numbered hash st)
        → run.same_bare tx.now (tx_of (initial_unsigned hash st)) ≡ false → g.branch_authorised ≡ running.now.asked
        → IfOk result (λ made. made.items
        ≡ spec.branch_steps g (people_of (slice_get board.now.contracts active.now.contract)) output
        (chosen_at st.advert.root active.now.position.now tx.now)
        (run.branch_in (slice_get board.now.contracts active.now.contract)
        (active.now.position.now ++ To (chosen_at st.advert.root active.now.position.now tx.now) ∷ []))) }
{
    match chosen(board, active.contract, output, active.position, tx) {
        Some(branch) => taken_steps(
            alloc,
            board,
            running,
            active.contract,
            active.position,
            output,
            branch,
        ),
        None => Ok(Vec::new(alloc)),
    }
}

// The first of these numbers.
fn first_of(numbers: &[u32]) -> Option<u32>
    ensures { result ≡ slice_get numbers.now 0 }
{
    match numbers.first() {
        Some(number) => Some(*number),
        None => None,
    }
}

// The steps of a transaction that isn't an initial one, and that spends the outputs of these numbers, of which this one is the first.
fn output_steps(
    alloc: Global,
    board: &Board,
    running: &Running,
    tx: &Tx,
    spent: &[u32],
    output: u32,
) -> Result<Vec<Step>, OutOfMemory>
    requires first { slice_get spent.now 0 ≡ Some output }
    ensures { (s : Setup) (f w : World) (messages : List (List ℕ)) → IsMoment s board.now messages f w running.now
        → run.initial_of s w tx.now ≡ None
        → IfOk result (λ made. made.items
        ≡ spec.kind_steps s running.now.config w tx.now spent.now (run.kind_by s tx.now spent.now None (run.first_position w spent.now))) }
{
    match running.config.contract(output) {
        Some(active) => {
            let taken = taking_steps(alloc, board, running, &active, output, tx)?;
            Ok(taken)
        }
        None => {
            let accounts = board.accounts.as_slice();
            let moved = move_steps(alloc, &running.config, accounts, tx, spent)?;
            Ok(moved)
        }
    }
}

// The steps of a transaction that isn't an initial one, and that spends the outputs of these numbers.
fn spending_steps(
    alloc: Global,
    board: &Board,
    running: &Running,
    tx: &Tx,
    spent: &[u32],
) -> Result<Vec<Step>, OutOfMemory>
    ensures { (s : Setup) (f w : World) (messages : List (List ℕ)) → IsMoment s board.now messages f w running.now
        → run.initial_of s w tx.now ≡ None
        → IfOk result (λ made. made.items
        ≡ spec.kind_steps s running.now.config w tx.now spent.now (run.kind_by s tx.now spent.now None (run.first_position w spent.now))) }
{
    match first_of(spent) {
        Some(output) => {
            let taken = output_steps(alloc, board, running, tx, spent, output)?;
            Ok(taken)
        }
        None => {
            let accounts = board.accounts.as_slice();
            let moved = move_steps(alloc, &running.config, accounts, tx, spent)?;
            Ok(moved)
        }
    }
}

/// The steps of an accepted transaction that spends the outputs of these numbers, but for what it reveals.
pub(crate) fn kind_steps(
    alloc: Global,
    board: &Board,
    running: &Running,
    tx: &Tx,
    spent: &[u32],
) -> Result<Vec<Step>, OutOfMemory>
    requires few { length board.now.compiled < 2 ^ 32 }
    ensures { (s : Setup) (f w : World) (messages : List (List ℕ)) → IsMoment s board.now messages f w running.now
        → IfOk result (λ made. made.items ≡ spec.kind_steps s running.now.config w tx.now spent.now (run.kind_of s w tx.now spent.now)) }
{
    match first_begun(&running.config, board.compiled.as_slice(), tx) {
        Some(contract) => {
            let inits = running.inits.as_slice();
            let begun = begin_steps(alloc, contract, pre_of(board, contract), inits)?;
            Ok(begun)
        }
        None => {
            let other = spending_steps(alloc, board, running, tx, spent)?;
            Ok(other)
        }
    }
}
