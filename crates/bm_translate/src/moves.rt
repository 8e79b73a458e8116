//! The steps of a transaction that no contract asks for.

ghost use Rattle.std.specs.Prelude.{◌≡◌, ◌++◌, ◌∷◌, [], map, IfOk, OnOk};
ghost use Rattle.spec_calculus.specs.declared.step.Step.TheVariants as steps;
ghost use Rattle.spec_calculus.specs.declared.step.Owner.TheVariants.{Party};
ghost use Rattle.spec_calculus.specs.Moves as calculus;
ghost use Rattle.spec_run.specs.Setup.{Setup};
ghost use Rattle.spec_run.specs.World.{World};
ghost use Rattle.spec_run.specs.Steps as spec;
ghost use Rattle.theory_run.specs.Tracks.{AgreeOnMoney};
ghost use Rattle.bm_world_board.specs.Accounts.{account_of, owner_in};
ghost use Rattle.bm_translate.specs.Moving.{move_by, moved_steps, with_owner, with_owners};

use bm_calculus::Config;
use bm_world_board::{Account, owner_of_script};
use spec_bitcoin::{Tx, TxOut};
use spec_calculus::{Move, Owner, Step};
use spec_data::{Boxed, Name, OutOfMemory, Seq};
use std::alloc::Global;

// The outputs as those of a move.
fn moved_outputs(
    alloc: Global,
    accounts: &[Account],
    outputs: &[TxOut],
) -> Result<Vec<(Owner, u64)>, OutOfMemory>
    ensures { IfOk result (λ moved. moved.items ≡ map (λ o. (owner_in accounts.now o.script, o.value)) outputs.now) }
{
    let mut moved = Vec::with_capacity(alloc, outputs.len())?;
    for output in outputs {
        moved.push((
            owner_of_script(accounts, output.script.as_slice()),
            output.value,
        ))?;
    }
    Ok(moved)
}

// The move of a transaction that spends the outputs of these numbers.
fn move_of(alloc: Global, accounts: &[Account], tx: &Tx, spent: &[u32]) -> Result<Move, OutOfMemory>
    ensures { IfOk result (λ action. action ≡ move_by accounts.now tx.now spent.now) }
{
    Ok(Move {
        inputs: Seq::of(Vec::from_slice(alloc, spent)?),
        outputs: Seq::of(moved_outputs(alloc, accounts, tx.outputs.as_slice())?),
    })
}

// The owner of the live deposit of this number, someone outside without one.
fn owner_at(config: &Config, number: u32) -> Owner
    ensures { result ≡ calculus.owner_at config.now.deposits number }
{
    match config.deposit(number) {
        Some((owner, _)) => *owner,
        None => Owner::Outside,
    }
}

// The party as the last one, if it is new.
fn add_new(names: &mut Vec<Name>, party: &Name) -> Result<(), OutOfMemory>
    ensures { OnOk result (names.new.items ≡ with_owner names.old.items (Party party.now)) }
{
    if !names.contains(party) {
        names.push(*party)?;
    }
    Ok(())
}

// The owner as the last party, if it is a new one.
fn add_owner(names: &mut Vec<Name>, owner: Owner) -> Result<(), OutOfMemory>
    ensures { OnOk result (names.new.items ≡ with_owner names.old.items owner) }
{
    match owner {
        Owner::Party(party) => add_new(names, &party),
        Owner::Outside => Ok(()),
    }
}

// Each party that owns one of these deposits, added one by one where it is new.
fn add_owners(alloc: Global, config: &Config, numbers: &[u32]) -> Result<Vec<Name>, OutOfMemory>
    ensures { IfOk result (λ parties. parties.items ≡ with_owners [] (map (calculus.owner_at config.now.deposits) numbers.now)) }
{
    let mut names = Vec::new(alloc);
    for number in numbers {
        add_owner(&mut names, owner_at(config, *number))?;
    }
    Ok(names)
}

// Each party that owns one of these deposits, once, in the order in which they first come.
fn owners_once(alloc: Global, config: &Config, numbers: &[u32]) -> Result<Vec<Name>, OutOfMemory>
    ensures { IfOk result (λ parties. parties.items ≡ spec.parties_once (map (calculus.owner_at config.now.deposits) numbers.now)) }
{
    let names = add_owners(alloc, config, numbers)?;
    Ok(names)
}

// Each of these parties agrees to the move. There is room for one step more.
fn agreements(alloc: Global, action: &Move, parties: &[Name]) -> Result<Vec<Step>, OutOfMemory>
    ensures { IfOk result (λ agreed. agreed.items ≡ map (spec.auth_move action.now) parties.now) }
{
    let mut agreed = Vec::with_capacity(alloc, parties.len().saturating_add(1))?;
    for party in parties {
        let action = Boxed::new(alloc, action.copy(alloc)?)?;
        agreed.push(Step::AuthMove {
            party: *party,
            action,
        })?;
    }
    Ok(agreed)
}

// These parties agree, and then the move is made.
fn agreed_move(alloc: Global, parties: &[Name], action: Move) -> Result<Vec<Step>, OutOfMemory>
    ensures { IfOk result (λ made. made.items ≡ map (spec.auth_move action) parties.now ++ steps.Move action ∷ []) }
{
    let mut made = agreements(alloc, &action, parties)?;
    made.push(Step::Move { action })?;
    Ok(made)
}

// Each owner of these deposits agrees to the move of the transaction, and then it is made.
fn moved_steps(
    alloc: Global,
    config: &Config,
    accounts: &[Account],
    tx: &Tx,
    spent: &[u32],
) -> Result<Vec<Step>, OutOfMemory>
    ensures { IfOk result (λ made. made.items ≡ moved_steps accounts.now config.now.deposits tx.now spent.now) }
{
    let parties = owners_once(alloc, config, spent)?;
    let action = move_of(alloc, accounts, tx, spent)?;
    agreed_move(alloc, &parties, action)
}

/// Each party that owns an input of the transaction agrees, in the order of its first input, and then the move is made.
/// The transaction spends the outputs of these numbers.
pub fn move_steps(
    alloc: Global,
    config: &Config,
    accounts: &[Account],
    tx: &Tx,
    spent: &[u32],
) -> Result<Vec<Step>, OutOfMemory>
    ensures listed { IfOk result (λ made. made.items ≡ moved_steps accounts.now config.now.deposits tx.now spent.now) }
    ensures run { (s : Setup) (w : World) → accounts.now ≡ map (account_of s.hash) s.header.parties → AgreeOnMoney s config.now w
        → IfOk result (λ made. made.items ≡ spec.move_steps s w tx.now spent.now) }
{
    let made = moved_steps(alloc, config, accounts, tx, spent)?;
    Ok(made)
}
