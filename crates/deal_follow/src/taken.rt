//! The steps that a confirmed transaction stands for, and the deposits that it takes from a deal.

ghost use Rattle.std.specs.Prelude.{◌≡◌, ◌++◌, Some, map, filter, option_map, IfOk, OnOk};
ghost use Rattle.spec_terms.specs.Core.{is_asked};
ghost use Rattle.spec_terms.specs.Precondition.{persistent};
ghost use Rattle.spec_deal.specs.Needed.{deal_contract};
ghost use Rattle.spec_run.specs.Steps as steps;
ghost use Rattle.spec_chain.specs.Following as spec;
ghost use Rattle.spec_chain.specs.Outputs.{output_there as there};
ghost use Rattle.bm_syntax.specs.View.{guarded};
ghost use Rattle.deal_follow.specs.Boards.{setting};
ghost use Rattle.deal_follow.specs.Spending.{first_number, names_spent};
ghost use Rattle.deal_follow.specs.Seen.{state_in, step_of};

use crate::board::Board;
use crate::event::Deed;
use crate::spots::same_place;
use crate::standing::Standing;
use crate::which::selected;
use bm_syntax::{Guarded, asks, at, core};
use spec_bitcoin::{OutPoint, Tx, TxIn};
use spec_chain::{Held, Output};
use spec_data::{Name, OutOfMemory};
use spec_terms::{Path, Pre};
use spec_tool::Which;
use std::alloc::Global;

// The one of these outputs that lies there.
fn output_there<'a>(outputs: &'a [Output], place: &OutPoint) -> Option<&'a Output>
    ensures { option_map (λ o. o.now) result ≡ there outputs.now place.now }
{
    for output in outputs {
        if same_place(&output.place, place) {
            return Some(output);
        }
    }
    None
}

// ---- steps

// Whoever holds a secret that is shown reveals it.
fn put_reveals(deeds: &mut Vec<Deed>, secrets: &[(Name, Name)]) -> Result<(), OutOfMemory>
    ensures { OnOk result (map step_of deeds.new.items ≡ map step_of deeds.old.items ++ spec.reveal_steps secrets.now) }
{
    for (secret, party) in secrets {
        deeds.push(Deed::Reveal(*party, *secret))?;
    }
    Ok(())
}

// Each owner lets the contract take its persistent deposits.
fn put_auth_inits(deeds: &mut Vec<Deed>, pre: &[Pre]) -> Result<(), OutOfMemory>
    ensures { OnOk result (map step_of deeds.new.items ≡ map step_of deeds.old.items ++ steps.auth_inits deal_contract (persistent pre.now)) }
{
    for entry in pre {
        if let Pre::Persistent { party, name, .. } = entry {
            deeds.push(Deed::AuthInit(*party, *name))?;
        }
    }
    Ok(())
}

// And the contract begins.
fn put_begin(deeds: &mut Vec<Deed>, board: &Board) -> Result<(), OutOfMemory>
    ensures { OnOk result (map step_of deeds.new.items ≡ map step_of deeds.old.items ++ spec.begin_steps (setting board.now)) }
{
    put_auth_inits(deeds, &board.checked.advert().pre)?;
    deeds.push(Deed::Init)?;
    Ok(())
}

// The participants whom a branch asks agree to it.
fn put_agreements(
    deeds: &mut Vec<Deed>,
    parties: &[Name],
    output: u32,
    number: u32,
    branch: &Guarded,
) -> Result<(), OutOfMemory>
    ensures { OnOk result (map step_of deeds.new.items ≡ map step_of deeds.old.items
        ++ map (steps.auth_branch output number) (filter (is_asked (guarded branch.now)) parties.now)) }
{
    for party in parties {
        if asks(branch, party) {
            deeds.push(Deed::AuthBranch(*party, output, number))?;
        }
    }
    Ok(())
}

// The step that a core is.
fn put_core(
    deeds: &mut Vec<Deed>,
    output: u32,
    number: u32,
    core: &Guarded,
) -> Result<(), OutOfMemory>
    ensures { OnOk result (map step_of deeds.new.items ≡ map step_of deeds.old.items ++ steps.core_step output number (guarded core.now)) }
{
    match core {
        Guarded::PutReveal { .. } => {
            deeds.push(Deed::PutReveal(output, number))?;
            Ok(())
        }
        Guarded::Withdraw { .. } => {
            deeds.push(Deed::Withdraw(output, number))?;
            Ok(())
        }
        Guarded::Split { .. } => {
            deeds.push(Deed::Split(output, number))?;
            Ok(())
        }
        _ => Ok(()),
    }
}

// A branch is taken.
fn put_branch(
    deeds: &mut Vec<Deed>,
    board: &Board,
    output: u32,
    number: u32,
    branch: Option<&Guarded>,
) -> Result<(), OutOfMemory>
    ensures { OnOk result (map step_of deeds.new.items ≡ map step_of deeds.old.items
        ++ spec.branch_steps (setting board.now) output number (option_map (λ b. guarded b.now) branch.entry)) }
{
    let Some(branch) = branch else {
        return Ok(());
    };
    put_agreements(deeds, board.checked.parties(), output, number, branch)?;
    put_core(deeds, output, number, core(branch))
}

// The number of the output that the first input spends.
fn first_spent(live: &[Output], inputs: &[TxIn]) -> u32
    ensures { result ≡ first_number live.now inputs.now }
{
    let Some(input) = inputs.first() else {
        return 0;
    };
    match output_there(live, &input.prev) {
        Some(output) => output.number,
        None => 0,
    }
}

// The branch at a path is taken.
fn put_path(
    alloc: Global,
    deeds: &mut Vec<Deed>,
    board: &Board,
    standing: &Standing,
    tx: &Tx,
    path: &Path,
) -> Result<(), OutOfMemory>
    ensures { OnOk result (map step_of deeds.new.items ≡ map step_of deeds.old.items
        ++ spec.which_steps (setting board.now) (state_in standing.now) tx.now (Some (Which.At path.now))) }
{
    let number = selected(alloc, board, tx, path)?;
    let output = first_spent(&standing.live, tx.inputs.as_slice());
    let branch = at(&board.checked.advert().root, path);
    put_branch(deeds, board, output, number, branch)
}

// The steps of a transaction of this name.
fn put_which(
    alloc: Global,
    deeds: &mut Vec<Deed>,
    board: &Board,
    standing: &Standing,
    tx: &Tx,
    which: &Option<Which>,
) -> Result<(), OutOfMemory>
    ensures { OnOk result (map step_of deeds.new.items ≡ map step_of deeds.old.items
        ++ spec.which_steps (setting board.now) (state_in standing.now) tx.now which.now) }
{
    match which {
        Some(Which::Init) => put_begin(deeds, board),
        Some(Which::At(path)) => put_path(alloc, deeds, board, standing, tx, path),
        None => Ok(()),
    }
}

/// The steps of a transaction, by which of the deal's it is and the secrets that it is the first to show: these are revealed first.
pub(crate) fn deeds_of(
    alloc: Global,
    board: &Board,
    standing: &Standing,
    tx: &Tx,
    which: &Option<Which>,
    secrets: &[(Name, Name)],
) -> Result<Vec<Deed>, OutOfMemory>
    ensures { IfOk result (λ deeds. map step_of deeds.items
        ≡ spec.reveal_steps secrets.now ++ spec.which_steps (setting board.now) (state_in standing.now) tx.now which.now) }
{
    let mut deeds = Vec::new(alloc);
    put_reveals(&mut deeds, secrets)?;
    put_which(alloc, &mut deeds, board, standing, tx, which)?;
    Ok(deeds)
}

// ---- what it takes from the deal

// The name of an output that is a deposit.
fn put_deposit(names: &mut Vec<Name>, output: Option<&Output>) -> Result<(), OutOfMemory>
    ensures { OnOk result (names.new.items ≡ names.old.items ++ spec.deposit_name (option_map (λ o. o.now) output.entry)) }
{
    let Some(output) = output else {
        return Ok(());
    };
    match &output.held {
        Held::Deposit(name) => {
            names.push(*name)?;
            Ok(())
        }
        Held::Position(_) => Ok(()),
        Held::Payout(_) => Ok(()),
    }
}

// The deposits that these inputs spend.
fn deposits_spent(alloc: Global, live: &[Output], inputs: &[TxIn]) -> Result<Vec<Name>, OutOfMemory>
    ensures { IfOk result (λ names. names.items ≡ names_spent live.now inputs.now) }
{
    let mut names = Vec::new(alloc);
    for input in inputs {
        put_deposit(&mut names, output_there(live, &input.prev))?;
    }
    Ok(names)
}

/// What another transaction than the deal's spends is gone.
pub(crate) fn gone_by(
    alloc: Global,
    standing: &Standing,
    tx: &Tx,
    which: &Option<Which>,
) -> Result<Vec<Name>, OutOfMemory>
    ensures { IfOk result (λ names. names.items ≡ spec.gone_by (state_in standing.now) tx.now which.now) }
{
    match which {
        Some(_) => Ok(Vec::new(alloc)),
        None => deposits_spent(alloc, &standing.live, tx.inputs.as_slice()),
    }
}
