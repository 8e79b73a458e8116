//! A branch of what a live contract output holds that is to be taken, and what its transaction is to the contracts.

ghost use Rattle.std.specs.Prelude.{◌≡◌, ℕ, Some, None, slice_get, is_some, true, IfOk};
ghost use Rattle.bm_syntax.specs.View.{guarded};
ghost use Rattle.spec_terms.specs.Core.{core as core_of};
ghost use Rattle.spec_run.specs.Ledger as ledger;
ghost use Rattle.bm_world_coins.specs.Coined.{position_by};
ghost use Rattle.bm_world_board.specs.Compiling.{compiled_at};
ghost use Rattle.bm_world_fire.specs.Taken.{IsTaking};

use bm_compile::Compiled;
use bm_syntax::{Guarded, core};
use bm_wellformed::Checked;
use bm_world_board::{Board, Purpose};
use bm_world_coins::{HeldPosition, NewPositions};
use spec_data::{Name, OutOfMemory, Seq};
use spec_terms::Path;
use std::alloc::Global;

/// A branch of what a live contract output holds, with all that its transaction is made of: its number and its path, its
/// contract, what that is compiled to, and the digests of the contract's secrets.
#[derive(Drop)]
pub(crate) struct Taking<'a> {
    pub(crate) held: &'a HeldPosition,
    pub(crate) number: u32,
    pub(crate) branch: &'a Guarded,
    pub(crate) path: Path,
    pub(crate) checked: &'a Checked,
    pub(crate) compiled: &'a Compiled,
    pub(crate) hashes: Seq<(Name, [u8; 32])>,
}

/// The branch of this number of what is held, with what is known of it. Its contract is compiled.
pub(crate) fn taking_of<'a>(
    alloc: Global,
    board: &'a Board,
    held: &'a HeldPosition,
    number: u32,
    branch: &'a Guarded,
) -> Result<Taking<'a>, OutOfMemory>
    requires contract { is_some (slice_get board.now.contracts held.now.contract) ≡ true }
    requires compiled { is_some (compiled_at board.now.compiled held.now.contract) ≡ true }
    ensures held { IfOk result (λ t. t.held.now ≡ held.now) }
    ensures number { IfOk result (λ t. t.number ≡ number) }
    ensures branch { IfOk result (λ t. t.branch.now ≡ branch.now) }
    ensures taking { IfOk result (IsTaking board.now) }
{
    let Some(checked) = board.contract(held.contract()) else {
        unreachable!()
    };
    let Some(compiled) = board.compiled(held.contract()) else {
        unreachable!()
    };
    let path = held.path_of(alloc, number)?;
    let hashes = board.exchange.all_digests(held.contract())?;
    Ok(Taking {
        held,
        number,
        branch,
        path,
        checked,
        compiled,
        hashes,
    })
}

// What the outputs of the transaction of a branch stand for that has this core.
fn positions_of_core(
    alloc: Global,
    contract: u32,
    path: &Path,
    core: &Guarded,
) -> Result<NewPositions, OutOfMemory>
    ensures { IfOk result (λ p. (k : ℕ) → position_by p k ≡ ledger.core_holds contract path.now (guarded core.now) k) }
{
    match core {
        Guarded::PutReveal { .. } => Ok(NewPositions::Same {
            contract,
            position: path.copy(alloc)?,
        }),
        Guarded::Split { .. } => Ok(NewPositions::Parts {
            contract,
            path: path.copy(alloc)?,
        }),
        _ => Ok(NewPositions::Deposits),
    }
}

/// What the transaction of a branch is to the contracts.
pub(crate) fn branch_purpose(alloc: Global, taking: &Taking) -> Result<Purpose, OutOfMemory>
    ensures positions { IfOk result (λ p. (k : ℕ) → position_by p.positions k
        ≡ ledger.branch_holds taking.now.held.now.contract taking.now.path (Some (guarded taking.now.branch.now)) k) }
    ensures begins { IfOk result (λ p. p.begins ≡ None) }
{
    let contract = taking.held.contract();
    let positions = positions_of_core(alloc, contract, &taking.path, core(taking.branch))?;
    Ok(Purpose {
        positions,
        begins: None,
    })
}
