//! Initial transactions, and what they are to the contracts.

ghost use Rattle.std.specs.Prelude.{◌≡◌, ℕ, [], Some, IfOk};
ghost use Rattle.bm_world_coins.specs.Coined.{position_by};
ghost use Rattle.bm_world_fire.specs.Filled.{initial_with};

use crate::deposits::{persistent_owners, put_witnesses};
use bm_compile::Compiled;
use bm_hash::Hash32;
use bm_tx_filled::with_witnesses;
use bm_wellformed::Checked;
use bm_world_board::Purpose;
use bm_world_coins::NewPositions;
use spec_bitcoin::Tx;
use spec_compiler::Prepared;
use spec_data::{OutOfMemory, Seq};
use spec_terms::{Path, Pre};
use std::alloc::Global;

// The transaction with the witnesses of the persistent deposits of this precondition.
fn filled<H: Hash32>(
    alloc: Global,
    hasher: &H,
    pre: &[Pre],
    made: &Prepared,
) -> Result<Tx, OutOfMemory>
    ensures { IfOk result (λ tx. tx ≡ initial_with (H.digest_of hasher.now) pre.now made.now) }
{
    let owners = persistent_owners(alloc, pre)?;
    let mut witnesses = Seq::new(alloc);
    put_witnesses(
        alloc,
        hasher,
        &mut witnesses,
        owners.as_slice(),
        made.digests.as_slice(),
    )?;
    let tx = with_witnesses(alloc, &made.tx, witnesses.as_slice())?;
    Ok(tx)
}

/// The initial transaction of a contract that is compiled to this, with its witnesses.
pub(crate) fn initial_transaction<H: Hash32>(
    alloc: Global,
    hasher: &H,
    checked: &Checked,
    compiled: &Compiled,
) -> Result<Tx, OutOfMemory>
    ensures { IfOk result (λ tx. tx ≡ initial_with (H.digest_of hasher.now) checked.now.pre compiled.now.init) }
{
    let tx = filled(
        alloc,
        hasher,
        checked.advert().pre.as_slice(),
        compiled.init(),
    )?;
    Ok(tx)
}

/// What the initial transaction of this contract is to the contracts.
pub(crate) fn initial_purpose(alloc: Global, contract: u32) -> Purpose
    ensures positions { (k : ℕ) → position_by result.positions k ≡ Some (record { contract = contract; position = [] }) }
    ensures begins { result.begins ≡ Some contract }
{
    Purpose {
        positions: NewPositions::Same {
            contract,
            position: Path::of(Vec::new(alloc)),
        },
        begins: Some(contract),
    }
}
