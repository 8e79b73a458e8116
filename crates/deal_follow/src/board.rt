//! A compiled deal, with what is looked up in it.

ghost use Rattle.std.specs.Prelude.{◌≡◌, map, IfOk};
ghost use Rattle.spec_deal.specs.Setting.{deal_instance};
ghost use Rattle.spec_chain.specs.Outputs as outputs;
ghost use Rattle.deal_follow.specs.Boards.{place_in, place_of, IsBoard, IsOf};

use crate::known::{Known, known_by};
use crate::outputs::{deposit_outputs, made_by};
use crate::spots::{Spot, put_positions, spots_of};
use bm_wellformed::Checked;
use deal_index::Indexed;
use spec_data::OutOfMemory;
use spec_deal::{Deal, Transaction};
use std::alloc::Global;

/// A contract with its deal and its transactions, each found by its bytes, and the places of its deposits and of its positions.
pub(crate) struct Board<'a> {
    pub(crate) checked: &'a Checked,
    pub(crate) deal: &'a Deal,
    pub(crate) transactions: &'a [Transaction],
    pub(crate) known: Indexed<Known>,
    pub(crate) deposits: Indexed<Spot>,
    pub(crate) positions: Indexed<Spot>,
}

impl Drop for Board<'_> {
    fn drop(self) {
        let Board {
            checked: _,
            deal: _,
            transactions: _,
            known: _,
            deposits: _,
            positions: _,
        } = self;
    }
}

// The places of the positions that the transactions make.
#[tactic(auto, using(crate::proofs::PlaceLemmas::first_positions, std::proofs::Common::append_assoc))]
fn position_spots(
    alloc: Global,
    checked: &Checked,
    transactions: &[Transaction],
) -> Result<Indexed<Spot>, OutOfMemory>
    ensures { IfOk result (λ spots. map place_in spots ≡ map place_of (outputs.position_outputs checked.now transactions.now)) }
{
    let mut spots = Indexed::new(alloc);
    for transaction in transactions {
        let made = made_by(alloc, checked, 0, transaction)?;
        put_positions(alloc, &mut spots, &made)?;
    }
    Ok(spots)
}

// The places of the deposits.
fn deposit_spots(
    alloc: Global,
    checked: &Checked,
    deal: &Deal,
) -> Result<Indexed<Spot>, OutOfMemory>
    ensures { IfOk result (λ spots. map place_in spots ≡ map place_of (outputs.deposit_outputs (deal_instance checked.now deal.now))) }
{
    let deposits = deposit_outputs(alloc, checked, deal)?;
    spots_of(alloc, &deposits)
}

impl<'a> Board<'a> {
    /// The board of a contract, its deal and its transactions.
    pub(crate) fn of(
        alloc: Global,
        checked: &'a Checked,
        deal: &'a Deal,
        transactions: &'a [Transaction],
    ) -> Result<Board<'a>, OutOfMemory>
        ensures board { IfOk result IsBoard }
        ensures parts { IfOk result (IsOf checked.now deal.now transactions.now) }
    {
        let known = known_by(alloc, transactions)?;
        let deposits = deposit_spots(alloc, checked, deal)?;
        let positions = position_spots(alloc, checked, transactions)?;
        Ok(Board {
            checked,
            deal,
            transactions,
            known,
            deposits,
            positions,
        })
    }
}
