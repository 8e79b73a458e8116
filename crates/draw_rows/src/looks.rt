//! Where each part of the contracts stands at a moment of a run.

ghost use Rattle.std.specs.Prelude.{◌≡◌, ◌++◌, ◌∷◌, [], map, flat_map, option_map, IfOk, OnOk};
ghost use Rattle.spec_tool.specs.declared.which.Which.TheVariants.{Init, At};
ghost use Rattle.bm_syntax.specs.View.{guarded};
ghost use Rattle.spec_calculus.specs.Branches.{is_revealed};
ghost use Rattle.spec_page.specs.Moments.{move};
ghost use Rattle.spec_page.specs.Statuses as spec;
ghost use Rattle.draw_rows.specs.Looked.{looks_in, all_looks};

use crate::figures::plus;
use crate::moments::Moment;
use crate::places::{Agreement, Taking, at_path, initial};
use crate::predicates::test_status;
use crate::standing::{is_among, is_same, taking_status};
use crate::ways::way_rows;
use bm_calculus::Config;
use bm_syntax::{Advert, Guarded, Path, Pre, at};
use bm_wellformed::Checked;
use spec_data::{Name, OutOfMemory, Seq};
use spec_page::{Condition, Payment, Status, WayRow};
use spec_tool::Which;
use std::alloc::Global;
use std::marker::Model;

// ---- conditions

fn met_if(met: bool) -> Status
    ensures { result ≡ spec.met_if met }
{
    if met { Status::Met } else { Status::Open }
}

// Whether an agreement is this party's to this transaction.
fn is_agreement(agreement: &Agreement, taking: &Taking, party: &Name) -> bool
    ensures { result ≡ spec.is_agreement taking.now party.now agreement.now }
{
    agreement.party == *party && is_same(taking, &agreement.taking)
}

fn has_agreed(moment: &Moment, taking: &Taking, party: &Name) -> bool
    ensures { result ≡ spec.has_agreed moment.now taking.now party.now }
{
    for agreement in &moment.agreed {
        if is_agreement(agreement, taking, party) {
            return true;
        }
    }
    false
}

fn bound_status(taken: bool, bound: bool, there: bool) -> Status
    ensures { result ≡ spec.bound_status taken bound there }
{
    match (taken, bound, there) {
        (true, _, _) => Status::Met,
        (false, false, _) => Status::Open,
        (false, true, true) => Status::Met,
        (false, true, false) => Status::Gone,
    }
}

fn put_status(moment: &Moment, taking: &Taking, deposit: &Name) -> Status
    ensures { result ≡ spec.put_status moment.now taking.now deposit.now }
{
    let taken = is_among(taking, &moment.taken);
    let bound = moment.config.is_advertised(taking.contract);
    let there = moment.config.is_bound_there(taking.contract, deposit);
    bound_status(taken, bound, there)
}

// Whether a party's secret is revealed.
fn is_shown(config: &Config, contract: u32, party: &Name, secret: &Name) -> bool
    ensures { result ≡ is_revealed config.now.revealed contract party.now secret.now }
{
    let only = [Pre::Secret {
        party: *party,
        name: *secret,
    }];
    config.is_revealed(contract, &only, secret)
}

fn branch_of<'a>(advert: &'a Advert, which: &Which) -> Option<&'a Guarded>
    ensures { option_map (λ b. guarded b.now) result ≡ spec.branch_of advert.now which.now }
{
    match which {
        Which::Init => None,
        Which::At(path) => at(&advert.root, path),
    }
}

// A condition of a transaction.
fn condition_status(
    alloc: Global,
    moment: &Moment,
    advert: &Advert,
    taking: &Taking,
    condition: &Condition,
) -> Result<Status, OutOfMemory>
    ensures { IfOk result (λ s. s ≡ spec.condition_status moment.now advert.now taking.now condition.now) }
{
    match condition {
        Condition::Agrees(party) => Ok(met_if(has_agreed(moment, taking, party))),
        Condition::Block(height) => Ok(met_if(*height <= moment.config.time())),
        Condition::Puts { deposit, .. } => Ok(put_status(moment, taking, deposit)),
        Condition::Shows { party, secret } => {
            Ok(met_if(is_shown(&moment.config, taking.contract, party, secret)))
        }
        Condition::Holds(_) => {
            let branch = branch_of(advert, &taking.which);
            test_status(alloc, &moment.config, taking.contract, advert, branch)
        }
    }
}

#[tactic(auto, using(std::proofs::Common::append_assoc))]
fn put_conditions(
    alloc: Global,
    looks: &mut Seq<Status>,
    moment: &Moment,
    advert: &Advert,
    taking: &Taking,
    conditions: &[Condition],
) -> Result<(), OutOfMemory>
    ensures { OnOk result (looks.new ≡ looks.old
        ++ spec.condition_statuses moment.now advert.now taking.now conditions.now) }
{
    for condition in conditions {
        let status = condition_status(alloc, moment, advert, taking, condition)?;
        looks.push(status)?;
    }
    Ok(())
}

// ---- all that has a look

#[tactic(auto, using(std::proofs::Common::append_assoc))]
fn put_payments(
    alloc: Global,
    looks: &mut Seq<Status>,
    moment: &Moment,
    offered: &[Taking],
    contract: u32,
    payments: &[Payment],
) -> Result<(), OutOfMemory>
    requires { offered.now ≡ spec.offered moment.now }
    ensures { OnOk result (looks.new ≡ looks.old ++ spec.payment_statuses moment.now contract payments.now) }
{
    for payment in payments {
        let taking = at_path(alloc, contract, &payment.path)?;
        looks.push(taking_status(moment, offered, &taking))?;
    }
    Ok(())
}

// A branch, its conditions, its payments.
#[tactic(auto, using(std::proofs::Common::append_assoc))]
fn put_way(
    alloc: Global,
    looks: &mut Seq<Status>,
    moment: &Moment,
    offered: &[Taking],
    contract: u32,
    advert: &Advert,
    path: &Path,
    conditions: &[Condition],
    payments: &[Payment],
) -> Result<(), OutOfMemory>
    requires { offered.now ≡ spec.offered moment.now }
    ensures { OnOk result (looks.new ≡ looks.old ++ (spec.move_status moment.now (move contract (At path.now))
        ∷ (spec.condition_statuses moment.now advert.now (move contract (At path.now)) conditions.now
        ++ spec.payment_statuses moment.now contract payments.now))) }
{
    let taking = at_path(alloc, contract, path)?;
    looks.push(taking_status(moment, offered, &taking))?;
    put_conditions(alloc, looks, moment, advert, &taking, conditions)?;
    put_payments(alloc, looks, moment, offered, contract, payments)
}

fn put_row(
    alloc: Global,
    looks: &mut Seq<Status>,
    moment: &Moment,
    offered: &[Taking],
    contract: u32,
    advert: &Advert,
    row: &WayRow,
) -> Result<(), OutOfMemory>
    requires { offered.now ≡ spec.offered moment.now }
    ensures { OnOk result (looks.new ≡ looks.old ++ spec.row_looks moment.now contract advert.now row.now) }
{
    match row {
        WayRow::Choice { .. } => Ok(()),
        WayRow::Way {
            path,
            conditions,
            payments,
            ..
        } => put_way(
            alloc,
            looks,
            moment,
            offered,
            contract,
            advert,
            path,
            conditions.as_slice(),
            payments.as_slice(),
        ),
    }
}

#[tactic(auto, using(std::proofs::Common::append_assoc))]
fn put_rows(
    alloc: Global,
    looks: &mut Seq<Status>,
    moment: &Moment,
    offered: &[Taking],
    contract: u32,
    advert: &Advert,
    rows: &[WayRow],
) -> Result<(), OutOfMemory>
    requires { offered.now ≡ spec.offered moment.now }
    ensures { OnOk result (looks.new ≡ looks.old ++ flat_map (spec.row_looks moment.now contract advert.now) rows.now) }
{
    for row in rows {
        put_row(alloc, looks, moment, offered, contract, advert, row)?;
    }
    Ok(())
}

// The initial transaction of a contract, and these rows.
#[tactic(auto, using(std::proofs::Common::append_assoc))]
fn put_all(
    alloc: Global,
    looks: &mut Seq<Status>,
    moment: &Moment,
    offered: &[Taking],
    contract: u32,
    advert: &Advert,
    rows: &[WayRow],
) -> Result<(), OutOfMemory>
    requires { offered.now ≡ spec.offered moment.now }
    ensures { OnOk result (looks.new ≡ looks.old ++ (spec.move_status moment.now (move contract Init)
        ∷ flat_map (spec.row_looks moment.now contract advert.now) rows.now)) }
{
    looks.push(taking_status(moment, offered, &initial(contract)))?;
    put_rows(alloc, looks, moment, offered, contract, advert, rows)
}

// All rows of a contract.
#[tactic(auto, unfolding(crate::specs::Looked::looks_in))]
fn put_sheet(
    alloc: Global,
    looks: &mut Seq<Status>,
    moment: &Moment,
    offered: &[Taking],
    contract: u32,
    checked: &Checked,
) -> Result<(), OutOfMemory>
    requires { offered.now ≡ spec.offered moment.now }
    ensures { OnOk result (looks.new ≡ looks.old ++ looks_in moment.now contract checked.now) }
{
    let advert = checked.advert();
    let rows = way_rows(alloc, advert)?;
    put_all(
        alloc,
        looks,
        moment,
        offered,
        contract,
        advert,
        rows.as_slice(),
    )
}

#[tactic(auto, using(std::proofs::Common::append_assoc))]
fn all_looks(
    alloc: Global,
    moment: &Moment,
    offered: &[Taking],
    contracts: &[Checked],
) -> Result<Seq<Status>, OutOfMemory>
    requires { offered.now ≡ spec.offered moment.now }
    ensures { IfOk result (λ looks. looks ≡ all_looks moment.now 0 contracts.now) }
{
    let mut looks = Seq::new(alloc);
    let mut number = 0u32;
    for checked in contracts {
        put_sheet(alloc, &mut looks, moment, offered, number, checked)?;
        number = plus(number, 1)?;
    }
    Ok(looks)
}

/// Where all parts of these contracts stand.
#[tactic(auto, using(crate::proofs::Lists::looks_are))]
pub(crate) fn looks_of(
    alloc: Global,
    moment: &Moment,
    offered: &[Taking],
    contracts: &[Checked],
) -> Result<Seq<Status>, OutOfMemory>
    requires { offered.now ≡ spec.offered moment.now }
    ensures { IfOk result (λ looks. looks ≡ spec.looks_from moment.now 0 contracts.now) }
{
    all_looks(alloc, moment, offered, contracts)
}
