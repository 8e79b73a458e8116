//! Where the transactions of contracts stand at a moment of a run.

ghost use Rattle.std.specs.Prelude.{◌≡◌, ◌==◌, ◌<◌, ◌^◌, length, map, not, ◌&&◌, ◌||◌, true, IfOk, OnOk, ◌++◌};
ghost use Rattle.std.specs.List.{list_any};
ghost use Rattle.spec_terms.specs.Precondition.{persistent};
ghost use Rattle.spec_terms.specs.Paths.{path_eq};
ghost use Rattle.spec_calculus.specs.Beginning.{pre_of, contract_at};
ghost use Rattle.spec_next.specs.Requirements as requirements;
ghost use Rattle.spec_page.specs.Moments as moments;
ghost use Rattle.spec_page.specs.Statuses as spec;

use crate::moments::Moment;
use crate::places::{Place, Taking, initial, put_takings};
use bm_calculus::Config;
use bm_offers::{Offer, offers};
use spec_calculus::Step;
use spec_data::{Name, OutOfMemory};
use spec_page::Status;
use spec_terms::{PathStep, Pre};
use spec_tool::Which;
use std::alloc::{AllocError, Global};
use std::marker::Model;

// ---- the same transaction

fn are_same_steps(one: &[PathStep], other: &[PathStep]) -> bool
    ensures { result ≡ path_eq one.now other.now }
{
    *one == *other
}

fn is_same_which(one: &Which, other: &Which) -> bool
    ensures { result ≡ moments.is_same_which one.now other.now }
{
    match (one, other) {
        (Which::Init, Which::Init) => true,
        (Which::At(path), Which::At(other)) => are_same_steps(path.steps(), other.steps()),
        (Which::Init, Which::At(_)) => false,
        (Which::At(_), Which::Init) => false,
    }
}

/// Whether these are one transaction.
pub(crate) fn is_same(one: &Taking, other: &Taking) -> bool
    ensures { result ≡ moments.is_same_move one.now other.now }
{
    one.contract == other.contract && is_same_which(&one.which, &other.which)
}

/// Whether a transaction is one of these.
pub(crate) fn is_among(taking: &Taking, takings: &[Taking]) -> bool
    ensures { result ≡ spec.is_among_moves taking.now takings.now }
{
    takings.iter().any(|other| is_same(taking, other))
}

// ---- what is offered

fn put_offered(
    alloc: Global,
    takings: &mut Vec<Taking>,
    places: &[Place],
    offers: &[Offer],
) -> Result<(), OutOfMemory>
    ensures { OnOk result (takings.new.items ≡ takings.old.items
        ++ moments.moves_by places.now (map (λ o. o.step) offers.now)) }
{
    let mut steps = Vec::new(alloc);
    for offer in offers {
        let step = offer.step.copy(alloc)?;
        steps.push(step)?;
    }
    put_takings(alloc, takings, places, &steps)
}

// How many contracts there are.
fn are_few(config: &Config) -> bool
    ensures { result ≡ true → length config.now.contracts < 2 ^ 32 }
{
    config.contracts().len() <= u32::MAX as usize
}

/// The transactions that the calculus offers.
pub(crate) fn offered(alloc: Global, moment: &Moment) -> Result<Vec<Taking>, OutOfMemory>
    ensures { IfOk result (λ takings. takings.items ≡ spec.offered moment.now) }
{
    if !are_few(&moment.config) {
        return Err(AllocError);
    }
    let list = offers(alloc, &moment.config)?;
    let mut takings = Vec::new(alloc);
    put_offered(alloc, &mut takings, &moment.places, &list)?;
    Ok(takings)
}

// ---- what is out of reach

// Whether two paths part at branches of one position.
fn parted(one: &[PathStep], other: &[PathStep]) -> bool
    ensures { result ≡ spec.parted one.now other.now }
{
    let mut left = one;
    let mut right = other;
    while let (Some((a, more)), Some((b, others))) = (left.split_first(), right.split_first()) {
        match (a, b) {
            (PathStep::Branch(i), PathStep::Branch(j)) => {
                if *i != *j {
                    return true;
                }
            }
            (PathStep::Part(k), PathStep::Part(l)) => {
                if *k != *l {
                    return false;
                }
            }
            _ => return false,
        }
        left = more;
        right = others;
    }
    false
}

fn parts_from(which: &Which, other: &Which) -> bool
    ensures { result ≡ spec.parts_from which.now other.now }
{
    match (which, other) {
        (Which::At(path), Which::At(other)) => parted(path.steps(), other.steps()),
        _ => false,
    }
}

fn leaves_no_way(taken: &Taking, taking: &Taking) -> bool
    ensures { result ≡ ((taken.now.contract == taking.now.contract) && spec.parts_from taken.now.which taking.now.which) }
{
    taken.contract == taking.contract && parts_from(&taken.which, &taking.which)
}

// Whether a transaction was taken that leaves no way to this one.
fn is_passed(taking: &Taking, taken: &[Taking]) -> bool
    ensures { result ≡ spec.is_passed taking.now taken.now }
{
    taken.iter().any(|other| leaves_no_way(other, taking))
}

/// Whether a contract has begun.
pub(crate) fn has_begun(moment: &Moment, contract: u32) -> bool
    ensures { result ≡ spec.has_begun moment.now contract }
{
    is_among(&initial(contract), &moment.taken)
}

// Whether the deposit that a name is bound to isn't gone.
fn isnt_gone(config: &Config, contract: u32, name: &Name) -> bool
    ensures { result ≡ requirements.isnt_gone config.now contract name.now }
{
    let advertised = config.is_advertised(contract);
    let there = config.is_bound_there(contract, name);
    !advertised || there
}

// Whether one of the persistent deposits of a precondition is gone.
fn is_one_gone(config: &Config, contract: u32, pre: &[Pre]) -> bool
    ensures { result ≡ list_any (λ d. not (requirements.isnt_gone config.now contract (d.0))) (persistent pre.now) }
{
    for entry in pre {
        if let Pre::Persistent { name, .. } = entry {
            if !isnt_gone(config, contract, name) {
                return true;
            }
        }
    }
    false
}

// The precondition of the contract of this number.
fn pre_there(config: &Config, contract: u32) -> &[Pre]
    ensures { result.now ≡ pre_of (contract_at config.now.contracts contract) }
{
    match config.checked(contract) {
        Some(checked) => &checked.advert().pre,
        None => &[],
    }
}

/// Whether a contract can't begin any more, since a deposit that it is bound to is gone.
pub(crate) fn is_barred(moment: &Moment, contract: u32) -> bool
    ensures { result ≡ spec.is_barred moment.now contract }
{
    if has_begun(moment, contract) {
        return false;
    }
    is_one_gone(
        &moment.config,
        contract,
        pre_there(&moment.config, contract),
    )
}

// ---- how it stands

fn is_away(moment: &Moment, taking: &Taking) -> bool
    ensures { result ≡ (spec.is_passed taking.now moment.now.taken || spec.is_barred moment.now taking.now.contract) }
{
    is_passed(taking, &moment.taken) || is_barred(moment, taking.contract)
}

/// Where a transaction stands.
pub(crate) fn taking_status(moment: &Moment, offered: &[Taking], taking: &Taking) -> Status
    requires { offered.now ≡ spec.offered moment.now }
    ensures { result ≡ spec.move_status moment.now taking.now }
{
    if is_among(taking, &moment.taken) {
        return Status::Taken;
    }
    if is_among(taking, offered) {
        return Status::Offered;
    }
    if is_away(moment, taking) {
        return Status::Gone;
    }
    Status::Open
}
