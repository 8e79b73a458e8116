//! Sums of a contract, and whom a branch pays.

ghost use Rattle.std.specs.Prelude.{◌≡◌, ◌++◌, ◌∷◌, [], option_map, IfOk, OnOk};
ghost use Rattle.spec_data.specs.Lists.{look_up};
ghost use Rattle.spec_terms.specs.Precondition as pre_of;
ghost use Rattle.bm_syntax.specs.View.{guarded, contract, choice_view, parts_view};
ghost use Rattle.spec_page.specs.Ways as spec;

use crate::figures::{added, plus};
use bm_syntax::{Advert, Contract, Guarded, Name, Part, Path, PathStep, Pre, longer};
use spec_data::{OutOfMemory, Seq};
use spec_page::{Payment, Stake};
use std::alloc::Global;

/// The deposits of a precondition, in order.
#[tactic(auto, using(std::proofs::Common::append_assoc))]
pub(crate) fn stakes(alloc: Global, pre: &[Pre]) -> Result<Seq<Stake>, OutOfMemory>
    ensures { IfOk result (λ list. list ≡ spec.stakes pre.now) }
{
    let mut list = Seq::new(alloc);
    for entry in pre {
        match entry {
            Pre::Persistent { party, value, .. } => list.push(Stake {
                party: *party,
                value: *value,
                volatile: false,
            })?,
            Pre::Volatile { party, value, .. } => list.push(Stake {
                party: *party,
                value: *value,
                volatile: true,
            })?,
            Pre::Secret { .. } => {}
        }
    }
    Ok(list)
}

fn persistent_value(entry: &Pre) -> u64
    ensures { result ≡ pre_of.total_of (pre_of.persistent (entry.now ∷ [])) }
{
    match entry {
        Pre::Persistent { value, .. } => *value,
        _ => 0,
    }
}

fn persistent_total(pre: &[Pre]) -> Result<u64, OutOfMemory>
    ensures { IfOk result (λ total. total ≡ pre_of.total_of (pre_of.persistent pre.now)) }
{
    let mut total = 0u64;
    for entry in pre {
        total = added(total, persistent_value(entry))?;
    }
    Ok(total)
}

/// What a contract begins with.
pub(crate) fn first_value(advert: &Advert) -> Result<u64, OutOfMemory>
    ensures { IfOk result (λ value. value ≡ spec.first_value advert.now) }
{
    let total = persistent_total(&advert.pre)?;
    Ok(total.saturating_sub(advert.fee))
}

// The value of the volatile deposit of this name, 0 without one.
fn volatile_value(pre: &[Pre], deposit: &Name) -> u64
    ensures { result ≡ pre_of.value_of (look_up deposit.now (pre_of.volatile pre.now)) }
{
    for entry in pre {
        if let Pre::Volatile { value, name, .. } = entry {
            if *name == *deposit {
                return *value;
            }
        }
    }
    0
}

fn value_of_puts(pre: &[Pre], puts: &[Name]) -> Result<u64, OutOfMemory>
    ensures { IfOk result (λ total. total ≡ pre_of.value_of_puts (pre_of.volatile pre.now) puts.now) }
{
    let mut total = 0u64;
    for name in puts {
        total = added(total, volatile_value(pre, name))?;
    }
    Ok(total)
}

/// What is there after a put of these deposits.
pub(crate) fn value_after(advert: &Advert, value: u64, puts: &[Name]) -> Result<u64, OutOfMemory>
    ensures { IfOk result (λ after. after ≡ spec.value_after advert.now value puts.now) }
{
    let more = value_of_puts(&advert.pre, puts)?;
    let sum = added(value, more)?;
    Ok(sum.saturating_sub(advert.fee))
}

fn payee(branch: &Guarded) -> Option<Name>
    ensures { result ≡ spec.payee (guarded branch.now) }
{
    match branch {
        Guarded::Withdraw { party } => Some(*party),
        _ => None,
    }
}

/// The party whom a position pays that is left to anyone and does nothing else.
pub(crate) fn sole_payee(branches: &[Guarded]) -> Option<Name>
    ensures { result ≡ spec.sole_payee (choice_view branches.now) }
{
    match branches.split_first() {
        None => None,
        Some((first, others)) => match others.split_first() {
            None => payee(first),
            Some(_) => None,
        },
    }
}

// What the branch at a path pays of this value.
fn put_payment(
    alloc: Global,
    payments: &mut Seq<Payment>,
    advert: &Advert,
    path: &Path,
    value: u64,
    party: &Name,
) -> Result<(), OutOfMemory>
    ensures { OnOk result (payments.new ≡ payments.old ++ spec.payment advert.now path.now value party.now ∷ []) }
{
    let path = path.copy(alloc)?;
    payments.push(Payment {
        party: *party,
        value: value.saturating_sub(advert.fee),
        path,
    })?;
    Ok(())
}

fn put_payments_to(
    alloc: Global,
    payments: &mut Seq<Payment>,
    advert: &Advert,
    position: &Path,
    value: u64,
    party: &Option<Name>,
) -> Result<(), OutOfMemory>
    ensures { OnOk result (payments.new ≡ payments.old ++ spec.payments_to advert.now position.now value party.now) }
{
    match party {
        None => Ok(()),
        Some(party) => {
            let path = longer(alloc, position, PathStep::Branch(0))?;
            put_payment(alloc, payments, advert, &path, value, party)
        }
    }
}

// What a position pays of this value that pays alone.
fn put_sole_payments(
    alloc: Global,
    payments: &mut Seq<Payment>,
    advert: &Advert,
    position: &Path,
    value: u64,
    choice: &Contract,
) -> Result<(), OutOfMemory>
    ensures { OnOk result (payments.new ≡ payments.old ++ spec.sole_payments advert.now position.now value (contract choice.now)) }
{
    let party = sole_payee(&choice.branches);
    put_payments_to(alloc, payments, advert, position, value, &party)
}

// And the parts of the split at a path.
#[tactic(auto, using(std::proofs::Common::append_assoc))]
fn put_parts_payments(
    alloc: Global,
    payments: &mut Seq<Payment>,
    advert: &Advert,
    path: &Path,
    parts: &[Part],
) -> Result<(), OutOfMemory>
    ensures { OnOk result (payments.new ≡ payments.old ++ spec.parts_payments advert.now path.now 0 (parts_view parts.now)) }
{
    let mut number = 0u32;
    for part in parts {
        let position = longer(alloc, path, PathStep::Part(number))?;
        put_sole_payments(alloc, payments, advert, &position, part.value, &part.next)?;
        number = plus(number, 1)?;
    }
    Ok(())
}

/// Whom a core at a path pays of this value, or what it leads to.
pub(crate) fn payments_of(
    alloc: Global,
    advert: &Advert,
    path: &Path,
    value: u64,
    core: &Guarded,
) -> Result<Seq<Payment>, OutOfMemory>
    ensures { IfOk result (λ payments. payments ≡ spec.payments_of advert.now path.now value (guarded core.now)) }
{
    let mut payments = Seq::new(alloc);
    match core {
        Guarded::PutReveal { puts, next, .. } => {
            let after = value_after(advert, value, puts)?;
            put_sole_payments(alloc, &mut payments, advert, path, after, next)?;
        }
        Guarded::Withdraw { party } => {
            put_payment(alloc, &mut payments, advert, path, value, party)?;
        }
        Guarded::Split { parts } => {
            put_parts_payments(alloc, &mut payments, advert, path, parts)?;
        }
        _ => {}
    }
    Ok(payments)
}
