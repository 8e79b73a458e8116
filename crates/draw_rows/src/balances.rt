//! Where the money is at a moment of a run. Sums of more than 64 bits, which no run has, count as out of memory.

ghost use Rattle.std.specs.Prelude.{◌≡◌, [], map, flat_map, sum_by, IfOk, OnOk};
ghost use Rattle.spec_terms.specs.Parties.{add_all, participants};
ghost use Rattle.spec_calculus.specs.Same.{owner_eq};
ghost use Rattle.spec_calculus.specs.declared.step.Owner.TheVariants.{Party};
ghost use Rattle.spec_page.specs.Balances as spec;

use crate::figures::added;
use bm_calculus::{Config, Owner};
use bm_syntax::add_new;
use bm_wellformed::Checked;
use spec_calculus::{ActiveContract, Deposit};
use spec_data::{Name, OutOfMemory, Seq};
use spec_page::Money;
use std::alloc::Global;
use std::collections::VecDeque;

// ---- who has a column

fn add_parties(names: &mut Vec<Name>, parties: &[Name]) -> Result<(), OutOfMemory>
    ensures { OnOk result (names.new.items ≡ add_all names.old.items parties.now) }
{
    for party in parties {
        add_new(names, party)?;
    }
    Ok(())
}

/// The participants of these contracts, each once.
#[tactic(auto, using(crate::proofs::Lists::add_more))]
pub(crate) fn columns(alloc: Global, contracts: &[Checked]) -> Result<Vec<Name>, OutOfMemory>
    ensures { IfOk result (λ names. names.items ≡ add_all [] (flat_map participants contracts.now)) }
{
    let mut names = Vec::new(alloc);
    for checked in contracts {
        add_parties(&mut names, checked.parties())?;
    }
    Ok(names)
}

// ---- sums

fn is_of(owner: &Owner, party: &Name) -> bool
    ensures { result ≡ owner_eq owner.now (Party party.now) }
{
    match owner {
        Owner::Party(name) => *name == *party,
        Owner::Outside => false,
    }
}

// What a party has.
fn held_by(deposits: &VecDeque<Deposit>, party: &Name) -> Result<u64, OutOfMemory>
    ensures { IfOk result (λ sum. sum ≡ spec.held_by deposits.now.items party.now) }
{
    let mut sum = 0u64;
    for deposit in deposits {
        if is_of(&deposit.owner, party) {
            sum = added(sum, deposit.value)?;
        }
    }
    Ok(sum)
}

fn all_deposits(deposits: &VecDeque<Deposit>) -> Result<u64, OutOfMemory>
    ensures { IfOk result (λ sum. sum ≡ sum_by (λ d. d.value) deposits.now.items) }
{
    let mut sum = 0u64;
    for deposit in deposits {
        sum = added(sum, deposit.value)?;
    }
    Ok(sum)
}

fn all_contracts(active: &[ActiveContract]) -> Result<u64, OutOfMemory>
    ensures { IfOk result (λ sum. sum ≡ sum_by (λ a. a.balance) active.now) }
{
    let mut sum = 0u64;
    for contract in active {
        sum = added(sum, contract.balance)?;
    }
    Ok(sum)
}

/// What the header's deposits are worth.
pub(crate) fn all_money(deposits: &[(Name, u64)]) -> Result<u64, OutOfMemory>
    ensures { IfOk result (λ sum. sum ≡ sum_by (λ d. d.1) deposits.now) }
{
    let mut sum = 0u64;
    for deposit in deposits {
        sum = added(sum, deposit.1)?;
    }
    Ok(sum)
}

// What each of these has.
fn all_held(
    alloc: Global,
    deposits: &VecDeque<Deposit>,
    parties: &[Name],
) -> Result<Seq<u64>, OutOfMemory>
    ensures { IfOk result (λ sums. sums ≡ map (spec.held_by deposits.now.items) parties.now) }
{
    let mut sums = Seq::new(alloc);
    for party in parties {
        let sum = held_by(deposits, party)?;
        sums.push(sum)?;
    }
    Ok(sums)
}

// What these have together.
fn sum_of(sums: &[u64]) -> Result<u64, OutOfMemory>
    ensures { IfOk result (λ sum. sum ≡ sum_by (λ v. v) sums.now) }
{
    let mut total = 0u64;
    for sum in sums {
        total = added(total, *sum)?;
    }
    Ok(total)
}

/// What these parties have, the contracts, everybody else and the miner, of so much in all.
#[tactic(auto, using(crate::proofs::Lists::sum_of_map))]
pub(crate) fn money_of(
    alloc: Global,
    parties: &[Name],
    total: u64,
    config: &Config,
) -> Result<Money, OutOfMemory>
    ensures { IfOk result (λ m. m ≡ spec.money_of parties.now total config.now) }
{
    let deposits = config.deposits();
    let held = all_held(alloc, deposits, parties)?;
    let theirs = sum_of(held.as_slice())?;
    let all = all_deposits(deposits)?;
    let contracts = all_contracts(config.active())?;
    let there = added(all, contracts)?;
    Ok(Money {
        parties: held,
        contracts,
        elsewhere: all.saturating_sub(theirs),
        fees: total.saturating_sub(there),
    })
}
