//! A configuration of the calculus.

ghost use Rattle.std.specs.Prelude.{◌≡◌, ◌<◌, ◌≤◌, ◌+◌, ◌^◌, length, option_map, sum_by, IfOk, IfErr, OnOk, OnErr, MatchResult};
ghost use Rattle.spec_data.specs.Ranges.{max_money};
ghost use Rattle.spec_calculus.specs.Moves as spec;
ghost use Rattle.spec_calculus.specs.Branches as branches;
ghost use Rattle.spec_calculus.specs.Beginning as beginning;
ghost use Rattle.spec_calculus.specs.Steps as steps;
ghost use Rattle.bm_calculus.specs.Answers.{Leads, RefusesFor, seen, owner_and_value, shown, parts_of, advertised_with, with_revealed};

mod asked;
mod listed;

use crate::secrets::{is_revealed, length_at};
use crate::state::{State, contract_at};
use bm_wellformed::Checked;
use spec_calculus::{Advertised, Owner, Step};
use spec_data::{Name, OutOfMemory};
use spec_terms::Path;
use std::alloc::{AllocError, Global};
use std::marker::Model;

/// What the calculus knows at a moment: steps have led to it from an opening with checked contracts
/// and no more than all money, and so no sum of it is more than that.
pub struct Config {
    state: State,
}

impl Drop for Config {
    fn drop(self) {
        let Config { state: _ } = self;
    }
}

/// An active contract: the contract's place, the position that it stands at, and its balance in satoshi.
#[derive(Clone, Copy)]
pub struct Active<'a> {
    pub contract: u32,
    pub position: &'a Path,
    pub balance: u64,
}

/// Why a step wasn't taken.
#[derive(Clone, Copy, Debug, PartialEq, Eq)]
pub enum StepError {
    /// The first premise that fails, counted from 1.
    NotEnabled(u8),
    /// Out of memory.
    Memory,
}

impl From<AllocError> for StepError {
    ghost use Rattle.std.specs.Prelude.{◌≡◌};
    ghost use Rattle.bm_calculus.specs.declared.config.StepError.TheVariants.{Memory};

    ghost from_gives = { λ _ e. e ≡ Memory };

    fn from(_: AllocError) -> Self {
        StepError::Memory
    }
}

impl Model for Config {
    ghost use Rattle.std.specs.Coded.{codes};
    ghost use Rattle.spec_terms.specs.TermCode.{coded_choice};
    ghost use Rattle.spec_calculus.specs.Configuration.{Configuration};
    ghost use Rattle.bm_calculus.specs.Reached.{IsReached};

    ghost Value = { Configuration };

    ghost coded = { Prim.hlevel (codes, coded_choice) };

    ghost view = { λ a. a.state };

    ghost invariant = { λ a. IsReached a.state };
}

impl Config {
    /// The configuration before any step: deposit i is named i.
    pub fn opening(
        alloc: Global,
        parties: &[Name],
        honest: &[Name],
        deposits: &[(Name, u64)],
        contracts: &[Checked],
    ) -> Result<Config, OutOfMemory>
        requires few { length deposits.now < 2 ^ 32 }
        requires money { sum_by (λ d. d.1) deposits.now ≤ max_money }
        ensures { IfOk result (λ g. g ≡ steps.opening parties.now honest.now deposits.now contracts.now) }
    {
        let state = State::opening(alloc, parties, honest, deposits, contracts)?;
        Ok(Config { state })
    }

    /// An equal configuration.
    pub fn copy(&self, alloc: Global) -> Result<Config, OutOfMemory>
        ensures { IfOk result (λ g. g ≡ self.now) }
    {
        let state = self.state.copy(alloc)?;
        Ok(Config { state })
    }

    /// The height, in blocks.
    pub fn time(&self) -> u32
        ensures { result ≡ self.now.time }
    {
        self.state.time
    }

    /// The number that the next deposit or contract is named by.
    pub fn next(&self) -> u32
        ensures { result ≡ self.now.next }
    {
        self.state.next
    }

    /// Owner and value, in satoshi, of the deposit of this number.
    pub fn deposit(&self, number: u32) -> Option<(&Owner, u64)>
        ensures { seen result ≡ owner_and_value (spec.deposit_at self.now.deposits number) }
    {
        let deposit = self.state.deposits.get(number)?;
        Some((&deposit.owner, deposit.value))
    }

    /// The contract of this place.
    pub fn checked(&self, contract: u32) -> Option<&Checked>
        ensures { option_map (λ c. c.now) result ≡ beginning.contract_at self.now.contracts contract }
    {
        contract_at(&self.state.contracts, contract)
    }

    /// The active contract of this number.
    pub fn contract(&self, number: u32) -> Option<Active<'_>>
        ensures { shown result ≡ parts_of (branches.active_at self.now.active number) }
    {
        let active = self.state.active.get(number)?;
        Some(Active {
            contract: active.contract,
            position: &active.position,
            balance: active.balance,
        })
    }

    /// The number that each deposit of the contract's precondition is bound to, in its order.
    pub fn bindings(&self, contract: u32) -> Option<&[(Name, u32)]>
        ensures { option_map (λ b. b.now) result ≡ advertised_with self.now.advertised contract }
    {
        advertised_with(&self.state.advertised, contract)
    }

    /// The length that the party has committed for its secret, where one is known, and whether the secret is revealed.
    pub fn secret(&self, contract: u32, party: &Name, name: &Name) -> Option<(Option<u32>, bool)>
        ensures { result ≡
            with_revealed (branches.is_revealed self.now.revealed contract party.now name.now)
            (branches.length_at self.now.committed contract party.now name.now) }
    {
        let length = length_at(&self.state.committed, contract, party, name)?;
        let revealed = is_revealed(&self.state.revealed, contract, party, name);
        Some((length, revealed))
    }

    /// Whether the step may be taken, and else its first premise that fails, counted from 1.
    pub fn enabled(&self, step: &Step) -> Result<(), u8>
        ensures { MatchResult result (λ _. steps.fails self.now step.now ≡ 0) (λ k. (0 < k) × (steps.fails self.now step.now ≡ k)) }
    {
        let failed = self.state.fails(step);
        if failed == 0 { Ok(()) } else { Err(failed) }
    }

    /// Takes the step. An `Err` changes nothing.
    #[tactic(auto, using(crate::proofs::Reached::reached_after))]
    pub fn apply(&mut self, step: &Step) -> Result<(), StepError>
        requires { self.old.next + steps.names_made self.old step.now < 2 ^ 32 }
        ensures ok { OnOk result (Leads self.old step.now self.new) }
        ensures not_enabled { IfErr result (λ e. RefusesFor (steps.fails self.old step.now) e) }
        ensures err { OnErr result (self.new ≡ self.old) }
    {
        if let Err(premise) = self.enabled(step) {
            return Err(StepError::NotEnabled(premise));
        }
        self.state.take(step)?;
        Ok(())
    }
}

fn advertised_with(advertised: &[Advertised], contract: u32) -> Option<&[(Name, u32)]>
    ensures { option_map (λ b. b.now) result ≡ advertised_with advertised.now contract }
{
    for entry in advertised {
        if entry.contract == contract {
            return Some(entry.bindings.as_slice());
        }
    }
    None
}
