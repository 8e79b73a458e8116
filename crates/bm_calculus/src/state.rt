//! What a configuration holds.

ghost use Rattle.std.specs.Prelude.{◌≡◌, ◌<◌, ◌+◌, ◌^◌, length, option_map, IfOk, OnOk, OnErr};
ghost use Rattle.std.specs.List.{AllByRecursion};
ghost use Rattle.spec_terms.specs.Faults.{IsWellFormed};
ghost use Rattle.spec_calculus.specs.Beginning as beginning;
ghost use Rattle.spec_calculus.specs.Steps as steps;
ghost use Rattle.theory_calculus.specs.Numbered.{IsNumbered};
ghost use Rattle.theory_calculus.specs.Money.{IsWithinAllMoney};
ghost use Rattle.bm_calculus.specs.Reached.{IsReached};

use crate::contracts::ActiveContracts;
use crate::deposits::Deposits;
use crate::moves::{auth_move_fails, move_fails};
use crate::premises::delay_fails;
use bm_wellformed::Checked;
use spec_calculus::{
    Advertised, BranchAuthorisation, Committed, InitAuthorisation, MoveAuthorisation, Owner,
    Revealed, Step,
};
use spec_data::{Name, OutOfMemory};
use std::alloc::Global;
use std::marker::Model;

/// What the calculus knows at a moment, whichever steps led to it.
pub struct State {
    pub alloc: Global,
    pub time: u32,
    pub next: u32,
    pub deposits: Deposits,
    pub active: ActiveContracts,
    pub advertised: Vec<Advertised>,
    pub committed: Vec<Committed>,
    pub revealed: Vec<Revealed>,
    pub init_authorised: Vec<InitAuthorisation>,
    pub branch_authorised: Vec<BranchAuthorisation>,
    pub move_authorised: Vec<MoveAuthorisation>,
    pub parties: Vec<Name>,
    pub honest: Vec<Name>,
    pub contracts: Vec<Checked>,
}

impl Model for State {
    ghost use Rattle.std.specs.Coded.{codes};
    ghost use Rattle.spec_terms.specs.TermCode.{coded_choice};
    ghost use Rattle.spec_calculus.specs.Configuration.{Configuration};

    ghost Value = { Configuration };

    ghost coded = { Prim.hlevel (codes, coded_choice) };

    ghost view = { λ a. record {
      time = a.time;
      next = a.next;
      deposits = a.deposits;
      active = a.active;
      advertised = a.advertised.items;
      committed = a.committed.items;
      revealed = a.revealed.items;
      init_authorised = a.init_authorised.items;
      branch_authorised = a.branch_authorised.items;
      move_authorised = a.move_authorised.items;
      parties = a.parties.items;
      honest = a.honest.items;
      contracts = a.contracts.items;
    } };
}

impl Drop for State {
    fn drop(self) {
        let State {
            alloc: _,
            time: _,
            next: _,
            deposits: _,
            active: _,
            advertised: _,
            committed: _,
            revealed: _,
            init_authorised: _,
            branch_authorised: _,
            move_authorised: _,
            parties: _,
            honest: _,
            contracts: _,
        } = self;
    }
}

impl State {
    /// What is known before any step: deposit i is named i.
    #[tactic(auto, using(crate::proofs::Rows::opening_ascends))]
    pub fn opening(
        alloc: Global,
        parties: &[Name],
        honest: &[Name],
        deposits: &[(Name, u64)],
        contracts: &[Checked],
    ) -> Result<State, OutOfMemory>
        requires { length deposits.now < 2 ^ 32 }
        ensures opens { IfOk result (λ g. g ≡ steps.opening parties.now honest.now deposits.now contracts.now) }
        ensures checked { IfOk result (λ _. AllByRecursion IsWellFormed contracts.now) }
    {
        let outputs = owned(alloc, deposits)?;
        let mut held = Deposits::none(alloc);
        held.replace(alloc, &[], 0, outputs.as_slice())?;
        Ok(State {
            alloc,
            time: 0,
            next: deposits.len() as u32,
            deposits: held,
            active: ActiveContracts::none(alloc),
            advertised: Vec::new(alloc),
            committed: Vec::new(alloc),
            revealed: Vec::new(alloc),
            init_authorised: Vec::new(alloc),
            branch_authorised: Vec::new(alloc),
            move_authorised: Vec::new(alloc),
            parties: Vec::from_slice(alloc, parties)?,
            honest: Vec::from_slice(alloc, honest)?,
            contracts: copies(alloc, contracts)?,
        })
    }

    /// The same.
    pub fn copy(&self, alloc: Global) -> Result<State, OutOfMemory>
        ensures { IfOk result (λ g. g ≡ self.now) }
    {
        Ok(State {
            alloc,
            time: self.time,
            next: self.next,
            deposits: self.deposits.copy(alloc)?,
            active: self.active.copy(alloc)?,
            advertised: copies_of_advertised(alloc, &self.advertised)?,
            committed: copies_of_committed(alloc, &self.committed)?,
            revealed: Vec::from_slice(alloc, &self.revealed)?,
            init_authorised: Vec::from_slice(alloc, &self.init_authorised)?,
            branch_authorised: Vec::from_slice(alloc, &self.branch_authorised)?,
            move_authorised: copies_of_moves(alloc, &self.move_authorised)?,
            parties: Vec::from_slice(alloc, &self.parties)?,
            honest: Vec::from_slice(alloc, &self.honest)?,
            contracts: copies(alloc, &self.contracts)?,
        })
    }

    /// The first premise of the step that fails, counted from 1, or 0.
    pub fn fails(&self, step: &Step) -> u8
        requires { IsReached self.now }
        ensures { result ≡ steps.fails self.now step.now }
    {
        match step {
            Step::Delay { blocks } => delay_fails(self.time, *blocks),
            Step::AuthMove { party, action } => auth_move_fails(
                self.alloc,
                &self.deposits,
                party,
                action.value(),
            ),
            Step::Move { action } => move_fails(
                self.alloc,
                &self.deposits,
                &self.move_authorised,
                action,
            ),
            Step::Advertise { contract, bindings } => self.advertise_fails(*contract, bindings),
            Step::Commit {
                contract,
                party,
                lengths,
            } => self.commit_fails(*contract, party, lengths),
            Step::AuthInit {
                contract,
                party,
                deposit,
            } => self.auth_init_fails(*contract, party, deposit),
            Step::Init { contract } => self.init_fails(*contract),
            Step::Reveal {
                contract,
                party,
                secret,
            } => self.reveal_fails(*contract, party, secret),
            Step::AuthBranch {
                party,
                output,
                branch,
            } => self.auth_branch_fails(party, *output, *branch),
            Step::PutReveal { output, branch } => self.put_reveal_fails(*output, *branch),
            Step::Withdraw { output, branch } => self.withdraw_fails(*output, *branch),
            Step::Split { output, branch } => self.split_fails(*output, *branch),
        }
    }

    /// Takes a step that is enabled. An `Err` changes nothing.
    pub fn take(&mut self, step: &Step) -> Result<(), OutOfMemory>
        requires numbered { IsNumbered self.old }
        requires within { IsWithinAllMoney self.old }
        requires enabled { steps.fails self.old step.now ≡ 0 }
        requires room { self.old.next + steps.names_made self.old step.now < 2 ^ 32 }
        ensures ok { OnOk result (self.new ≡ steps.effect self.old step.now) }
        ensures err { OnErr result (self.new ≡ self.old) }
    {
        match step {
            Step::Delay { blocks } => {
                self.time += *blocks;
                Ok(())
            }
            Step::AuthMove { party, action } => self.agree(party, action.value()),
            Step::Move { action } => self.make(action),
            Step::Advertise { contract, bindings } => self.advertise(*contract, bindings),
            Step::Commit {
                contract,
                party,
                lengths,
            } => self.commit(*contract, party, lengths),
            Step::AuthInit {
                contract,
                deposit,
                ..
            } => self.allow(*contract, deposit),
            Step::Init { contract } => self.begin(*contract),
            Step::Reveal {
                contract,
                party,
                secret,
            } => self.reveal(*contract, party, secret),
            Step::AuthBranch {
                party,
                output,
                branch,
            } => self.allow_branch(party, *output, *branch),
            Step::PutReveal { output, branch } => self.go_on(*output, *branch),
            Step::Withdraw { output, branch } => self.withdraw(*output, *branch),
            Step::Split { output, branch } => self.split(*output, *branch),
        }
    }
}

/// The contract of this place.
pub fn contract_at(contracts: &[Checked], number: u32) -> Option<&Checked>
    ensures { option_map (λ c. c.now) result ≡ beginning.contract_at contracts.now number }
{
    contracts.get(number as usize)
}

fn copies(alloc: Global, contracts: &[Checked]) -> Result<Vec<Checked>, OutOfMemory>
    ensures copies { IfOk result (λ v. v.items ≡ contracts.now) }
    ensures checked { IfOk result (λ _. AllByRecursion IsWellFormed contracts.now) }
{
    let mut held = Vec::new(alloc);
    for contract in contracts {
        let _ = contract.advert();
        held.push(contract.copy(alloc)?)?;
    }
    Ok(held)
}

fn copies_of_advertised(
    alloc: Global,
    advertised: &[Advertised],
) -> Result<Vec<Advertised>, OutOfMemory>
    ensures { IfOk result (λ v. v.items ≡ advertised.now) }
{
    let mut held = Vec::new(alloc);
    for entry in advertised {
        held.push(entry.copy(alloc)?)?;
    }
    Ok(held)
}

fn copies_of_committed(
    alloc: Global,
    committed: &[Committed],
) -> Result<Vec<Committed>, OutOfMemory>
    ensures { IfOk result (λ v. v.items ≡ committed.now) }
{
    let mut held = Vec::new(alloc);
    for entry in committed {
        held.push(entry.copy(alloc)?)?;
    }
    Ok(held)
}

fn copies_of_moves(
    alloc: Global,
    authorised: &[MoveAuthorisation],
) -> Result<Vec<MoveAuthorisation>, OutOfMemory>
    ensures { IfOk result (λ v. v.items ≡ authorised.now) }
{
    let mut held = Vec::new(alloc);
    for entry in authorised {
        held.push(entry.copy(alloc)?)?;
    }
    Ok(held)
}

fn owned(alloc: Global, deposits: &[(Name, u64)]) -> Result<Vec<(Owner, u64)>, OutOfMemory>
    ensures { IfOk result (λ v. v.items ≡ steps.owned deposits.now) }
{
    let mut outputs = Vec::new(alloc);
    for (party, value) in deposits {
        outputs.push((Owner::Party(*party), *value))?;
    }
    Ok(outputs)
}
