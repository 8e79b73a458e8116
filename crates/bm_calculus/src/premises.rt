//! The first premise that fails, for each kind of step.

ghost use Rattle.std.specs.Prelude.{◌≡◌, [], ◌∷◌, nat_le, option_map};
ghost use Rattle.spec_data.specs.Lists.{first_false};
ghost use Rattle.spec_terms.specs.Core.{asks as asks_in, lock as lock_in};
ghost use Rattle.spec_calculus.specs.Branches as branches;
ghost use Rattle.spec_calculus.specs.Steps as steps;
ghost use Rattle.bm_syntax.specs.View.{guarded};
ghost use Rattle.bm_calculus.specs.Reached.{IsReached};

use crate::beginning::{
    allowing_fails, are_all_there, are_init_authorised, are_there, bindings_of, binds,
    have_committed, is_advertised, is_any_honest, is_told, lists_secrets, may_commit,
};
use crate::branches::{
    branch_in, have_branch_authorised, is_put, is_split, is_withdraw, puts, reveals,
};
use crate::lengths::is_true;
use crate::secrets::{are_revealed, is_revealed, length_at};
use crate::state::{State, contract_at};
use bm_syntax::{Guarded, asks, core, lock};
use spec_calculus::Step;
use spec_data::{LAST_HEIGHT, Name, Seq};

impl State {
    /// The first premise of advertising a contract that fails, or 0.
    pub fn advertise_fails(&self, contract: u32, bindings: &Seq<(Name, u32)>) -> u8
        ensures { result ≡ steps.fails self.now (Step.Advertise contract bindings.now) }
    {
        let Some(checked) = contract_at(&self.contracts, contract) else {
            return 1;
        };
        if is_advertised(&self.advertised, contract) {
            return 1;
        }
        if !binds(&self.deposits, &checked.advert().pre, bindings.as_slice()) {
            return 2;
        }
        if !is_any_honest(checked.parties(), &self.honest) {
            return 3;
        }
        0
    }

    /// The first premise of a party's commitment that fails, or 0.
    pub fn commit_fails(
        &self,
        contract: u32,
        party: &Name,
        lengths: &Seq<(Name, Option<u32>)>,
    ) -> u8
        ensures { result ≡ steps.fails self.now (Step.Commit contract party.now lengths.now) }
    {
        if !is_advertised(&self.advertised, contract) {
            return 1;
        }
        let Some(checked) = contract_at(&self.contracts, contract) else {
            return 2;
        };
        if !may_commit(checked.parties(), &self.committed, contract, party) {
            return 2;
        }
        if !lists_secrets(party, &checked.advert().pre, lengths.as_slice()) {
            return 3;
        }
        if !is_told(&self.honest, party, lengths.as_slice()) {
            return 4;
        }
        0
    }

    /// The first premise of a party's letting the contract take its deposit that fails, or 0.
    pub fn auth_init_fails(&self, contract: u32, party: &Name, deposit: &Name) -> u8
        ensures { result ≡ steps.fails self.now (Step.AuthInit contract party.now deposit.now) }
    {
        let Some(checked) = contract_at(&self.contracts, contract) else {
            return 1;
        };
        if !have_committed(&self.committed, contract, checked.parties()) {
            return 1;
        }
        let pre = &checked.advert().pre;
        let bindings = bindings_of(&self.advertised, contract);
        allowing_fails(&self.deposits, bindings, pre, party, deposit)
    }

    /// The first premise of a contract's beginning that fails, or 0.
    pub fn init_fails(&self, contract: u32) -> u8
        ensures { result ≡ steps.fails self.now (Step.Init contract) }
    {
        let Some(checked) = contract_at(&self.contracts, contract) else {
            return 1;
        };
        if !have_committed(&self.committed, contract, checked.parties()) {
            return 1;
        }
        let pre = &checked.advert().pre;
        if !are_all_there(&self.deposits, bindings_of(&self.advertised, contract), pre) {
            return 2;
        }
        if !are_init_authorised(&self.init_authorised, contract, pre) {
            return 3;
        }
        0
    }

    /// The first premise of revealing a secret that fails, or 0.
    pub fn reveal_fails(&self, contract: u32, party: &Name, secret: &Name) -> u8
        ensures { result ≡ steps.fails self.now (Step.Reveal contract party.now secret.now) }
    {
        let Some(length) = length_at(&self.committed, contract, party, secret) else {
            return 1;
        };
        if length.is_none() {
            return 2;
        }
        if is_revealed(&self.revealed, contract, party, secret) {
            return 3;
        }
        0
    }

    /// The first premise of a party's agreement to a branch that fails, or 0.
    pub fn auth_branch_fails(&self, party: &Name, output: u32, branch: u32) -> u8
        ensures { result ≡ steps.fails self.now (Step.AuthBranch party.now output branch) }
    {
        if self.active.get(output).is_none() {
            return 1;
        }
        let Some(taken) = self.branch_at(output, branch) else {
            return 2;
        };
        if !asks(taken, party) {
            return 3;
        }
        0
    }

    /// The first premise of a branch that puts deposits in or reveals secrets that fails, or 0.
    pub fn put_reveal_fails(&self, output: u32, branch: u32) -> u8
        requires { IsReached self.now }
        ensures { result ≡ steps.fails self.now (Step.PutReveal output branch) }
    {
        let Some(active) = self.active.get(output) else {
            return 1;
        };
        let Some(checked) = contract_at(&self.contracts, active.contract) else {
            return 2;
        };
        let Some(taken) = branch_in(checked, &active.position, branch) else {
            return 2;
        };
        let pre = &checked.advert().pre;
        let core = core(taken);
        if !is_put(core) {
            return 2;
        }
        let waits = self.waiting_fails(output, branch, taken);
        if waits != 0 {
            return waits;
        }
        if !are_there(
            &self.deposits,
            bindings_of(&self.advertised, active.contract),
            puts(core),
        ) {
            return 5;
        }
        if !are_revealed(&self.revealed, active.contract, pre, reveals(core)) {
            return 6;
        }
        if !is_true(&self.committed, active.contract, pre, core) {
            return 7;
        }
        0
    }

    /// The first premise of a branch that pays a party that fails, or 0.
    pub fn withdraw_fails(&self, output: u32, branch: u32) -> u8
        ensures { result ≡ steps.fails self.now (Step.Withdraw output branch) }
    {
        if self.active.get(output).is_none() {
            return 1;
        }
        let Some(taken) = self.branch_at(output, branch) else {
            return 2;
        };
        if !is_withdraw(core(taken)) {
            return 2;
        }
        self.waiting_fails(output, branch, taken)
    }

    /// The first premise of a branch that divides the balance that fails, or 0.
    pub fn split_fails(&self, output: u32, branch: u32) -> u8
        ensures { result ≡ steps.fails self.now (Step.Split output branch) }
    {
        if self.active.get(output).is_none() {
            return 1;
        }
        let Some(taken) = self.branch_at(output, branch) else {
            return 2;
        };
        if !is_split(core(taken)) {
            return 2;
        }
        self.waiting_fails(output, branch, taken)
    }

    // The third or fourth premise of taking a branch of whichever kind, the first that fails, or 0.
    fn waiting_fails(&self, output: u32, branch: u32, taken: &Guarded) -> u8
        ensures { let term = guarded taken.now in
            result ≡ first_false 3 (nat_le (lock_in term) self.now.time
            ∷ branches.have_branch_authorised self.now.branch_authorised output branch (asks_in term) ∷ []) }
    {
        if self.time < lock(taken) {
            return 3;
        }
        if !have_branch_authorised(&self.branch_authorised, output, branch, taken) {
            return 4;
        }
        0
    }
}

/// The first premise of a delay that fails, or 0.
pub fn delay_fails(time: u32, blocks: u32) -> u8
    ensures { result ≡ first_false 1 (steps.delay_premises time blocks) }
{
    if blocks == 0 {
        return 1;
    }
    if time as u64 + blocks as u64 > LAST_HEIGHT as u64 {
        return 2;
    }
    0
}
