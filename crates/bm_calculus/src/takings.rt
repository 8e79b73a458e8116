//! What taking a branch of an active contract makes, worked out before anything changes.

ghost use Rattle.std.specs.Prelude.{◌≡◌, ◌+◌, ◌-◌, ◌<◌, ◌^◌, ◌∷◌, [], ◌++◌, Some, true, length, map, option_map, IfOk};
ghost use Rattle.spec_terms.specs.declared.path.PathStep.TheVariants.{Branch as To};
ghost use Rattle.spec_calculus.specs.Beginning as beginning;
ghost use Rattle.spec_calculus.specs.Branches as spec;
ghost use Rattle.spec_calculus.specs.Steps as steps;
ghost use Rattle.spec_calculus.specs.InOrder.{are_ascending};
ghost use Rattle.theory_calculus.specs.Numbered.{IsNumbered};
ghost use Rattle.theory_calculus.specs.Money.{IsWithinAllMoney};
ghost use Rattle.bm_syntax.specs.View.{guarded};
ghost use Rattle.bm_calculus.specs.Takings.{continuation};

use crate::beginning::{bindings_of, numbers_of};
use crate::branches::{branch_in, left, parts, parts_made, payee, puts};
use crate::state::{State, contract_at};
use bm_syntax::{Guarded, core, longer};
use spec_calculus::{ActiveContract, Step};
use spec_data::{Name, OutOfMemory};
use spec_terms::PathStep;

impl State {
    /// The branch of this number of the active contract of this number.
    pub fn branch_at(&self, output: u32, branch: u32) -> Option<&Guarded>
        ensures { option_map (λ b. guarded b.now) result ≡ steps.branch_at self.now output branch }
    {
        let active = self.active.get(output)?;
        let checked = contract_at(&self.contracts, active.contract)?;
        branch_in(checked, &active.position, branch)
    }

    /// The numbers of the deposits that the branch puts in.
    pub fn numbers_put(&self, output: u32, branch: u32) -> Result<Vec<u32>, OutOfMemory>
        ensures { let number = spec.contract_number (spec.active_at self.now.active output) in
            IfOk result (λ v. v.items ≡
            beginning.numbers_of (beginning.bindings_of self.now.advertised number)
            (spec.puts_of_taken (steps.branch_at self.now output branch))) }
    {
        let Some(active) = self.active.get(output) else {
            return Ok(Vec::new(self.alloc));
        };
        let Some(taken) = self.branch_at(output, branch) else {
            return Ok(Vec::new(self.alloc));
        };
        let bindings = bindings_of(&self.advertised, active.contract);
        numbers_of(self.alloc, bindings, puts(core(taken)))
    }

    /// The active contract that goes on at the branch, with these deposits put in, less the fee.
    #[tactic(auto, using(crate::proofs::Reached::deposits_within, crate::proofs::Reached::joined_within, crate::proofs::Rows::one_ascends))]
    pub fn continuation(
        &self,
        output: u32,
        branch: u32,
        numbers: &[u32],
    ) -> Result<Vec<ActiveContract>, OutOfMemory>
        requires numbered { IsNumbered self.now }
        requires within { IsWithinAllMoney self.now }
        requires enabled { steps.fails self.now (Step.PutReveal output branch) ≡ 0 }
        ensures made { IfOk result (λ v. v.items ≡ continuation self.now output branch numbers.now ∷ []) }
        ensures ascending { IfOk result (λ v. are_ascending (map (λ a. a.number) (spec.others self.now.active output ++ v.items)) ≡ true) }
    {
        let mut next = Vec::new(self.alloc);
        let Some(active) = self.active.get(output) else {
            return Ok(next);
        };
        let Some(checked) = contract_at(&self.contracts, active.contract) else {
            return Ok(next);
        };
        let sum = active.balance + self.deposits.gone_value(numbers);
        next.push(ActiveContract {
            number: self.next,
            contract: active.contract,
            position: longer(self.alloc, &active.position, PathStep::Branch(branch))?,
            balance: left(sum, checked.advert().fee),
        })?;
        Ok(next)
    }

    /// The party that the branch pays, and the balance less the fee.
    pub fn payment(&self, output: u32, branch: u32) -> Option<(Name, u64)>
        requires { steps.fails self.now (Step.Withdraw output branch) ≡ 0 }
        ensures { let active = spec.active_at self.now.active output in
            result ≡ Some (
              spec.payee_of (steps.branch_at self.now output branch),
              spec.balance_of active - beginning.fee_of (spec.advert_of self.now.contracts active),
            ) }
    {
        let active = self.active.get(output)?;
        let checked = contract_at(&self.contracts, active.contract)?;
        let party = payee(core(branch_in(checked, &active.position, branch)?))?;
        Some((party, left(active.balance, checked.advert().fee)))
    }

    /// An active contract for each part of the branch.
    #[tactic(auto, using(crate::proofs::Parts::values_length, crate::proofs::Rows::parts_ascend))]
    pub fn divided(&self, output: u32, branch: u32) -> Result<Vec<ActiveContract>, OutOfMemory>
        requires numbered { IsNumbered self.now }
        requires enabled { steps.fails self.now (Step.Split output branch) ≡ 0 }
        requires room { self.now.next + steps.names_made self.now (Step.Split output branch) < 2 ^ 32 }
        ensures made { let active = spec.active_at self.now.active output in
            IfOk result (λ v. v.items ≡
            spec.parts_made self.now.next (spec.contract_number active) (spec.position_of active ++ To branch ∷ []) 0
            (spec.values_of (steps.branch_at self.now output branch))) }
        ensures ascending { IfOk result (λ v. are_ascending (map (λ a. a.number) (spec.others self.now.active output ++ v.items)) ≡ true) }
    {
        let Some(active) = self.active.get(output) else {
            return Ok(Vec::new(self.alloc));
        };
        let Some(taken) = self.branch_at(output, branch) else {
            return Ok(Vec::new(self.alloc));
        };
        let path = longer(self.alloc, &active.position, PathStep::Branch(branch))?;
        parts_made(
            self.alloc,
            self.next,
            active.contract,
            &path,
            parts(core(taken)),
        )
    }
}
