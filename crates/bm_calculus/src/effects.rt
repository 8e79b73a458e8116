//! What each kind of step makes of what the calculus knows.

ghost use Rattle.std.specs.Prelude.{◌≡◌, ◌<◌, ◌+◌, ◌^◌, [], length, OnOk, OnErr};
ghost use Rattle.spec_calculus.specs.Steps as steps;
ghost use Rattle.theory_calculus.specs.Numbered.{IsNumbered};
ghost use Rattle.theory_calculus.specs.Money.{IsWithinAllMoney};

use crate::beginning::{bindings_of, is_init_authorised, persistent_numbers};
use crate::branches::{has_branch_authorised, left};
use crate::moves::{agree, forget};
use crate::state::{State, contract_at};
use spec_calculus::{
    Advertised, BranchAuthorisation, Committed, InitAuthorisation, Move, Revealed, Step,
};
use spec_data::{Name, OutOfMemory, Seq};

impl State {
    /// The party has authorised the move.
    pub fn agree(&mut self, party: &Name, action: &Move) -> Result<(), OutOfMemory>
        ensures ok { OnOk result (self.new ≡ steps.effect self.old (Step.AuthMove party.now action.now)) }
        ensures err { OnErr result (self.new ≡ self.old) }
    {
        agree(self.alloc, &mut self.move_authorised, party, action)?;
        Ok(())
    }

    /// Deposits go, and one for each output comes.
    #[tactic(auto, using(crate::proofs::Rows::moved_ascends))]
    pub fn make(&mut self, action: &Move) -> Result<(), OutOfMemory>
        requires numbered { IsNumbered self.old }
        requires room { self.old.next + length action.now.outputs < 2 ^ 32 }
        ensures ok { OnOk result (self.new ≡ steps.moved self.old action.now) }
        ensures err { OnErr result (self.new ≡ self.old) }
    {
        let outputs = action.outputs.as_slice();
        let inputs = action.inputs.as_slice();
        self.deposits
            .replace(self.alloc, inputs, self.next, outputs)?;
        self.next += outputs.len() as u32;
        forget(&mut self.move_authorised, action);
        Ok(())
    }

    /// The contract is advertised, bound to these deposits.
    pub fn advertise(
        &mut self,
        contract: u32,
        bindings: &Seq<(Name, u32)>,
    ) -> Result<(), OutOfMemory>
        ensures ok { OnOk result (self.new ≡ steps.effect self.old (Step.Advertise contract bindings.now)) }
        ensures err { OnErr result (self.new ≡ self.old) }
    {
        let bindings = bindings.copy(self.alloc)?;
        self.advertised.push(Advertised { contract, bindings })?;
        Ok(())
    }

    /// The party has committed to its secrets of the contract.
    pub fn commit(
        &mut self,
        contract: u32,
        party: &Name,
        lengths: &Seq<(Name, Option<u32>)>,
    ) -> Result<(), OutOfMemory>
        ensures ok { OnOk result (self.new ≡ steps.effect self.old (Step.Commit contract party.now lengths.now)) }
        ensures err { OnErr result (self.new ≡ self.old) }
    {
        let lengths = lengths.copy(self.alloc)?;
        self.committed.push(Committed {
            contract,
            party: *party,
            lengths,
        })?;
        Ok(())
    }

    /// The contract may take the deposit.
    pub fn allow(&mut self, contract: u32, deposit: &Name) -> Result<(), OutOfMemory>
        ensures ok { OnOk result (self.new ≡ steps.effect self.old (Step.AuthInit contract [] deposit.now)) }
        ensures err { OnErr result (self.new ≡ self.old) }
    {
        if is_init_authorised(&self.init_authorised, contract, deposit) {
            return Ok(());
        }
        self.init_authorised.push(InitAuthorisation {
            contract,
            deposit: *deposit,
        })?;
        Ok(())
    }

    /// The contract's persistent deposits go, and it begins with what they hold less the fee.
    #[tactic(auto, using(crate::proofs::Reached::deposits_within))]
    pub fn begin(&mut self, contract: u32) -> Result<(), OutOfMemory>
        requires numbered { IsNumbered self.old }
        requires within { IsWithinAllMoney self.old }
        requires enabled { steps.fails self.old (Step.Init contract) ≡ 0 }
        requires room { self.old.next + 1 < 2 ^ 32 }
        ensures ok { OnOk result (self.new ≡ steps.effect self.old (Step.Init contract)) }
        ensures err { OnErr result (self.new ≡ self.old) }
    {
        let Some(checked) = contract_at(&self.contracts, contract) else {
            return Ok(());
        };
        let bindings = bindings_of(&self.advertised, contract);
        let numbers = persistent_numbers(self.alloc, bindings, &checked.advert().pre)?;
        let balance = left(self.deposits.gone_value(&numbers), checked.advert().fee);
        self.active.begin(self.alloc, self.next, contract, balance)?;
        self.deposits.remove(self.alloc, &numbers);
        self.next += 1;
        Ok(())
    }

    /// The secret is revealed.
    pub fn reveal(&mut self, contract: u32, party: &Name, secret: &Name) -> Result<(), OutOfMemory>
        ensures ok { OnOk result (self.new ≡ steps.effect self.old (Step.Reveal contract party.now secret.now)) }
        ensures err { OnErr result (self.new ≡ self.old) }
    {
        self.revealed.push(Revealed {
            contract,
            party: *party,
            secret: *secret,
        })?;
        Ok(())
    }

    /// The party has authorised the branch.
    pub fn allow_branch(
        &mut self,
        party: &Name,
        output: u32,
        branch: u32,
    ) -> Result<(), OutOfMemory>
        ensures ok { OnOk result (self.new ≡ steps.effect self.old (Step.AuthBranch party.now output branch)) }
        ensures err { OnErr result (self.new ≡ self.old) }
    {
        if has_branch_authorised(&self.branch_authorised, output, branch, party) {
            return Ok(());
        }
        self.branch_authorised.push(BranchAuthorisation {
            party: *party,
            output,
            branch,
        })?;
        Ok(())
    }

    /// Deposits go into the contract, which goes on at the branch with what it holds less the fee.
    pub fn go_on(&mut self, output: u32, branch: u32) -> Result<(), OutOfMemory>
        requires numbered { IsNumbered self.old }
        requires within { IsWithinAllMoney self.old }
        requires enabled { steps.fails self.old (Step.PutReveal output branch) ≡ 0 }
        requires room { self.old.next + 1 < 2 ^ 32 }
        ensures ok { OnOk result (self.new ≡ steps.effect self.old (Step.PutReveal output branch)) }
        ensures err { OnErr result (self.new ≡ self.old) }
    {
        let numbers = self.numbers_put(output, branch)?;
        let next = self.continuation(output, branch, &numbers)?;
        self.active.replace(output, next)?;
        self.deposits.remove(self.alloc, &numbers);
        self.next += 1;
        Ok(())
    }

    /// The contract goes, and its balance less the fee is a deposit of the party.
    pub fn withdraw(&mut self, output: u32, branch: u32) -> Result<(), OutOfMemory>
        requires numbered { IsNumbered self.old }
        requires within { IsWithinAllMoney self.old }
        requires enabled { steps.fails self.old (Step.Withdraw output branch) ≡ 0 }
        requires room { self.old.next + 1 < 2 ^ 32 }
        ensures ok { OnOk result (self.new ≡ steps.effect self.old (Step.Withdraw output branch)) }
        ensures err { OnErr result (self.new ≡ self.old) }
    {
        let Some((party, value)) = self.payment(output, branch) else {
            return Ok(());
        };
        self.deposits.pay(self.next, &party, value)?;
        self.active.remove(output);
        self.next += 1;
        Ok(())
    }

    /// The contract goes, and one for each part of the branch comes.
    #[tactic(auto, using(crate::proofs::Parts::made_length))]
    pub fn split(&mut self, output: u32, branch: u32) -> Result<(), OutOfMemory>
        requires numbered { IsNumbered self.old }
        requires within { IsWithinAllMoney self.old }
        requires enabled { steps.fails self.old (Step.Split output branch) ≡ 0 }
        requires room { self.old.next + steps.names_made self.old (Step.Split output branch) < 2 ^ 32 }
        ensures ok { OnOk result (self.new ≡ steps.effect self.old (Step.Split output branch)) }
        ensures err { OnErr result (self.new ≡ self.old) }
    {
        let made = self.divided(output, branch)?;
        let count = made.len() as u32;
        self.active.replace(output, made)?;
        self.next += count;
        Ok(())
    }
}
