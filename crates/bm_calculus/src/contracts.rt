//! Active contracts, which are found by number.

ghost use Rattle.std.specs.Prelude.{◌≡◌, ◌++◌, ◌∷◌, [], nat_lt, map, true, option_map, IfOk, OnOk, OnErr};
ghost use Rattle.std.specs.List.{list_all};
ghost use Rattle.spec_calculus.specs.Branches as spec;
ghost use Rattle.spec_calculus.specs.InOrder.{are_ascending};
ghost use Rattle.bm_calculus.specs.Answers.{root_of};

mod edits;
mod listed;

use crate::contracts::edits::{place, remove, replace};
use spec_calculus::ActiveContract;
use spec_data::OutOfMemory;
use spec_terms::Path;
use std::alloc::Global;
use std::marker::Model;

/// Active contracts by ascending numbers, and so each is found by halving. Clauses see the list.
pub struct ActiveContracts {
    items: Vec<ActiveContract>,
}

impl Model for ActiveContracts {
    ghost use Rattle.std.specs.Prelude.{◌≡◌, List, map, true};
    ghost use Rattle.spec_calculus.specs.declared.parts.ActiveContract.{ActiveContract as Plain};
    ghost use Rattle.spec_calculus.specs.InOrder.{are_ascending};

    ghost Value = { List Plain };

    ghost view = { λ a. a.items.items };

    ghost invariant = { λ a. are_ascending (map (λ d. d.number) a.items.items) ≡ true };
}

impl Drop for ActiveContracts {
    fn drop(self) {
        let ActiveContracts { items: _ } = self;
    }
}

impl ActiveContracts {
    /// No active contract.
    pub fn none(alloc: Global) -> ActiveContracts
        ensures { result ≡ [] }
    {
        ActiveContracts {
            items: Vec::new(alloc),
        }
    }

    /// The same active contracts.
    pub fn copy(&self, alloc: Global) -> Result<ActiveContracts, OutOfMemory>
        ensures { IfOk result (λ active. active ≡ self.now) }
    {
        let items = copies(alloc, &self.items)?;
        Ok(ActiveContracts { items })
    }

    /// The active contract of this number.
    pub fn get(&self, number: u32) -> Option<&ActiveContract>
        ensures { option_map (λ a. a.now) result ≡ spec.active_at self.now number }
    {
        match place(&self.items, number) {
            Ok(place) => self.items.get(place),
            Err(_) => None,
        }
    }

    /// Adds a contract at its root, which is named by a later number than all others.
    #[tactic(auto, using(crate::proofs::Rows::push_ascends))]
    pub fn begin(
        &mut self,
        alloc: Global,
        number: u32,
        contract: u32,
        balance: u64,
    ) -> Result<(), OutOfMemory>
        requires last { list_all (λ n. nat_lt n number) (map (λ a. a.number) self.old) ≡ true }
        ensures ok { OnOk result (self.new ≡ self.old ++ root_of number contract balance ∷ []) }
        ensures err { OnErr result (self.new ≡ self.old) }
    {
        self.items.push(ActiveContract {
            number,
            contract,
            position: Path::of(Vec::new(alloc)),
            balance,
        })?;
        Ok(())
    }

    /// Removes the active contract of this number.
    #[tactic(auto, using(theory_calculus::proofs::Numbered::filtered_ascends))]
    pub fn remove(&mut self, number: u32)
        ensures { self.new ≡ spec.others self.old number }
    {
        remove(&mut self.items, number);
    }

    /// Puts contracts with later numbers in the place of the active one of this number.
    pub fn replace(&mut self, number: u32, others: Vec<ActiveContract>) -> Result<(), OutOfMemory>
        requires ascending { are_ascending (map (λ a. a.number) (spec.others self.old number ++ others.items)) ≡ true }
        ensures ok { OnOk result (self.new ≡ spec.others self.old number ++ others.items) }
        ensures err { OnErr result (self.new ≡ self.old) }
    {
        replace(&mut self.items, number, others)
    }
}

fn copies(alloc: Global, active: &[ActiveContract]) -> Result<Vec<ActiveContract>, OutOfMemory>
    ensures { IfOk result (λ v. v.items ≡ active.now) }
{
    let mut held = Vec::new(alloc);
    for entry in active {
        held.push(entry.copy(alloc)?)?;
    }
    Ok(held)
}
