//! Live deposits, which are found by number.

ghost use Rattle.std.specs.Prelude.{◌≡◌, ◌≤◌, ◌<◌, ◌^◌, ◌++◌, ◌∷◌, [], ◌+◌, nat_lt, length, map, true, option_map};
ghost use Rattle.std.specs.Prelude.{IfOk, OnOk, OnErr};
ghost use Rattle.std.specs.List.{list_all};
ghost use Rattle.spec_data.specs.Lists as lists;
ghost use Rattle.spec_data.specs.Ranges.{max_money};
ghost use Rattle.spec_calculus.specs.Moves as spec;
ghost use Rattle.spec_calculus.specs.Branches.{gone, total_value};
ghost use Rattle.spec_calculus.specs.Same as same;
ghost use Rattle.spec_calculus.specs.InOrder.{are_ascending};

mod edits;
mod listed;

use crate::deposits::edits::{place, remove, replace};
use crate::same::owner_eq;
use spec_calculus::{Deposit, Owner};
use spec_data::{Name, OutOfMemory};
use std::alloc::Global;
use std::collections::VecDeque;
use std::marker::Model;

/// Live deposits by ascending numbers, and so each is found by halving. Clauses see the list.
/// The oldest mostly go first, and in a deque what follows them stays where it is.
pub struct Deposits {
    items: VecDeque<Deposit>,
}

impl Model for Deposits {
    ghost use Rattle.std.specs.Prelude.{◌≡◌, List, map, true};
    ghost use Rattle.spec_calculus.specs.declared.parts.Deposit.{Deposit as Plain};
    ghost use Rattle.spec_calculus.specs.InOrder.{are_ascending};

    ghost Value = { List Plain };

    ghost view = { λ a. a.items.items };

    ghost invariant = { λ a. are_ascending (map (λ d. d.number) a.items.items) ≡ true };
}

impl Drop for Deposits {
    fn drop(self) {
        let Deposits { items: _ } = self;
    }
}

impl Deposits {
    /// No deposit; it takes no memory.
    pub fn none(alloc: Global) -> Deposits
        ensures { result ≡ [] }
    {
        Deposits {
            items: VecDeque::new(alloc),
        }
    }

    /// These deposits.
    pub fn of(items: Vec<Deposit>) -> Deposits
        requires ascending { are_ascending (map (λ d. d.number) items.items) ≡ true }
        ensures { result ≡ items.items }
    {
        Deposits {
            items: VecDeque::from_vec(items),
        }
    }

    /// The same deposits.
    pub fn copy(&self, alloc: Global) -> Result<Deposits, OutOfMemory>
        ensures { IfOk result (λ deposits. deposits ≡ self.now) }
    {
        let (first, second) = self.items.as_slices();
        let mut items = Vec::with_capacity(alloc, self.items.len())?;
        items.extend_from_slice(first)?;
        items.extend_from_slice(second)?;
        Ok(Deposits::of(items))
    }

    /// The deposit of this number.
    pub fn get(&self, number: u32) -> Option<&Deposit>
        ensures { option_map (λ d. d.now) result ≡ spec.deposit_at self.now number }
    {
        match place(&self.items, number) {
            Ok(place) => self.items.get(place),
            Err(_) => None,
        }
    }

    /// Whether there is a deposit of this number.
    pub fn is_live(&self, number: u32) -> bool
        ensures { result ≡ spec.is_live self.now number }
    {
        self.get(number).is_some()
    }

    /// The value of the deposit of this number, 0 without one.
    pub fn value_at(&self, number: u32) -> u64
        ensures { result ≡ spec.value_at self.now number }
    {
        match self.get(number) {
            None => 0,
            Some(deposit) => deposit.value,
        }
    }

    /// The owner of the deposit of this number, someone outside without one.
    pub fn owner_at(&self, number: u32) -> Owner
        ensures { result ≡ spec.owner_at self.now number }
    {
        match self.get(number) {
            None => Owner::Outside,
            Some(deposit) => deposit.owner,
        }
    }

    /// Whether the party owns the deposit of this number.
    pub fn has_owner(&self, number: u32, party: &Name) -> bool
        ensures { result ≡ same.owner_eq (spec.owner_at self.now number) (Owner.Party party.now) }
    {
        owner_eq(&self.owner_at(number), &Owner::Party(*party))
    }

    /// The values of the deposits of these numbers, added up.
    pub fn gone_value(&self, numbers: &[u32]) -> u64
        requires within { total_value self.now ≤ max_money }
        ensures { result ≡ total_value (gone self.now numbers.now) }
    {
        let mut total = 0;
        let mut rest = numbers;
        while let [first, others @ ..] = rest {
            total += self.further_value(*first, others);
            rest = others;
        }
        total
    }

    // What the deposit of this number adds to those of the others: nothing where it is one of them.
    #[tactic(auto, using(crate::proofs::Gone::gone_again, crate::proofs::Gone::gone_more))]
    fn further_value(&self, number: u32, others: &[u32]) -> u64
        ensures { result + total_value (gone self.now others.now) ≡ total_value (gone self.now (number ∷ others.now)) }
    {
        if has_number(number, others) {
            return 0;
        }
        // the proof asks that numbers ascend, which is known where a field is read
        let _ = &self.items;
        self.value_at(number)
    }

    /// Removes the deposits of these numbers.
    #[tactic(auto, using(theory_calculus::proofs::Numbered::filtered_ascends))]
    pub fn remove(&mut self, alloc: Global, numbers: &[u32])
        ensures { self.new ≡ spec.kept self.old numbers.now }
    {
        remove(alloc, &mut self.items, numbers);
    }

    /// Puts a deposit for each output, named in order by later numbers, in the place of those of these numbers.
    pub fn replace(
        &mut self,
        alloc: Global,
        numbers: &[u32],
        next: u32,
        outputs: &[(Owner, u64)],
    ) -> Result<(), OutOfMemory>
        requires ascending { are_ascending (map (λ d. d.number) (spec.kept self.old numbers.now ++ spec.made next outputs.now)) ≡ true }
        requires few { next + length outputs.now < 2 ^ 32 }
        ensures ok { OnOk result (self.new ≡ spec.kept self.old numbers.now ++ spec.made next outputs.now) }
        ensures err { OnErr result (self.new ≡ self.old) }
    {
        replace(alloc, &mut self.items, numbers, next, outputs)
    }

    /// Adds a deposit of the party, which is named by a later number than all others.
    #[tactic(auto, using(crate::proofs::Rows::push_ascends))]
    pub fn pay(&mut self, number: u32, party: &Name, value: u64) -> Result<(), OutOfMemory>
        requires last { list_all (λ n. nat_lt n number) (map (λ d. d.number) self.old) ≡ true }
        ensures ok { OnOk result (self.new ≡ self.old ++ spec.made number ((Owner.Party party.now, value) ∷ [])) }
        ensures err { OnErr result (self.new ≡ self.old) }
    {
        let owner = Owner::Party(*party);
        self.items.push_back(Deposit {
            number,
            owner,
            value,
        })?;
        Ok(())
    }
}

fn has_number(number: u32, numbers: &[u32]) -> bool
    ensures { result ≡ lists.has_number number numbers.now }
{
    numbers.contains(&number)
}
