//! Which transactions may come next.

ghost use Rattle.std.specs.Prelude.{◌≡◌, ◌+◌, ◌++◌, map, option_map, IfOk, OnOk};
ghost use Rattle.spec_terms.specs.Term.{branches};
ghost use Rattle.spec_chain.specs.Outstanding as spec;
ghost use Rattle.bm_syntax.specs.View.{contract, guarded};
ghost use Rattle.deal_state.specs.Prospects.{branches_beneath, branches_under, branches_in, initial_if, asked_by};
ghost use Rattle.deal_follow.specs.Seen.{state_in};

use bm_syntax::{Contract, Guarded, choice_at, longer};
use bm_wellformed::Checked;
use deal_follow::Standing;
use spec_chain::{Held, Output};
use spec_data::OutOfMemory;
use spec_terms::{Path, PathStep};
use spec_tool::Which;
use std::alloc::{AllocError, Global};

// The next number; one of more than 32 bits is taken for lack of memory.
fn next_number(number: u32) -> Result<u32, OutOfMemory>
    ensures { IfOk result (λ n. n ≡ number + 1) }
{
    if number == u32::MAX {
        return Err(AllocError);
    }
    Ok(number + 1)
}

// Adds the branches of a choice at a position.
fn put_branches(
    alloc: Global,
    all: &mut Vec<Which>,
    position: &Path,
    branches: &[Guarded],
) -> Result<(), OutOfMemory>
    ensures { OnOk result (all.new.items ≡ all.old.items ++ spec.branches_from position.now 0 (map guarded branches.now)) }
{
    let mut number = 0u32;
    for _branch in branches {
        all.push(Which::At(longer(alloc, position, PathStep::Branch(number))?))?;
        number = next_number(number)?;
    }
    Ok(())
}

// The branches of a choice.
fn branches_of(choice: &Contract) -> &[Guarded]
    ensures { map guarded result.now ≡ branches (contract choice.now) }
{
    choice.branches.as_slice()
}

// Adds the branches of a choice, if there is one.
fn put_choice(
    alloc: Global,
    all: &mut Vec<Which>,
    position: &Path,
    choice: Option<&Contract>,
) -> Result<(), OutOfMemory>
    ensures { OnOk result (all.new.items ≡ all.old.items
        ++ branches_beneath position.now (option_map (λ c. contract c.now) choice.entry)) }
{
    match choice {
        Some(choice) => put_branches(alloc, all, position, branches_of(choice)),
        None => Ok(()),
    }
}

// Adds the branches of a position.
fn put_position(
    alloc: Global,
    all: &mut Vec<Which>,
    checked: &Checked,
    position: &Path,
) -> Result<(), OutOfMemory>
    ensures { OnOk result (all.new.items ≡ all.old.items ++ branches_under checked.now position.now) }
{
    put_choice(
        alloc,
        all,
        position,
        choice_at(&checked.advert().root, position),
    )
}

// Adds the branches of an output, if it is a position.
fn put_output(
    alloc: Global,
    all: &mut Vec<Which>,
    checked: &Checked,
    output: &Output,
) -> Result<(), OutOfMemory>
    ensures { OnOk result (all.new.items ≡ all.old.items ++ branches_in checked.now output.now) }
{
    match &output.held {
        Held::Position(path) => put_position(alloc, all, checked, path),
        Held::Deposit(_) => Ok(()),
        Held::Payout(_) => Ok(()),
    }
}

// The initial transaction, until it has come.
fn beginning(alloc: Global, made: &[Output]) -> Result<Vec<Which>, OutOfMemory>
    ensures { IfOk result (λ v. v.items ≡ initial_if made.now) }
{
    let mut all = Vec::new(alloc);
    if made.is_empty() {
        all.push(Which::Init)?;
    }
    Ok(all)
}

/// The initial transaction, until it has come, and each branch of each live position.
pub(crate) fn asked(
    alloc: Global,
    checked: &Checked,
    standing: &Standing,
) -> Result<Vec<Which>, OutOfMemory>
    ensures { IfOk result (λ v. v.items ≡ asked_by checked.now (state_in standing.now)) }
{
    let mut all = beginning(alloc, &standing.made)?;
    for output in &standing.live {
        put_output(alloc, &mut all, checked, output)?;
    }
    Ok(all)
}
