//! Branches, contracts and lists of them, built of what was read.

ghost use Rattle.std.specs.Prelude.{◌≡◌, IfOk};
ghost use Rattle.spec_terms.specs.Term.{auth, after, put_reveal, split, no_branch, branch, no_part, part};
ghost use Rattle.bm_syntax.specs.View.{guarded, contract, choice_view, parts_view};
ghost use Rattle.bm_reader.specs.HeadingView.{heading};

use crate::heading::Heading;
use bm_syntax::{Contract, Guarded, Name, Part};
use spec_data::OutOfMemory;
use std::alloc::{AllocError, Global};

/// The branch, once the party has authorised it.
pub fn boxed_auth(alloc: Global, party: &Name, body: Guarded) -> Result<Guarded, OutOfMemory>
    ensures { IfOk result (λ g. guarded g ≡ auth party.now (guarded body)) }
{
    let body = Box::new(alloc, body).map_err(AllocError::from)?;
    Ok(Guarded::Auth {
        party: *party,
        body,
    })
}

/// The branch, from the block height on.
pub fn boxed_after(alloc: Global, height: u32, body: Guarded) -> Result<Guarded, OutOfMemory>
    ensures { IfOk result (λ g. guarded g ≡ after height (guarded body)) }
{
    let body = Box::new(alloc, body).map_err(AllocError::from)?;
    Ok(Guarded::After { height, body })
}

/// A branch that puts deposits, reveals secrets and goes on if the test is true of their lengths.
pub fn boxed_put_reveal(
    alloc: Global,
    head: Heading,
    next: Contract,
) -> Result<Guarded, OutOfMemory>
    ensures { IfOk result (λ g. guarded g ≡ put_reveal (heading head).0 (heading head).1 (heading head).2 (contract next)) }
{
    let next = Box::new(alloc, next).map_err(AllocError::from)?;
    Ok(Guarded::PutReveal {
        puts: head.puts,
        reveals: head.reveals,
        test: head.test,
        next,
    })
}

/// A branch that divides the balance among these parts.
pub fn split_among(parts: Vec<Part>) -> Guarded
    ensures { guarded result ≡ split (parts_view parts.items) }
{
    Guarded::Split { parts }
}

/// One branch, as a list.
pub fn one_branch(alloc: Global, only: Guarded) -> Result<Vec<Guarded>, OutOfMemory>
    ensures { IfOk result (λ list. choice_view list.items ≡ branch (guarded only) no_branch) }
{
    let mut branches = Vec::new(alloc);
    branches.push(only).map_err(AllocError::from)?;
    Ok(branches)
}

/// A branch in a box of its own.
pub fn boxed_branch(alloc: Global, only: Guarded) -> Result<Box<Guarded>, OutOfMemory>
    ensures { IfOk result (λ b. guarded b.value ≡ guarded only) }
{
    Box::new(alloc, only).map_err(AllocError::from)
}

/// The branch of a box, as a list.
pub fn unboxed_branch(alloc: Global, only: Box<Guarded>) -> Result<Vec<Guarded>, OutOfMemory>
    ensures { IfOk result (λ list. choice_view list.items ≡ branch (guarded only.value) no_branch) }
{
    one_branch(alloc, Box::into_inner(only))
}

/// A branch before at most 31 others.
pub fn branch_before(first: Box<Guarded>, others: Vec<Guarded>) -> Result<Vec<Guarded>, OutOfMemory>
    ensures { IfOk result (λ list. choice_view list.items ≡ branch (guarded first.value) (choice_view others.items)) }
{
    let mut branches = others;
    branches
        .insert(0, Box::into_inner(first))
        .map_err(AllocError::from)?;
    Ok(branches)
}

/// One part, as a list.
pub fn one_part(alloc: Global, value: u64, next: Contract) -> Result<Vec<Part>, OutOfMemory>
    ensures { IfOk result (λ list. parts_view list.items ≡ part value (contract next) no_part) }
{
    let mut parts = Vec::new(alloc);
    parts.push(Part { value, next }).map_err(AllocError::from)?;
    Ok(parts)
}

/// A part before at most 63 others.
pub fn part_before(value: u64, next: Contract, others: Vec<Part>) -> Result<Vec<Part>, OutOfMemory>
    ensures { IfOk result (λ list. parts_view list.items ≡ part value (contract next) (parts_view others.items)) }
{
    let mut parts = others;
    parts
        .insert(0, Part { value, next })
        .map_err(AllocError::from)?;
    Ok(parts)
}
