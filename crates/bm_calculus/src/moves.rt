//! What a move asks of the deposits, and what it makes of them.

ghost use Rattle.std.specs.Prelude.{◌≡◌, IfOk, OnOk, OnErr};
ghost use Rattle.std.specs.List.{list_all};
ghost use Rattle.spec_data.specs.Lists as lists;
ghost use Rattle.spec_calculus.specs.Moves as spec;
ghost use Rattle.spec_calculus.specs.Steps as steps;
ghost use Rattle.bm_calculus.specs.Agreed.{agreed, is_agreed};

use crate::deposits::Deposits;
use crate::same::move_eq;
use bm_repeats::are_distinct;
use spec_calculus::{Move, MoveAuthorisation, Owner};
use spec_data::{Name, OutOfMemory};
use std::alloc::Global;

fn are_live(deposits: &Deposits, inputs: &[u32]) -> bool
    ensures { result ≡ spec.are_live deposits.now inputs.now }
{
    inputs.iter().all(|n| deposits.is_live(*n))
}

fn spends_live(alloc: Global, deposits: &Deposits, inputs: &[u32]) -> bool
    ensures { result ≡ spec.spends_live deposits.now inputs.now }
{
    !inputs.is_empty() && are_distinct(alloc, inputs) && are_live(deposits, inputs)
}

fn owns_one(deposits: &Deposits, inputs: &[u32], party: &Name) -> bool
    ensures { result ≡ spec.owns_one deposits.now inputs.now party.now }
{
    inputs.iter().any(|n| deposits.has_owner(*n, party))
}

fn value_in(deposits: &Deposits, inputs: &[u32]) -> u128
    ensures { result ≡ spec.value_in deposits.now inputs.now }
{
    let mut total = 0;
    for input in inputs {
        total += deposits.value_at(*input) as u128;
    }
    total
}

fn value_out(outputs: &[(Owner, u64)]) -> u128
    ensures { result ≡ spec.value_out outputs.now }
{
    outputs.iter().map(|o| o.1 as u128).sum()
}

fn pays(deposits: &Deposits, action: &Move) -> bool
    ensures { result ≡ spec.pays deposits.now action.now }
{
    let outputs = action.outputs.as_slice();
    !outputs.is_empty() && value_out(outputs) <= value_in(deposits, action.inputs.as_slice())
}

fn has_authorised(authorised: &[MoveAuthorisation], party: &Name, action: &Move) -> bool
    ensures { result ≡ spec.has_authorised authorised.now party.now action.now }
{
    authorised
        .iter()
        .any(|a| a.party == *party && move_eq(&a.action, action))
}

fn has_agreed(authorised: &[MoveAuthorisation], action: &Move, owner: &Owner) -> bool
    ensures { result ≡ spec.has_agreed authorised.now action.now owner.now }
{
    match owner {
        Owner::Party(party) => has_authorised(authorised, party, action),
        Owner::Outside => true,
    }
}

// The same owner by owner. The whole move is compared for each.
fn all_agree_singly(deposits: &Deposits, authorised: &[MoveAuthorisation], action: &Move) -> bool
    ensures { result ≡ spec.all_agree deposits.now authorised.now action.now }
{
    action
        .inputs
        .as_slice()
        .iter()
        .all(|n| has_agreed(authorised, action, &deposits.owner_at(*n)))
}

// The parties that have authorised the move.
fn agreed(
    alloc: Global,
    authorised: &[MoveAuthorisation],
    action: &Move,
) -> Result<Vec<Name>, OutOfMemory>
    ensures { IfOk result (λ parties. parties.items ≡ agreed authorised.now action.now) }
{
    let mut parties = Vec::new(alloc);
    for a in authorised {
        if move_eq(&a.action, action) {
            parties.push(a.party)?;
        }
    }
    Ok(parties)
}

// Whether an owner is one of these parties; someone outside needn't be.
fn is_agreed(parties: &[Name], owner: &Owner) -> bool
    ensures { result ≡ is_agreed parties.now owner.now }
{
    match owner {
        Owner::Party(party) => parties.contains(party),
        Owner::Outside => true,
    }
}

fn are_agreed(deposits: &Deposits, parties: &[Name], inputs: &[u32]) -> bool
    ensures { result ≡ list_all (λ n. is_agreed parties.now (spec.owner_at deposits.now n)) inputs.now }
{
    inputs
        .iter()
        .all(|n| is_agreed(parties, &deposits.owner_at(*n)))
}

// Whether each party that owns an input has authorised the move. The move is compared once with each that is authorised; where there
// is no memory for the parties that have, it is compared for each input.
fn all_agree(
    alloc: Global,
    deposits: &Deposits,
    authorised: &[MoveAuthorisation],
    action: &Move,
) -> bool
    ensures { result ≡ spec.all_agree deposits.now authorised.now action.now }
{
    match agreed(alloc, authorised, action) {
        Ok(parties) => are_agreed(deposits, &parties, action.inputs.as_slice()),
        Err(_) => all_agree_singly(deposits, authorised, action),
    }
}

/// The first premise of a party's agreement to a move that fails, or 0.
pub fn auth_move_fails(alloc: Global, deposits: &Deposits, party: &Name, action: &Move) -> u8
    ensures { result ≡ lists.first_false 1 (steps.auth_move_premises deposits.now party.now action.now) }
{
    let inputs = action.inputs.as_slice();
    if !spends_live(alloc, deposits, inputs) {
        return 1;
    }
    if !owns_one(deposits, inputs, party) {
        return 2;
    }
    0
}

/// The first premise of a move that fails, or 0.
pub fn move_fails(
    alloc: Global,
    deposits: &Deposits,
    authorised: &[MoveAuthorisation],
    action: &Move,
) -> u8
    ensures { result ≡ lists.first_false 1 (steps.move_premises deposits.now authorised.now action.now) }
{
    if !spends_live(alloc, deposits, action.inputs.as_slice()) {
        return 1;
    }
    if !pays(deposits, action) {
        return 2;
    }
    if !all_agree(alloc, deposits, authorised, action) {
        return 3;
    }
    0
}

/// Adds the party's authorisation of the move, if it isn't there.
pub fn agree(
    alloc: Global,
    authorised: &mut Vec<MoveAuthorisation>,
    party: &Name,
    action: &Move,
) -> Result<(), OutOfMemory>
    ensures ok { OnOk result (authorised.new.items ≡ spec.with_authorisation authorised.old.items party.now action.now) }
    ensures err { OnErr result (authorised.new.items ≡ authorised.old.items) }
{
    if has_authorised(authorised.as_slice(), party, action) {
        return Ok(());
    }
    authorised.push(MoveAuthorisation {
        party: *party,
        action: action.copy(alloc)?,
    })?;
    Ok(())
}

/// Removes the authorisations of the move.
pub fn forget(authorised: &mut Vec<MoveAuthorisation>, action: &Move)
    ensures { authorised.new.items ≡ spec.without_move authorised.old.items action.now }
{
    authorised.retain(|a| !move_eq(&a.action, action));
}
