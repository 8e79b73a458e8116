//! Contracts that are advertised with their deposits.

ghost use Rattle.std.specs.Prelude.{◌≡◌, ◌∷◌, [], ℕ, List, Some, None, map, option_map, slice_get, IfOk};
ghost use Rattle.std.specs.List.{list_all, list_any};
ghost use Rattle.std.specs.Option.{option_copied};
ghost use Rattle.spec_data.specs.Lists as lists;
ghost use Rattle.spec_data.specs.Lists.{is_among, has_number, look_up, first_reason};
ghost use Rattle.spec_terms.specs.Precondition as pre;
ghost use Rattle.bm_hash.specs.Messages.{evidence_of};
ghost use Rattle.spec_run.specs.Setup.{Setup, pre_of, people_of};
ghost use Rattle.spec_run.specs.World.{is_deposit};
ghost use Rattle.spec_calculus.specs.declared.step.Owner.TheVariants.{Party};
ghost use Rattle.spec_calculus.specs.Same.{owner_eq};
ghost use Rattle.spec_terms.specs.Precondition.{holding};
ghost use Rattle.spec_run.specs.Advertising as spec;
ghost use Rattle.bm_world_board.specs.Accounts.{account_of};
ghost use Rattle.bm_world_board.specs.Prepares.{setup_of, world_of, Prepares};
ghost use Rattle.bm_world_events.specs.Advertising.{holding_by, suits_by, suits_if, unsuited_by};

use bm_wellformed::Checked;
use bm_world_board::{Account, Board, Change, PendingChange, is_name_among, owner_of_script};
use bm_world_coins::MadeOutput;
use spec_calculus::{Advertised, Owner};
use spec_data::{Name, OutOfMemory, Seq};
use spec_run::Reason;
use spec_terms::Pre;
use std::alloc::Global;

// The names of the deposits of a precondition.
fn names_of(alloc: Global, entries: &[Pre]) -> Result<Seq<Name>, OutOfMemory>
    ensures { IfOk result (λ names. names ≡ pre.names_of (pre.deposits entries.now)) }
{
    let mut names = Seq::new(alloc);
    for entry in entries {
        match entry {
            Pre::Persistent { name, .. } => names.push(*name)?,
            Pre::Volatile { name, .. } => names.push(*name)?,
            Pre::Secret { .. } => (),
        }
    }
    Ok(names)
}

// The names of the deposits of a contract's precondition.
fn deposit_names(alloc: Global, board: &Board, contract: u32) -> Result<Seq<Name>, OutOfMemory>
    ensures { IfOk result (λ names. names ≡ pre.names_of (pre.deposits (pre_of (slice_get board.now.contracts contract)))) }
{
    match board.contract(contract) {
        Some(checked) => names_of(alloc, checked.advert().pre.as_slice()),
        None => Ok(Seq::new(alloc)),
    }
}

// Whether a binding is of this name.
fn is_bound(bindings: &[(Name, u32)], name: &Name) -> bool
    ensures { result ≡ is_among name.now (pre.names_of bindings.now) }
{
    for binding in bindings {
        if binding.0 == *name {
            return true;
        }
    }
    false
}

// Whether each bound name is one of these.
fn are_all_required(bindings: &[(Name, u32)], required: &[Name]) -> bool
    ensures { result ≡ list_all (λ n. is_among n required.now) (pre.names_of bindings.now) }
{
    for binding in bindings {
        if !is_name_among(required, &binding.0) {
            return false;
        }
    }
    true
}

// Whether each of these names is bound.
fn are_all_bound(bindings: &[(Name, u32)], required: &[Name]) -> bool
    ensures { result ≡ list_all (λ n. is_among n (pre.names_of bindings.now)) required.now }
{
    for name in required {
        if !is_bound(bindings, name) {
            return false;
        }
    }
    true
}

// Whether no name is bound twice. Where all are of a few names, one that is comes among the first.
fn are_different(bindings: &[(Name, u32)]) -> bool
    ensures { result ≡ lists.are_different (pre.names_of bindings.now) }
{
    let mut rest = bindings;
    while let Some((first, others)) = rest.split_first() {
        if is_bound(others, &first.0) {
            return false;
        }
        rest = others;
    }
    true
}

// Whether the bound names are these, each once, in any order.
fn are_rearranged(bindings: &[(Name, u32)], required: &[Name]) -> bool
    ensures { result ≡ spec.are_rearranged (pre.names_of bindings.now) required.now }
{
    are_all_required(bindings, required)
        && are_different(bindings)
        && are_all_bound(bindings, required)
}

// Whether a binding is to the output of this number.
fn has_bound(bindings: &[(Name, u32)], number: u32) -> bool
    ensures { result ≡ has_number number (map (λ b. b.1) bindings.now) }
{
    for binding in bindings {
        if binding.1 == number {
            return true;
        }
    }
    false
}

// The name of the first binding to an output that one is bound to that stands earlier.
fn repeated(bindings: &[(Name, u32)]) -> Option<Name>
    ensures { result ≡ spec.repeated [] bindings.now }
{
    for (k, binding) in bindings.iter().enumerate() {
        if has_bound(&bindings[..k], binding.1) {
            return Some(binding.0);
        }
    }
    None
}

// Whether the output of this number is a live deposit.
fn is_live_deposit(board: &Board, number: u32) -> bool
    ensures { result ≡ is_deposit (slice_get board.now.coins.outputs number) }
{
    match board.coins.output(number) {
        Some(output) => output.is_deposit(),
        None => false,
    }
}

// The name of the first binding to no live deposit.
fn not_live(board: &Board, bindings: &[(Name, u32)]) -> Option<Name>
    ensures { (messages : List (List ℕ)) → result ≡ spec.not_live (world_of board.now messages) bindings.now }
{
    for binding in bindings {
        if !is_live_deposit(board, binding.1) {
            return Some(binding.0);
        }
    }
    None
}

// The owner and the value of the deposit that a precondition has under this name.
fn holding_of(entries: &[Pre], name: &Name) -> Option<(Name, u64)>
    ensures { option_map holding_by result ≡ look_up name.now (pre.deposits entries.now) }
{
    for entry in entries {
        match entry {
            Pre::Persistent {
                party,
                value,
                name: known,
            } => {
                if *known == *name {
                    return Some((*party, *value));
                }
            }
            Pre::Volatile {
                party,
                value,
                name: known,
            } => {
                if *known == *name {
                    return Some((*party, *value));
                }
            }
            Pre::Secret { .. } => (),
        }
    }
    None
}

// Whether the owner is this party.
fn is_party(owner: &Owner, party: &Name) -> bool
    ensures { result ≡ owner_eq owner.now (Party party.now) }
{
    match owner {
        Owner::Party(name) => *name == *party,
        Owner::Outside => false,
    }
}

// Whether it is a live deposit of this owner and value.
fn is_held(accounts: &[Account], output: &MadeOutput, owner: &Name, value: u64) -> bool
    ensures { result ≡ suits_by accounts.now (holding owner.now value) output.now }
{
    output.is_deposit()
        && is_party(&owner_of_script(accounts, output.script()), owner)
        && output.value() == value
}

// Whether the output of this number is a live deposit of the owner and the value that are needed.
fn suits(board: &Board, required: Option<(Name, u64)>, number: u32) -> bool
    ensures { result ≡ suits_if board.now.accounts (option_map holding_by required) (slice_get board.now.coins.outputs number) }
{
    match required {
        Some((owner, value)) => match board.coins.output(number) {
            Some(output) => is_held(board.accounts.as_slice(), output, &owner, value),
            None => false,
        },
        None => false,
    }
}

// The name of the first binding to a deposit of another owner or value than these entries need.
fn unsuited(board: &Board, entries: &[Pre], bindings: &[(Name, u32)]) -> Option<Name>
    ensures { result ≡ unsuited_by board.now.accounts board.now.coins.outputs entries.now bindings.now }
{
    for binding in bindings {
        if !suits(board, holding_of(entries, &binding.0), binding.1) {
            return Some(binding.0);
        }
    }
    None
}

// Whether one of the parties is honest.
fn has_honest(board: &Board, parties: &[Name]) -> bool
    ensures { result ≡ list_any (λ p. is_among p board.now.header.honest) parties.now }
{
    for party in parties {
        if board.is_honest(party) {
            return true;
        }
    }
    false
}

// What the names are bound to, in their order; 0 where one isn't bound.
fn arranged(
    alloc: Global,
    required: &[Name],
    bindings: &[(Name, u32)],
) -> Result<Seq<(Name, u32)>, OutOfMemory>
    ensures { IfOk result (λ list. list ≡ spec.arranged 0 required.now bindings.now) }
{
    let mut list = Seq::new(alloc);
    for name in required {
        list.push((*name, bound_to(bindings, name)))?;
    }
    Ok(list)
}

// What the name is bound to, 0 where it isn't.
fn bound_to(bindings: &[(Name, u32)], name: &Name) -> u32
    ensures { result ≡ spec.or_else_this 0 (look_up name.now bindings.now) }
{
    for binding in bindings {
        if binding.0 == *name {
            return binding.1;
        }
    }
    0
}

// The precondition of a contract.
fn entries_of(checked: &Checked) -> &[Pre]
    ensures { result.now ≡ checked.now.pre }
{
    checked.advert().pre.as_slice()
}

// The name of the first binding to a deposit of another owner or value than the contract needs.
fn unsuited_in(board: &Board, contract: u32, bindings: &[(Name, u32)]) -> Option<Name>
    ensures { (hash : List ℕ → List ℕ) (messages : List (List ℕ)) → board.now.accounts ≡ map (account_of hash) board.now.header.parties
        → result ≡ spec.unsuited (setup_of hash board.now) (world_of board.now messages) contract bindings.now }
{
    match board.contract(contract) {
        Some(checked) => unsuited(board, entries_of(checked), bindings),
        None => unsuited(board, &[], bindings),
    }
}

// Whether a participant of the contract is honest.
fn has_honest_in(board: &Board, contract: u32) -> bool
    ensures { result ≡ list_any (λ p. is_among p board.now.header.honest) (people_of (slice_get board.now.contracts contract)) }
{
    match board.contract(contract) {
        Some(checked) => has_honest(board, checked.parties()),
        None => false,
    }
}

// Why it is refused, if it is, where these are the names of the contract's deposits.
fn advertise_refusal(
    board: &Board,
    contract: u32,
    bindings: &[(Name, u32)],
    required: &[Name],
) -> Option<Reason>
    requires { required.now ≡ pre.names_of (pre.deposits (pre_of (slice_get board.now.contracts contract))) }
    ensures { (hash : List ℕ → List ℕ) (messages : List (List ℕ)) → board.now.accounts ≡ map (account_of hash) board.now.header.parties
        → result ≡ first_reason (spec.advertise_row (setup_of hash board.now) (world_of board.now messages) contract bindings.now) }
{
    if board.contract(contract).is_none() {
        return Some(Reason::NoContract);
    }
    if board.exchange.bindings(contract).is_some() {
        return Some(Reason::AdvertFull);
    }
    if !are_rearranged(bindings, required) {
        return Some(Reason::WrongNames);
    }
    if let Some(name) = repeated(bindings) {
        return Some(Reason::DepositRepeated(name));
    }
    if let Some(name) = not_live(board, bindings) {
        return Some(Reason::NotLive(name));
    }
    if let Some(name) = unsuited_in(board, contract, bindings) {
        return Some(Reason::WrongDeposit(name));
    }
    if !has_honest_in(board, contract) {
        return Some(Reason::NoHonest);
    }
    None
}

/// The pending effect of `advertise`; it hashes nothing.
pub fn pending_advertise(
    alloc: Global,
    board: &Board,
    contract: u32,
    bindings: &[(Name, u32)],
) -> Result<PendingChange, OutOfMemory>
    ensures { IfOk result (λ d. (hash : List ℕ → List ℕ) (messages : List (List ℕ)) → board.now.accounts ≡ map (account_of hash) board.now.header.parties
        → evidence_of hash messages ≡ None
        → Prepares hash (world_of board.now messages) messages messages (spec.advertise_pending (setup_of hash board.now) (world_of board.now messages) contract bindings.now) d) }
{
    let required = deposit_names(alloc, board, contract)?;
    if let Some(reason) = advertise_refusal(board, contract, bindings, required.as_slice()) {
        return Ok(PendingChange::refused(alloc, reason));
    }
    let bindings = arranged(alloc, required.as_slice(), bindings)?;
    Ok(PendingChange::done(alloc, Change::Advertise(Advertised { contract, bindings })))
}
