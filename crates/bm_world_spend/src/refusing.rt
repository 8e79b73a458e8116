//! Why a gift is refused.

ghost use Rattle.std.specs.Prelude.{◌≡◌, ◌≤◌, ℕ, List, None, map, not, nat_lt, slice_get, IfSome, IfNone, is_none};
ghost use Rattle.spec_data.specs.Lists.{first_reason};
ghost use Rattle.spec_data.specs.Ranges.{max_money};
ghost use Rattle.spec_calculus.specs.declared.step.Owner.TheVariants.{Party};
ghost use Rattle.spec_calculus.specs.Same.{owner_eq};
ghost use Rattle.spec_run.specs.World.{is_deposit};
ghost use Rattle.spec_run.specs.Owners as owners;
ghost use Rattle.spec_run.specs.Giving as spec;
ghost use Rattle.bm_world_board.specs.Accounts.{account_of};
ghost use Rattle.bm_world_board.specs.Prepares.{setup_of, world_of};
ghost use Rattle.bm_world_spend.specs.Gifts as by;

use bm_repeats::are_distinct;
use bm_world_board::{Board, owner_of_script};
use bm_world_coins::Coins;
use spec_bitcoin::Refusal;
use spec_calculus::Owner;
use spec_data::{MAX_MONEY, Name};
use spec_run::Reason;
use std::alloc::Global;

// Whether the output of this number is a live deposit.
fn is_live_deposit(board: &Board, number: u32) -> bool
    ensures { result ≡ is_deposit (slice_get board.now.coins.outputs number) }
{
    match board.coins.output(number) {
        Some(output) => output.is_deposit(),
        None => false,
    }
}

// The first of the numbers that is no live deposit's.
fn first_dead(board: &Board, inputs: &[u32]) -> Option<u32>
    ensures { (messages : List (List ℕ)) → result ≡ spec.first_dead (world_of board.now messages) inputs.now }
{
    for number in inputs {
        if !is_live_deposit(board, *number) {
            return Some(*number);
        }
    }
    None
}

// The owner of the live deposit of this number.
fn owner_at(board: &Board, number: u32) -> Owner
    ensures { result ≡ by.owner_by board.now.accounts (slice_get board.now.coins.outputs number) }
{
    match board.coins.output(number) {
        Some(output) => {
            if output.is_deposit() {
                owner_of_script(board.accounts.as_slice(), output.script())
            } else {
                Owner::Outside
            }
        }
        None => Owner::Outside,
    }
}

// Whether the owner is this party.
fn is_party(owner: &Owner, party: &Name) -> bool
    ensures { result ≡ owner_eq owner.now (Party party.now) }
{
    match owner {
        Owner::Party(name) => *name == *party,
        Owner::Outside => false,
    }
}

// The first of the numbers whose deposit has another owner.
fn first_foreign(board: &Board, party: &Name, inputs: &[u32]) -> Option<u32>
    ensures { result ≡ by.first_foreign_by board.now.accounts board.now.coins.outputs party.now inputs.now }
{
    for number in inputs {
        if !is_party(&owner_at(board, *number), party) {
            return Some(*number);
        }
    }
    None
}

// What the outputs are worth, unless it is more than there can be. One output of more makes it so.
fn value_out(outputs: &[(Name, u64)]) -> Option<u64>
    ensures none { is_none result ≡ nat_lt max_money (spec.value_out outputs.now) }
    ensures some { IfSome result (λ total. total ≡ spec.value_out outputs.now) }
{
    let mut total = 0;
    for output in outputs {
        if output.1 > MAX_MONEY - total {
            return None;
        }
        total += output.1;
    }
    Some(total)
}

/// The value of the live deposit of this number, in satoshi, 0 where there is none.
pub(crate) fn value_at(coins: &Coins, number: u32) -> u64
    ensures { result ≡ owners.deposit_value (slice_get coins.now.outputs number) }
{
    match coins.output(number) {
        Some(output) => {
            if output.is_deposit() {
                output.value()
            } else {
                0
            }
        }
        None => 0,
    }
}

// Whether the inputs are worth less than this. What is needed is lowered input by input, so that no sum can overflow.
fn is_short(board: &Board, inputs: &[u32], total: u64) -> bool
    ensures { (messages : List (List ℕ)) → result ≡ nat_lt (spec.value_in (world_of board.now messages) inputs.now) total }
{
    let mut need = total;
    for number in inputs {
        need = need.saturating_sub(value_at(&board.coins, *number));
    }
    need > 0
}

/// Why a gift is refused, if it is.
pub(crate) fn give_refusal(
    alloc: Global,
    board: &Board,
    party: &Name,
    inputs: &[u32],
    outputs: &[(Name, u64)],
) -> Option<Reason>
    ensures { (hash : List ℕ → List ℕ) (messages : List (List ℕ)) → board.now.accounts ≡ map (account_of hash) board.now.header.parties
        → result ≡ first_reason (spec.give_row (setup_of hash board.now) (world_of board.now messages) party.now inputs.now outputs.now) }
{
    if let Some(number) = first_dead(board, inputs) {
        return Some(Reason::NotLiveOutput(number));
    }
    if let Some(number) = first_foreign(board, party, inputs) {
        return Some(Reason::NotOwnerOutput(number));
    }
    if !are_distinct(alloc, inputs) {
        return Some(Reason::Ledger(Refusal::InputRepeated));
    }
    let Some(total) = value_out(outputs) else {
        return Some(Reason::Ledger(Refusal::ValueLimit));
    };
    if is_short(board, inputs, total) {
        return Some(Reason::Ledger(Refusal::InsufficientIn));
    }
    None
}
