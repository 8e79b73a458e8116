//! How a deal goes on by a confirmed transaction that isn't bad.

ghost use Rattle.std.specs.Prelude.{◌≡◌, ◌+◌, ◌++◌, List, ℕ, length, map, filter, option_map, IfOk, OnOk};
ghost use Rattle.spec_chain.specs.Chain.{if_matters};
ghost use Rattle.spec_chain.specs.Following as spec;
ghost use Rattle.spec_chain.specs.Outputs as held;
ghost use Rattle.deal_follow.specs.Boards.{setting};
ghost use Rattle.deal_follow.specs.Follows.{numbers_of, HasRead};
ghost use Rattle.deal_follow.specs.Seen.{state_in, happened_in};

use crate::board::Board;
use crate::event::Event;
use crate::hashing::Strings;
use crate::outputs::{copy_output, is_position, made_by};
use crate::showing::{Shows, shown_by};
use crate::spots::same_place;
use crate::standing::Standing;
use crate::taken::{deeds_of, gone_by};
use crate::which::{transaction_named, which_of};
use spec_bitcoin::{OutPoint, Tx, TxIn};
use spec_chain::Output;
use spec_data::{Bytes, Name, OutOfMemory};
use spec_deal::Transaction;
use spec_tool::Which;
use std::alloc::{AllocError, Global};

// ---- what it makes

// The outputs of the deal that the transaction of this name makes.
fn outputs_named(
    alloc: Global,
    board: &Board,
    first: u32,
    which: &Option<Which>,
) -> Result<Vec<Output>, OutOfMemory>
    ensures { IfOk result (λ v. v.items ≡ spec.outputs_named (setting board.now) board.now.transactions.now first which.now) }
{
    let Some(which) = which else {
        return Ok(Vec::new(alloc));
    };
    match transaction_named(board.transactions, which) {
        Some(transaction) => made_by(alloc, board.checked, first, transaction),
        None => Ok(Vec::new(alloc)),
    }
}

// The numbers of these outputs.
fn numbers(alloc: Global, outputs: &[Output]) -> Result<Vec<u32>, OutOfMemory>
    ensures { IfOk result (λ v. v.items ≡ numbers_of outputs.now) }
{
    let mut numbers = Vec::new(alloc);
    for output in outputs {
        numbers.push(output.number)?;
    }
    Ok(numbers)
}

// ---- where the deal stands then

// What lies there isn't live.
fn remove_output(live: &mut Vec<Output>, place: &OutPoint)
    ensures { live.new.items ≡ held.without live.old.items place.now }
{
    live.retain(|output| !same_place(&output.place, place));
}

// What is spent isn't live.
fn remove_spent(live: &mut Vec<Output>, inputs: &[TxIn])
    ensures { live.new.items ≡ held.without_all live.old.items (map (λ i. i.prev) inputs.now) }
{
    for input in inputs {
        remove_output(live, &input.prev);
    }
}

// The positions among these outputs are live.
fn put_positions(
    alloc: Global,
    live: &mut Vec<Output>,
    outputs: &[Output],
) -> Result<(), OutOfMemory>
    ensures { OnOk result (live.new.items ≡ live.old.items ++ filter held.is_position outputs.now) }
{
    for output in outputs {
        if is_position(output) {
            live.push(copy_output(alloc, output)?)?;
        }
    }
    Ok(())
}

// Adds outputs.
fn put_made(made: &mut Vec<Output>, outputs: Vec<Output>) -> Result<(), OutOfMemory>
    ensures { OnOk result (made.new.items ≡ made.old.items ++ outputs.items) }
{
    let mut rest = outputs;
    made.append(&mut rest)
}

// Adds strings.
fn put_shown(shown: &mut Vec<(Name, Bytes)>, strings: Vec<(Name, Bytes)>) -> Result<(), OutOfMemory>
    ensures { OnOk result (shown.new.items ≡ shown.old.items ++ strings.items) }
{
    let mut rest = strings;
    shown.append(&mut rest)
}

// The number behind so many; one of more than 32 bits is taken for lack of memory.
fn number_behind(number: u32, count: usize) -> Result<u32, OutOfMemory>
    ensures { IfOk result (λ n. n ≡ number + count) }
{
    if count > (u32::MAX - number) as usize {
        return Err(AllocError);
    }
    Ok(number + count as u32)
}

// What the inputs spend isn't live, and what was made and shown is there.
fn move_on(
    alloc: Global,
    standing: &mut Standing,
    inputs: &[TxIn],
    made: Vec<Output>,
    strings: Vec<(Name, Bytes)>,
) -> Result<(), OutOfMemory>
    ensures { OnOk result (state_in standing.new ≡ record {
      live = held.without_all standing.old.live.items (map (λ i. i.prev) inputs.now) ++ filter held.is_position made.items;
      next = standing.old.next + length made.items;
      made = standing.old.made.items ++ made.items;
      shown = standing.old.shown.items ++ strings.items;
    }) }
{
    let next = number_behind(standing.next, made.len())?;
    remove_spent(&mut standing.live, inputs);
    put_positions(alloc, &mut standing.live, &made)?;
    standing.next = next;
    put_made(&mut standing.made, made)?;
    put_shown(&mut standing.shown, strings)
}

// ---- what happened

/// What a transaction comes to: what happened, what it made, and the strings that it showed.
#[derive(Drop)]
pub(crate) struct Outcome {
    pub(crate) event: Event,
    pub(crate) made: Vec<Output>,
    pub(crate) strings: Vec<(Name, Bytes)>,
}

// What a transaction that is this one of the deal's, and shows this, comes to.
fn outcome_by(
    alloc: Global,
    board: &Board,
    standing: &Standing,
    height: u32,
    tx: &Tx,
    txid: [u8; 32],
    which: Option<Which>,
    shows: Shows,
) -> Result<Outcome, OutOfMemory>
    ensures event { IfOk result (λ o. happened_in o.event ≡ record {
      which = which;
      txid = txid;
      height = height;
      steps = spec.reveal_steps shows.secrets.items ++ spec.which_steps (setting board.now) (state_in standing.now) tx.now which;
      made = numbers_of (spec.outputs_named (setting board.now) board.now.transactions.now standing.now.next which);
      gone = spec.gone_by (state_in standing.now) tx.now which;
    }) }
    ensures made { IfOk result (λ o. o.made.items
        ≡ spec.outputs_named (setting board.now) board.now.transactions.now standing.now.next which) }
    ensures strings { IfOk result (λ o. o.strings.items ≡ shows.strings.items) }
{
    let deeds = deeds_of(alloc, board, standing, tx, &which, &shows.secrets)?;
    let gone = gone_by(alloc, standing, tx, &which)?;
    let outputs = outputs_named(alloc, board, standing.next, &which)?;
    let made = numbers(alloc, &outputs)?;
    let Shows {
        secrets: _,
        strings,
    } = shows;
    Ok(Outcome {
        event: Event {
            which,
            txid,
            height,
            deeds,
            made,
            gone,
        },
        made: outputs,
        strings,
    })
}

/// What a transaction in a block of this height comes to, by the transaction of the deal that has its bytes.
pub(crate) fn outcome_of(
    alloc: Global,
    board: &Board,
    standing: &Standing,
    height: u32,
    tx: &Tx,
    own: Option<&Transaction>,
    strings: &Strings,
) -> Result<Outcome, OutOfMemory>
    requires own { option_map (λ t. t.now) own ≡ spec.own_transaction board.now.transactions.now tx.now }
    ensures event { (hash : List ℕ → List ℕ) → HasRead hash tx.now strings.now
        → IfOk result (λ o. happened_in o.event
        ≡ spec.happened hash (setting board.now) board.now.transactions.now (state_in standing.now) height tx.now) }
    ensures made { (hash : List ℕ → List ℕ) → HasRead hash tx.now strings.now
        → IfOk result (λ o. o.made.items ≡ spec.outputs_made (setting board.now) board.now.transactions.now (state_in standing.now) tx.now) }
    ensures strings { (hash : List ℕ → List ℕ) → HasRead hash tx.now strings.now
        → IfOk result (λ o. o.strings.items ≡ spec.strings_shown hash (setting board.now) (state_in standing.now) tx.now) }
{
    let which = which_of(alloc, board, tx, own)?;
    let shows = shown_by(alloc, board, standing, &strings.items)?;
    outcome_by(
        alloc,
        board,
        standing,
        height,
        tx,
        strings.txid,
        which,
        shows,
    )
}

// Whether it has to do with the deal.
fn matters(event: &Event) -> bool
    ensures { result ≡ spec.matters (happened_in event.now) }
{
    event.which.is_some() || !event.deeds.is_empty() || !event.gone.is_empty()
}

// Adds what happened, if it has to do with the deal.
fn put_event(history: &mut Vec<Event>, event: Event) -> Result<(), OutOfMemory>
    ensures { OnOk result (map happened_in history.new.items
        ≡ if_matters (spec.matters (happened_in event)) (map happened_in history.old.items) (happened_in event)) }
{
    if matters(&event) {
        history.push(event)?;
    }
    Ok(())
}

/// The deal goes on by what a transaction with these inputs comes to.
pub(crate) fn go_on(
    alloc: Global,
    standing: &mut Standing,
    history: &mut Vec<Event>,
    inputs: &[TxIn],
    outcome: Outcome,
) -> Result<(), OutOfMemory>
    ensures state { OnOk result (state_in standing.new ≡ record {
      live = held.without_all standing.old.live.items (map (λ i. i.prev) inputs.now) ++ filter held.is_position outcome.made.items;
      next = standing.old.next + length outcome.made.items;
      made = standing.old.made.items ++ outcome.made.items;
      shown = standing.old.shown.items ++ outcome.strings.items;
    }) }
    ensures history { OnOk result (map happened_in history.new.items
        ≡ if_matters (spec.matters (happened_in outcome.event)) (map happened_in history.old.items) (happened_in outcome.event)) }
{
    let Outcome {
        event,
        made,
        strings,
    } = outcome;
    put_event(history, event)?;
    move_on(alloc, standing, inputs, made, strings)
}
