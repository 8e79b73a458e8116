//! The steps of an event. What is rare stands apart, so that its room isn't blanked for every event.

ghost use Rattle.std.specs.Prelude.{◌≡◌, ◌<◌, ◌^◌, ◌++◌, ◌∷◌, [], ℕ, List, length, Some, IfOk};
ghost use Rattle.spec_calculus.specs.declared.step.Step.TheVariants as steps;
ghost use Rattle.spec_run.specs.World.{World, bindings_at};
ghost use Rattle.spec_run.specs.declared.outcome.Outcome.TheVariants as outcomes;
ghost use Rattle.bm_world_board.specs.Prepares.{setup_of};
ghost use Rattle.spec_run.specs.Steps as spec;
ghost use Rattle.bm_exchange.specs.Exchanged.{digests_by};
ghost use Rattle.bm_translate.specs.Shown.{revealed_of, posts_of, told_of};
ghost use Rattle.bm_translate.specs.Lengths.{lengths_by};
ghost use Rattle.bm_translate.specs.Moments.{IsTurn, IsAccepted};

use crate::kinds::{kind_steps, pre_of};
use crate::lengths::lengths_of;
use crate::running::Running;
use crate::strings_shown::Shown;
use crate::told::init_steps;
use bm_exchange::Exchange;
use bm_hash::{Hash32, Trail};
use bm_world_board::Board;
use spec_bitcoin::Tx;
use spec_calculus::Step;
use spec_data::{Name, OutOfMemory, Seq};
use spec_run::{Event, Outcome, Record};
use std::alloc::Global;

// This step alone, in the room of an empty list.
fn one_step(room: Vec<Step>, step: Step) -> Result<Vec<Step>, OutOfMemory>
    requires { room.items ≡ [] }
    ensures { IfOk result (λ made. made.items ≡ step ∷ []) }
{
    let mut made = room;
    made.push(step)?;
    Ok(made)
}

// What the contract is bound to in the end, nothing where it isn't advertised.
fn bindings_told(exchange: &Exchange, contract: u32) -> &[(Name, u32)]
    ensures { result.now ≡ bindings_at exchange.now.advertised contract }
{
    match exchange.bindings(contract) {
        Some(bindings) => bindings,
        None => &[],
    }
}

// What the party has committed in the end, nothing where it hasn't.
fn digests_told<'a>(exchange: &'a Exchange, contract: u32, party: &Name) -> &'a [(Name, [u8; 32])]
    ensures { result.now ≡ digests_by exchange.now.promises contract party.now }
{
    match exchange.digests(contract, party) {
        Some(digests) => digests,
        None => &[],
    }
}

// The contract is advertised with what it is bound to.
#[inline(never)]
fn advertise_steps(
    alloc: Global,
    room: Vec<Step>,
    exchange: &Exchange,
    contract: u32,
) -> Result<Vec<Step>, OutOfMemory>
    requires { room.items ≡ [] }
    ensures { IfOk result (λ made. made.items ≡ steps.Advertise contract (bindings_at exchange.now.advertised contract) ∷ []) }
{
    let bindings = Vec::from_slice(alloc, bindings_told(exchange, contract))?;
    one_step(
        room,
        Step::Advertise {
            contract,
            bindings: Seq::of(bindings),
        },
    )
}

// The party commits, and what it commits is revealed where it is posted already.
#[inline(never)]
fn commit_steps<H: Hash32 + Drop>(
    alloc: Global,
    room: Vec<Step>,
    trail: &Trail<H>,
    board: &Board,
    running: &Running,
    contract: u32,
    party: &Name,
) -> Result<Vec<Step>, OutOfMemory>
    requires { room.items ≡ [] }
    ensures { IfOk result (λ made. made.items
        ≡ steps.Commit contract party.now (lengths_by (H.digest_of trail.now.hasher) board.now.header trail.now.messages
        board.now.exchange.posted party.now (digests_by board.now.exchange.promises contract party.now))
        ∷ revealed_of contract party.now running.now.secrets) }
{
    let digests = digests_told(&board.exchange, contract, party);
    let lengths = lengths_of(alloc, trail, &board.header, &board.exchange, party, digests)?;
    let mut made = one_step(
        room,
        Step::Commit {
            contract,
            party: *party,
            lengths,
        },
    )?;
    running.secrets.put_revealed(&mut made, contract, party)?;
    Ok(made)
}

// The steps of an event that was done.
fn done_steps<H: Hash32 + Drop>(
    alloc: Global,
    room: Vec<Step>,
    trail: &Trail<H>,
    board: &Board,
    running: &Running,
    shown: &Shown<'_>,
    recorded: &Record,
) -> Result<Vec<Step>, OutOfMemory>
    requires room { room.items ≡ [] }
    requires done { recorded.now.outcome ≡ outcomes.Done }
    requires shown { shown.now ≡ told_of running.now.secrets (posts_of board.now.header.secrets recorded.now) }
    ensures { (f w next : World) → IsTurn (setup_of (H.digest_of trail.now.hasher) board.now) board.now trail.now.messages f w next running.now recorded.now
        → IfOk result (λ made. made.items
        ≡ spec.done_steps (setup_of (H.digest_of trail.now.hasher) board.now) f.posted w next recorded.now.event) }
{
    match &recorded.event {
        Event::Advertise { contract, .. } => {
            let told = advertise_steps(alloc, room, &board.exchange, *contract)?;
            Ok(told)
        }
        Event::Commit {
            contract,
            party,
            ..
        } => {
            let contract = *contract;
            let committed = commit_steps(alloc, room, trail, board, running, contract, party)?;
            Ok(committed)
        }
        Event::Init { contract, party } => {
            let pre = pre_of(board, *contract);
            let allowed = init_steps(alloc, &running.config, *contract, pre, party)?;
            Ok(allowed)
        }
        Event::Authorise {
            party,
            output,
            branch,
        } => one_step(
            room,
            Step::AuthBranch {
                party: *party,
                output: *output,
                branch: *branch,
            },
        ),
        Event::Reveal { .. } => {
            let revealed = running.secrets.revealed(alloc, &running.config, shown)?;
            Ok(revealed)
        }
        Event::Post { .. } => {
            let posted = running.secrets.revealed(alloc, &running.config, shown)?;
            Ok(posted)
        }
        Event::Mine { blocks } => one_step(room, Step::Delay { blocks: *blocks }),
        _ => Ok(Vec::new(alloc)),
    }
}

// Steps behind others, where they are if there are no others: most transactions reveal nothing.
fn behind(first: Vec<Step>, rest: Vec<Step>) -> Result<Vec<Step>, OutOfMemory>
    ensures { IfOk result (λ all. all.items ≡ first.items ++ rest.items) }
{
    if first.is_empty() {
        return Ok(rest);
    }
    let mut all = first;
    let mut rest = rest;
    all.append(&mut rest)?;
    Ok(all)
}

// The steps of an accepted transaction that spends the outputs of these numbers.
#[inline(never)]
fn accepted_steps<H: Hash32 + Drop>(
    alloc: Global,
    trail: &Trail<H>,
    board: &Board,
    running: &Running,
    shown: &Shown<'_>,
    recorded: &Record,
    tx: &Tx,
    spent: &[u32],
) -> Result<Vec<Step>, OutOfMemory>
    requires few { length board.now.compiled < 2 ^ 32 }
    requires shown { shown.now ≡ told_of running.now.secrets (posts_of board.now.header.secrets recorded.now) }
    requires accepted { IsAccepted recorded.now.outcome }
    ensures { (f w next : World) → IsTurn (setup_of (H.digest_of trail.now.hasher) board.now) board.now trail.now.messages f w next running.now recorded.now
        → IfOk result (λ made. made.items
        ≡ spec.accepted_steps (setup_of (H.digest_of trail.now.hasher) board.now) running.now.config w next spent.now (Some tx.now)) }
{
    let made = running.secrets.revealed(alloc, &running.config, shown)?;
    let more = kind_steps(alloc, board, running, tx, spent)?;
    let all = behind(made, more)?;
    Ok(all)
}

/// The steps of the event of this record, in a run that ends with this board and trail. Before the event this is known, and these are
/// the strings of secrets that it posted. A step that stands alone comes into the room of an empty list.
pub fn event_steps<H: Hash32 + Drop>(
    alloc: Global,
    room: Vec<Step>,
    trail: &Trail<H>,
    board: &Board,
    running: &Running,
    shown: &Shown<'_>,
    recorded: &Record,
) -> Result<Vec<Step>, OutOfMemory>
    requires few { length board.now.compiled < 2 ^ 32 }
    requires room { room.items ≡ [] }
    requires shown { shown.now ≡ told_of running.now.secrets (posts_of board.now.header.secrets recorded.now) }
    ensures { (f w next : World) → IsTurn (setup_of (H.digest_of trail.now.hasher) board.now) board.now trail.now.messages f w next running.now recorded.now
        → IfOk result (λ made. made.items
        ≡ spec.outcome_steps (setup_of (H.digest_of trail.now.hasher) board.now) f.posted running.now.config w next
        recorded.now.event recorded.now.tx recorded.now.outcome) }
{
    match (&recorded.outcome, &recorded.tx) {
        (Outcome::Done, _) => { done_steps(alloc, room, trail, board, running, shown, recorded) }
        (Outcome::Accepted { spent, .. }, Some(tx)) => {
            let spent = spent.value().as_slice();
            let accepted = accepted_steps(
                alloc,
                trail,
                board,
                running,
                shown,
                recorded,
                tx.value(),
                spent,
            )?;
            Ok(accepted)
        }
        _ => Ok(Vec::new(alloc)),
    }
}
