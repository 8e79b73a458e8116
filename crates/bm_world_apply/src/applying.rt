//! What was prepared is made: memory is taken first, and what can't be taken back comes last.

ghost use Rattle.std.specs.Prelude.{◌≡◌, ◌<◌, ◌++◌, ◌∷◌, [], ℕ, List, length, take, Some, IfOk, OnOk, OnErr};
ghost use Rattle.bm_world_board.specs.declared.pending_change.Change.TheVariants.{Append};
ghost use Rattle.bm_world_board.specs.Prepares.{world_of, changed, tx_in, with_begun};
ghost use Rattle.bm_world_apply.specs.Applying.{CanAppend, IsMakeable, Grows, Makes, bare, recorded};
ghost use Rattle.spec_run.specs.declared.event.Event.{Event as Happening};
ghost use Rattle.spec_run.specs.declared.outcome.Record.{Record as Entry};

use bm_exchange::Exchange;
use bm_world_board::{Appending, Board, Change, PendingChange};
use spec_bitcoin::Tx;
use spec_data::{Boxed, Bytes, OutOfMemory, Seq};
use spec_run::{Event, Outcome, Record};
use std::alloc::Global;
use std::mem;

// Puts a transaction into the last record; it takes no memory.
fn put_tx(alloc: Global, trace: &mut Seq<Record>, tx: Boxed<Tx>)
    requires { 0 < length trace.old }
    ensures { (prefix : List Entry) (r : Entry) → trace.old ≡ prefix ++ r ∷ [] → trace.new ≡ prefix ++ record r { tx = Some tx } ∷ [] }
{
    let mut all = mem::replace(trace, Seq::new(alloc)).into_vec();
    let last = all.len() - 1;
    all[last].tx = Some(tx);
    *trace = Seq::of(all);
}

/// Posts these strings. After an error some of them are posted.
pub(crate) fn post_all(exchange: &mut Exchange, strings: &[Bytes]) -> Result<(), OutOfMemory>
    ensures ok { OnOk result (exchange.new ≡ record exchange.old { posted = exchange.old.posted ++ strings.now }) }
    ensures grows { Grows exchange.old exchange.new }
{
    for string in strings {
        exchange.post(string.as_slice())?;
    }
    Ok(())
}

// A contract begins, where there is one that does.
fn begin(begun: &mut Seq<u32>, begins: Option<u32>) -> Result<(), OutOfMemory>
    ensures ok { OnOk result (begun.new ≡ with_begun begins begun.old) }
    ensures prefix { take (length begun.old) begun.new ≡ begun.old }
{
    if let Some(contract) = begins {
        begun.push(contract)?;
    }
    Ok(())
}

// Appends a transaction that is accepted. After an error nothing has changed.
fn append(board: &mut Board, appending: &Appending) -> Result<(), OutOfMemory>
    requires ready { CanAppend board.old.coins appending.now }
    ensures rest { board.new ≡ record board.old { coins = board.new.coins; begun = board.new.begun } }
    ensures ok { OnOk result ((messages : List (List ℕ)) → world_of board.new messages ≡ changed (world_of board.old messages) (Append appending.now)) }
    ensures err { OnErr result (board.new ≡ board.old) }
{
    let count = board.begun.len();
    let purpose = &appending.purpose;
    if let Err(error) = begin(&mut board.begun, purpose.begins) {
        board.begun.truncate(count);
        return Err(error);
    }
    if let Err(error) = board.coins.append(
        &appending.txid,
        appending.tx.value(),
        appending.spent.as_slice(),
        &purpose.positions,
    ) {
        board.begun.truncate(count);
        return Err(error);
    }
    Ok(())
}

// Makes a change. After an error nothing has changed.
fn make_change(board: &mut Board, change: &Change) -> Result<(), OutOfMemory>
    requires ready { IsMakeable board.old change.now }
    ensures rest { board.new ≡ record board.old { coins = board.new.coins; exchange = board.new.exchange; begun = board.new.begun } }
    ensures ok { OnOk result ((messages : List (List ℕ)) → world_of board.new messages ≡ changed (world_of board.old messages) change.now) }
    ensures err { OnErr result (board.new ≡ board.old) }
{
    match change {
        Change::Nothing => Ok(()),
        Change::Blocks(blocks) => {
            board.coins.mine(*blocks);
            Ok(())
        }
        Change::Advertise(told) => {
            board
                .exchange
                .advertise(told.contract, told.bindings.as_slice())?;
            Ok(())
        }
        Change::Commit(promising) => {
            board.exchange.commit(
                promising.contract,
                promising.party,
                promising.digests.as_slice(),
            )?;
            Ok(())
        }
        Change::Append(appending) => {
            append(board, appending.value())?;
            Ok(())
        }
    }
}

// Puts the record of an event to the others, still without a transaction. After an error they are as before.
fn put_record(
    alloc: Global,
    trace: &mut Seq<Record>,
    event: &Event,
    pending_change: &PendingChange,
) -> Result<(), OutOfMemory>
    ensures ok { OnOk result (trace.new ≡ trace.old ++ bare event.now pending_change.now ∷ []) }
    ensures err { OnErr result (trace.new ≡ trace.old) }
{
    let event = event.copy(alloc)?;
    let outcome = pending_change.outcome.copy(alloc)?;
    trace.push(Record {
        event,
        outcome,
        tx: None,
    })?;
    Ok(())
}

// Makes what was prepared, but for the transaction of its record. After an error a record or some strings more may be there.
fn make(
    alloc: Global,
    board: &mut Board,
    trace: &mut Seq<Record>,
    event: &Event,
    pending_change: &PendingChange,
) -> Result<(), OutOfMemory>
    requires ready { IsMakeable board.old pending_change.now.change }
    ensures world { OnOk result (Makes board.old board.new pending_change.now) }
    ensures trace { OnOk result (trace.new ≡ trace.old ++ bare event.now pending_change.now ∷ []) }
    ensures rest { OnErr result (board.new ≡ record board.old { exchange = board.new.exchange }) }
    ensures exchange { OnErr result (Grows board.old.exchange board.new.exchange) }
    ensures records { OnErr result (take (length trace.old) trace.new ≡ trace.old) }
{
    put_record(alloc, trace, event, pending_change)?;
    post_all(&mut board.exchange, pending_change.posts.as_slice())?;
    make_change(board, &pending_change.change)?;
    Ok(())
}

// Puts the transaction that was prepared, if one was, into its record, and answers the outcome.
fn put_pending_change(
    alloc: Global,
    trace: &mut Seq<Record>,
    pending_change: PendingChange,
) -> Outcome
    requires { 0 < length trace.old }
    ensures outcome { result ≡ pending_change.outcome }
    ensures trace { (prefix : List Entry) (event : Happening) → trace.old ≡ prefix ++ bare event pending_change ∷ [] → trace.new ≡ prefix ++ recorded event pending_change ∷ [] }
{
    let (outcome, tx) = pending_change.into_kept();
    if let Some(tx) = tx {
        put_tx(alloc, trace, tx);
    }
    outcome
}

/// Makes what was prepared, puts its record to the others, and answers its outcome. After an error nothing has changed: what only takes
/// memory comes first, and what can't be taken back comes last.
pub fn apply(
    alloc: Global,
    board: &mut Board,
    trace: &mut Seq<Record>,
    event: &Event,
    pending_change: Boxed<PendingChange>,
) -> Result<Outcome, OutOfMemory>
    requires ready { IsMakeable board.old pending_change.change }
    ensures world { OnOk result (Makes board.old board.new pending_change) }
    ensures trace { OnOk result (trace.new ≡ trace.old ++ recorded event.now pending_change ∷ []) }
    ensures outcome { IfOk result (λ outcome. outcome ≡ pending_change.outcome) }
    ensures board { OnErr result (board.new ≡ board.old) }
    ensures records { OnErr result (trace.new ≡ trace.old) }
{
    let records = trace.len();
    let posts = board.exchange.posts();
    match make(alloc, board, trace, event, pending_change.value()) {
        Ok(()) => Ok(put_pending_change(alloc, trace, pending_change.into_value())),
        Err(error) => {
            trace.truncate(records);
            board.exchange.cut_posts(posts);
            Err(error)
        }
    }
}
