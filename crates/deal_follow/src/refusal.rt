//! Why a confirmed transaction can't have come where a deal stands.

ghost use Rattle.std.specs.Prelude.{◌≡◌, map, not, ◌&&◌, Some, None, if◌then◌else◌, option_map, IfOk};
ghost use Rattle.std.specs.List.{list_any};
ghost use Rattle.spec_data.specs.Lists.{or_else};
ghost use Rattle.spec_bitcoin.specs.Meaning.{script_meaning};
ghost use Rattle.spec_bitcoin.specs.Verdict.{is_long};
ghost use Rattle.spec_deal.specs.SignatureFile as signatures;
ghost use Rattle.spec_chain.specs.Following.{own_transaction as own_of, which_shown as shown_of};
ghost use Rattle.spec_chain.specs.Refusals as spec;
ghost use Rattle.deal_follow.specs.Boards.{place_in, place_of, setting, IsBoard};
ghost use Rattle.deal_follow.specs.Judging as judging;
ghost use Rattle.deal_follow.specs.Seen.{state_in};

use crate::board::Board;
use crate::outputs::next_number;
use crate::spots::{has_spot, is_among, same_place};
use crate::standing::Standing;
use crate::which::{transaction_named, which_shown};
use bm_hash::Hash32;
use bm_interp::{SigCheck, eval};
use bm_tx::encode_stripped;
use spec_bitcoin::{OutPoint, Tx, TxIn};
use spec_chain::{ChainReason, Output};
use spec_data::{Bytes, MOST_ITEM_BYTES, OutOfMemory};
use spec_deal::{Input, Transaction};
use spec_tool::Which;
use std::alloc::Global;

// ---- what it spends

// Why an input is bad, by whether what it spends is the deal's, whether it is a position, and whether it is live.
fn reason_by(
    is_ours: bool,
    is_position: bool,
    is_own: bool,
    is_live: bool,
    input: u32,
) -> Option<ChainReason>
    ensures { result ≡ if is_ours && not is_live then Some (ChainReason.Input input)
        else if not is_own && is_position then Some (ChainReason.Foreign input) else None }
{
    if is_ours && !is_live {
        return Some(ChainReason::Input(input));
    }
    if !is_own && is_position {
        return Some(ChainReason::Foreign(input));
    }
    None
}

// Why this input is bad, where these places are live.
fn input_reason(
    board: &Board,
    is_own: bool,
    live: &[OutPoint],
    input: u32,
    place: &OutPoint,
) -> Option<ChainReason>
    ensures { result ≡ judging.row_by (map place_in board.now.deposits) (map place_in board.now.positions) is_own live.now input place.now }
{
    let is_deposit = has_spot(&board.deposits, place);
    let is_position = has_spot(&board.positions, place);
    let is_live = is_among(live, place);
    reason_by(
        is_deposit || is_position,
        is_position,
        is_own,
        is_live,
        input,
    )
}

// Whether the place is one of the deal's.
fn is_ours(board: &Board, place: &OutPoint) -> bool
    ensures { result ≡ judging.is_ours (map place_in board.now.deposits) (map place_in board.now.positions) place.now }
{
    has_spot(&board.deposits, place) || has_spot(&board.positions, place)
}

// Whether one of these inputs spends an output of the deal.
fn do_touch(board: &Board, inputs: &[TxIn]) -> bool
    ensures { result ≡ judging.do_touch (map place_in board.now.deposits) (map place_in board.now.positions) inputs.now }
{
    for input in inputs {
        if is_ours(board, &input.prev) {
            return true;
        }
    }
    false
}

// What is spent isn't live.
fn remove_place(live: &mut Vec<OutPoint>, place: &OutPoint)
    ensures { live.new.items ≡ judging.without_place live.old.items place.now }
{
    live.retain(|known| !same_place(known, place));
}

// The places of these outputs.
fn places_of(alloc: Global, outputs: &[Output]) -> Result<Vec<OutPoint>, OutOfMemory>
    ensures { IfOk result (λ v. v.items ≡ map place_of outputs.now) }
{
    let mut all = Vec::new(alloc);
    for output in outputs {
        all.push(output.place)?;
    }
    Ok(all)
}

// The first bad one of these inputs, where these places are live.
fn first_bad(
    board: &Board,
    is_own: bool,
    places: Vec<OutPoint>,
    inputs: &[TxIn],
) -> Result<Option<ChainReason>, OutOfMemory>
    ensures { IfOk result (λ r. r ≡ judging.inputs_by (map place_in board.now.deposits) (map place_in board.now.positions) is_own
        places.items 0 inputs.now) }
{
    let mut live = places;
    let mut number = 0u32;
    for input in inputs {
        if let Some(reason) = input_reason(board, is_own, &live, number, &input.prev) {
            return Ok(Some(reason));
        }
        remove_place(&mut live, &input.prev);
        number = next_number(number)?;
    }
    Ok(None)
}

// The first bad input, where these outputs are live. Most transactions have nothing to do with the deal.
fn inputs_reason(
    alloc: Global,
    board: &Board,
    is_own: bool,
    live: &[Output],
    inputs: &[TxIn],
) -> Result<Option<ChainReason>, OutOfMemory>
    requires { IsBoard board.now }
    ensures { IfOk result (λ r. r ≡ spec.inputs_reason (setting board.now) board.now.transactions.now is_own live.now 0 inputs.now) }
{
    if !do_touch(board, inputs) {
        return Ok(None);
    }
    let places = places_of(alloc, live)?;
    first_bad(board, is_own, places, inputs)
}

// ---- what a transaction of the deal needs

// A block may have it from the height after its lock on.
fn lock_reason(height: u32, tx: &Tx) -> Option<ChainReason>
    ensures { result ≡ spec.lock_reason height tx.now }
{
    if tx.lock < height {
        None
    } else {
        Some(ChainReason::Lock)
    }
}

/// What takes every signature with every key.
struct TakesAll;

impl SigCheck for TakesAll {
    ghost valid = { λ _. spec.takes_all };

    fn check(&self, _signature: &[u8], _key: &[u8]) -> bool {
        true
    }
}

fn has_long(items: &[Bytes]) -> bool
    ensures { result ≡ list_any is_long items.now }
{
    items
        .iter()
        .any(|item| item.as_slice().len() > MOST_ITEM_BYTES)
}

// Whether a script is true on these items, if none is too long and every signature is good.
fn is_true<H: Hash32>(
    alloc: Global,
    hasher: &H,
    script: &[u8],
    items: &[Bytes],
) -> Result<bool, OutOfMemory>
    ensures { IfOk result (λ b. b ≡ (not (list_any is_long items.now)
        && script_meaning (H.digest_of hasher.now) spec.takes_all script.now items.now)) }
{
    if has_long(items) {
        return Ok(false);
    }
    eval(alloc, hasher, script, items, &TakesAll)
}

// Whether a witness has the script as its last item and opens it.
fn opens<H: Hash32>(
    alloc: Global,
    hasher: &H,
    script: &[u8],
    witness: &[Bytes],
) -> Result<bool, OutOfMemory>
    ensures { IfOk result (λ b. b ≡ spec.opens (H.digest_of hasher.now) script.now witness.now) }
{
    let Some((last, items)) = witness.split_last() else {
        return Ok(false);
    };
    if last.as_slice() != script {
        return Ok(false);
    }
    is_true(alloc, hasher, script, items)
}

// Whether a witness opens what an input spends: of a wallet's nothing but an item is asked.
fn opens_input<H: Hash32>(
    alloc: Global,
    hasher: &H,
    spent: &Input,
    witness: &[Bytes],
) -> Result<bool, OutOfMemory>
    ensures { IfOk result (λ b. b ≡ spec.opens_input (H.digest_of hasher.now) spent.now witness.now) }
{
    match &spent.wallet {
        None => opens(alloc, hasher, spent.spent.script.as_slice(), witness),
        Some(_) => Ok(!witness.is_empty()),
    }
}

// The first witness that doesn't open what its input spends.
fn witnesses_reason<H: Hash32>(
    alloc: Global,
    hasher: &H,
    spent: &[Input],
    inputs: &[TxIn],
) -> Result<Option<ChainReason>, OutOfMemory>
    ensures { IfOk result (λ r. r ≡ spec.witnesses_reason (H.digest_of hasher.now) 0 spent.now inputs.now) }
{
    let mut rest = inputs;
    let mut number = 0u32;
    for one in spent {
        let Some((input, others)) = rest.split_first() else {
            return Ok(None);
        };
        if !opens_input(alloc, hasher, one, input.witness.as_slice())? {
            return Ok(Some(ChainReason::Witness(number)));
        }
        number = next_number(number)?;
        rest = others;
    }
    Ok(None)
}

// Whether a transaction of the deal has these bytes.
fn has_bytes(transaction: &Transaction, bytes: &[u8]) -> bool
    ensures { result ≡ signatures.has_bytes bytes.now transaction.now }
{
    transaction.bytes.as_slice() == bytes
}

// The branch that is shown has another transaction.
fn branch_reason(
    alloc: Global,
    transactions: &[Transaction],
    tx: &Tx,
    which: &Which,
) -> Result<Option<ChainReason>, OutOfMemory>
    ensures { IfOk result (λ r. r ≡ spec.branch_reason transactions.now tx.now which.now) }
{
    let bytes = encode_stripped(alloc, tx)?;
    match transaction_named(transactions, which) {
        Some(transaction) => {
            if has_bytes(transaction, &bytes) {
                Ok(None)
            } else {
                Ok(Some(ChainReason::Branch))
            }
        }
        None => Ok(Some(ChainReason::Branch)),
    }
}

// Why it is bad behind its witnesses.
fn shown_reason(
    alloc: Global,
    board: &Board,
    tx: &Tx,
    transaction: &Transaction,
) -> Result<Option<ChainReason>, OutOfMemory>
    ensures { IfOk result (λ r. r ≡ spec.branch_reason board.now.transactions.now tx.now
        (shown_of (setting board.now) tx.now transaction.now.which)) }
{
    let which = which_shown(alloc, board, tx, &transaction.which)?;
    branch_reason(alloc, board.transactions, tx, &which)
}

// Why it is bad behind its lock.
fn witnessed_reason<H: Hash32>(
    alloc: Global,
    hasher: &H,
    board: &Board,
    tx: &Tx,
    transaction: &Transaction,
) -> Result<Option<ChainReason>, OutOfMemory>
    ensures { IfOk result (λ r. r
        ≡ or_else (spec.witnesses_reason (H.digest_of hasher.now) 0 transaction.now.inputs tx.now.inputs)
        (spec.branch_reason board.now.transactions.now tx.now (shown_of (setting board.now) tx.now transaction.now.which))) }
{
    let spent = transaction.inputs.as_slice();
    match witnesses_reason(alloc, hasher, spent, tx.inputs.as_slice())? {
        Some(reason) => Ok(Some(reason)),
        None => shown_reason(alloc, board, tx, transaction),
    }
}

// Why it is bad, as the deal's.
fn own_reason<H: Hash32>(
    alloc: Global,
    hasher: &H,
    board: &Board,
    height: u32,
    tx: &Tx,
    own: Option<&Transaction>,
) -> Result<Option<ChainReason>, OutOfMemory>
    ensures { IfOk result (λ r. r ≡ spec.own_reason (H.digest_of hasher.now) (setting board.now) board.now.transactions.now height tx.now
        (option_map (λ t. t.now) own.entry)) }
{
    let Some(transaction) = own else {
        return Ok(None);
    };
    match lock_reason(height, tx) {
        Some(reason) => Ok(Some(reason)),
        None => witnessed_reason(alloc, hasher, board, tx, transaction),
    }
}

/// Why a transaction of a block of this height is bad where the deal stands so, by the transaction of the deal that has its bytes.
pub(crate) fn refusal<H: Hash32>(
    alloc: Global,
    hasher: &H,
    board: &Board,
    standing: &Standing,
    height: u32,
    tx: &Tx,
    own: Option<&Transaction>,
) -> Result<Option<ChainReason>, OutOfMemory>
    requires board { IsBoard board.now }
    requires own { option_map (λ t. t.now) own ≡ own_of board.now.transactions.now tx.now }
    ensures { IfOk result (λ r. r ≡ spec.refusal (H.digest_of hasher.now) (setting board.now) board.now.transactions.now
        (state_in standing.now) height tx.now) }
{
    let inputs = tx.inputs.as_slice();
    match inputs_reason(alloc, board, own.is_some(), &standing.live, inputs)? {
        Some(reason) => Ok(Some(reason)),
        None => own_reason(alloc, hasher, board, height, tx, own),
    }
}
