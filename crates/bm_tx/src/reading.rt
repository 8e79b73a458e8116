//! A transaction from its bytes.

ghost use Rattle.std.specs.Prelude.{◌≡◌, ◌-◌, ◌||◌, ℕ, List, false, length, IfOk, Ok, Err};
ghost use Rattle.bm_tx.specs.Giving.{Gives, after_marker, filled_at};
ghost use Rattle.spec_bitcoin.specs.Spelling.{is_filled};
ghost use Rattle.spec_bitcoin.specs.Reading.{chunk, many, choose, is_zero, input_at, output_at, string_at, witness_at, may_be};
ghost use Rattle.spec_bitcoin.specs.Reading.{plain_at, marked_at, transaction_at, all_at};
ghost use Rattle.spec_bitcoin.specs.Reading as spec;

use crate::fault::{ReadError, TxError};
use crate::numbers::{
    chunk_of, count_at, some_count_at, string_of, u32_at, u64_at, witness_count_at,
};
use spec_bitcoin::{OutPoint, Tx, TxIn, TxOut};
use spec_data::{Bytes, Seq};
use std::alloc::Global;

// Bytes with their length before them.
fn bytes_of(alloc: Global, bytes: &[u8]) -> Result<(Bytes, &[u8]), ReadError>
    ensures { Gives (λ x. (x.0, x.1.now)) result (string_at bytes.now) }
{
    let (text, rest) = string_of(bytes)?;
    Ok((Bytes::from_slice(alloc, text)?, rest))
}

fn txid_of(bytes: &[u8]) -> Result<([u8; 32], &[u8]), ReadError>
    ensures { Gives (λ x. (x.0, x.1.now)) result (chunk 32 bytes.now) }
{
    let (prefix, rest) = chunk_of(bytes, 32)?;
    let mut txid = [0; 32];
    txid.copy_from_slice(prefix);
    Ok((txid, rest))
}

#[tactic(auto, unfolding(spec_bitcoin::specs::Reading::input_at))]
fn input_of(alloc: Global, bytes: &[u8]) -> Result<(TxIn, &[u8]), ReadError>
    ensures { Gives (λ x. (x.0, x.1.now)) result (input_at bytes.now) }
{
    let (txid, rest) = txid_of(bytes)?;
    let (vout, rest) = u32_at(rest)?;
    let (script_sig, rest) = bytes_of(alloc, rest)?;
    let (sequence, rest) = u32_at(rest)?;
    let input = TxIn {
        prev: OutPoint { txid, vout },
        script_sig,
        sequence,
        witness: Seq::new(alloc),
    };
    Ok((input, rest))
}

fn inputs_of(alloc: Global, count: u64, bytes: &[u8]) -> Result<(Seq<TxIn>, &[u8]), ReadError>
    ensures { Gives (λ x. (x.0, x.1.now)) result (many input_at count bytes.now) }
{
    let mut inputs = Seq::new(alloc);
    let mut rest = bytes;
    for _ in 0..count {
        let (input, after) = input_of(alloc, rest)?;
        inputs.push(input)?;
        rest = after;
    }
    Ok((inputs, rest))
}

#[tactic(auto, unfolding(spec_bitcoin::specs::Reading::output_at))]
fn output_of(alloc: Global, bytes: &[u8]) -> Result<(TxOut, &[u8]), ReadError>
    ensures { Gives (λ x. (x.0, x.1.now)) result (output_at bytes.now) }
{
    let (value, rest) = u64_at(bytes)?;
    let (script, rest) = bytes_of(alloc, rest)?;
    Ok((TxOut { value, script }, rest))
}

fn outputs_of(alloc: Global, count: u64, bytes: &[u8]) -> Result<(Seq<TxOut>, &[u8]), ReadError>
    ensures { Gives (λ x. (x.0, x.1.now)) result (many output_at count bytes.now) }
{
    let mut outputs = Seq::new(alloc);
    let mut rest = bytes;
    for _ in 0..count {
        let (output, after) = output_of(alloc, rest)?;
        outputs.push(output)?;
        rest = after;
    }
    Ok((outputs, rest))
}

fn items_of(alloc: Global, count: u64, bytes: &[u8]) -> Result<(Seq<Bytes>, &[u8]), ReadError>
    ensures { Gives (λ x. (x.0, x.1.now)) result (many string_at count bytes.now) }
{
    let mut items = Seq::new(alloc);
    let mut rest = bytes;
    for _ in 0..count {
        let (item, after) = bytes_of(alloc, rest)?;
        items.push(item)?;
        rest = after;
    }
    Ok((items, rest))
}

// Inputs and outputs, without marker and witnesses.
#[tactic(auto, unfolding(spec_bitcoin::specs::Reading::plain_at, spec_bitcoin::specs::Reading::inputs_at, spec_bitcoin::specs::Reading::outputs_at))]
fn plain_of(alloc: Global, bytes: &[u8]) -> Result<(Seq<TxIn>, Seq<TxOut>, &[u8]), ReadError>
    ensures { Gives (λ x. ((x.0, x.1), x.2.now)) result (plain_at bytes.now) }
{
    let (count, rest) = some_count_at(bytes)?;
    let (inputs, rest) = inputs_of(alloc, count, rest)?;
    let (count, rest) = count_at(rest)?;
    let (outputs, rest) = outputs_of(alloc, count, rest)?;
    Ok((inputs, outputs, rest))
}

#[tactic(auto, unfolding(spec_bitcoin::specs::Reading::witness_at))]
fn witness_of(
    alloc: Global,
    bytes: &[u8],
    left: usize,
    seen: bool,
) -> Result<(Seq<Bytes>, &[u8]), ReadError>
    ensures { Gives (λ x. (x.0, x.1.now)) result (witness_at (may_be left seen) bytes.now) }
{
    let (count, rest) = witness_count_at(bytes, left, seen)?;
    items_of(alloc, count, rest)
}

fn filled(input: TxIn, witness: Seq<Bytes>) -> TxIn
    ensures { result ≡ record input { witness = witness } }
{
    let mut filled = input;
    filled.witness = witness;
    filled
}

// Whether an item was seen before or stands in this witness.
fn is_seen(seen: bool, witness: &Seq<Bytes>) -> bool
    ensures { result ≡ seen || is_filled witness.now }
{
    if seen {
        return true;
    }
    !witness.is_empty()
}

// The inputs, each with its witness.
fn filled_of(
    alloc: Global,
    inputs: Seq<TxIn>,
    bytes: &[u8],
) -> Result<(Seq<TxIn>, &[u8]), ReadError>
    ensures { Gives (λ x. (x.0, x.1.now)) result (filled_at inputs false bytes.now) }
{
    let mut left = inputs.len();
    let mut all = Seq::new(alloc);
    let mut seen = false;
    let mut rest = bytes;
    for input in inputs.into_vec() {
        left -= 1;
        let (witness, after) = witness_of(alloc, rest, left, seen)?;
        seen = is_seen(seen, &witness);
        all.push(filled(input, witness))?;
        rest = after;
    }
    Ok((all, rest))
}

// The flag, inputs and outputs, and the witnesses.
fn flagged_of(alloc: Global, bytes: &[u8]) -> Result<(Seq<TxIn>, Seq<TxOut>, &[u8]), ReadError>
    ensures { Gives (λ x. ((x.0, x.1), x.2.now)) result (after_marker bytes.now) }
{
    let rest = match bytes {
        [] => return Err(ReadError::Bad(0)),
        [1, rest @ ..] => rest,
        _ => return Err(ReadError::Bad(bytes.len())),
    };
    let (inputs, outputs, rest) = plain_of(alloc, rest)?;
    let (inputs, rest) = filled_of(alloc, inputs, rest)?;
    Ok((inputs, outputs, rest))
}

// Inputs and outputs, after the version.
fn body_of(alloc: Global, bytes: &[u8]) -> Result<(Seq<TxIn>, Seq<TxOut>, &[u8]), ReadError>
    ensures { Gives (λ x. ((x.0, x.1), x.2.now)) result (choose is_zero marked_at plain_at bytes.now) }
{
    let Some((first, rest)) = bytes.split_first() else {
        return plain_of(alloc, bytes);
    };
    if *first == 0 {
        return flagged_of(alloc, rest);
    }
    plain_of(alloc, bytes)
}

#[tactic(auto, unfolding(spec_bitcoin::specs::Reading::transaction_at))]
fn transaction_of(alloc: Global, bytes: &[u8]) -> Result<(Tx, &[u8]), ReadError>
    ensures { Gives (λ x. (x.0, x.1.now)) result (transaction_at bytes.now) }
{
    let (version, rest) = u32_at(bytes)?;
    let (inputs, outputs, rest) = body_of(alloc, rest)?;
    let (lock, rest) = u32_at(rest)?;
    let tx = Tx {
        version,
        inputs,
        outputs,
        lock,
    };
    Ok((tx, rest))
}

#[tactic(auto, unfolding(spec_bitcoin::specs::Reading::all_at))]
fn all_of(alloc: Global, bytes: &[u8]) -> Result<Tx, ReadError>
    ensures { Gives (λ tx. tx) result (all_at bytes.now) }
{
    let (tx, rest) = transaction_of(alloc, bytes)?;
    if !rest.is_empty() {
        return Err(ReadError::Bad(rest.len()));
    }
    Ok(tx)
}

/// The transaction that the bytes spell.
pub fn decode(alloc: Global, bytes: &[u8]) -> Result<Tx, TxError>
    ensures ok { IfOk result (λ tx. spec.transaction_of bytes.now ≡ Ok tx) }
    ensures bad { (p : ℕ) → result ≡ Err (TxError.BadTx p) → spec.transaction_of bytes.now ≡ Err p }
{
    match all_of(alloc, bytes) {
        Ok(tx) => Ok(tx),
        Err(ReadError::Memory) => Err(TxError::Memory),
        Err(ReadError::Bad(left)) => Err(TxError::BadTx(bytes.len().saturating_sub(left))),
    }
}
