//! A partially signed transaction from its bytes.

ghost use Rattle.std.specs.Prelude.{◌≡◌, IfOk, Err, None, Some};
ghost use Rattle.std.specs.List.{list_all};
ghost use Rattle.std.specs.Option.{option_map};
ghost use Rattle.spec_tool.specs.Psbt.{magic, is_bare_input, global_fits, global_of};
ghost use Rattle.spec_tool.specs.Psbt as spec;
ghost use Rattle.spec_tool.specs.PsbtBytes.{behind, psbt_of};
ghost use Rattle.bm_psbt.specs.Gathered.{pairs};
ghost use Rattle.bm_psbt.specs.Giving.{Reads};
ghost use Rattle.bm_psbt.specs.Ordered.{input_at, inputs_at, behind_maps, behind_magic_in_order};

use crate::fault::PsbtError;
use crate::inputs::{find, input_of};
use crate::maps::{Record, map_of};
use crate::psbt::Psbt;
use bm_tx::TxError;
use spec_bitcoin::{Tx, TxIn};
use spec_data::Seq;
use spec_tool::PsbtInput;
use std::alloc::Global;

/// `psbt` and ff, with which each begins.
pub(crate) const MAGIC: [u8; 5] = [0x70, 0x73, 0x62, 0x74, 0xff];

// The bytes behind the magic.
fn behind_magic(bytes: &[u8]) -> Option<&[u8]>
    ensures { option_map (λ x. x.now) result ≡ behind magic bytes.now }
{
    match bytes {
        [0x70, 0x73, 0x62, 0x74, 0xff, rest @ ..] => Some(rest),
        _ => None,
    }
}

fn is_bare(input: &TxIn) -> bool
    ensures { result ≡ is_bare_input input.now }
{
    input.script_sig.as_slice().is_empty() && input.witness.is_empty()
}

fn are_bare(inputs: &[TxIn]) -> bool
    ensures { result ≡ list_all is_bare_input inputs.now }
{
    for input in inputs {
        if !is_bare(input) {
            return false;
        }
    }
    true
}

/// Whether the transaction has an input, and none has a script or a witness.
pub(crate) fn is_unsigned(tx: &Tx) -> bool
    ensures { result ≡ spec.is_unsigned tx.now }
{
    !tx.inputs.is_empty() && are_bare(tx.inputs.as_slice())
}

// The transaction that the bytes spell, if it is unsigned.
fn unsigned_of(alloc: Global, bytes: &[u8]) -> Result<Tx, PsbtError>
    ensures { Reads (λ tx. tx) result (spec.unsigned_of bytes.now) }
{
    match bm_tx::decode(alloc, bytes) {
        Ok(tx) => {
            if is_unsigned(&tx) {
                Ok(tx)
            } else {
                Err(PsbtError::BadPsbt)
            }
        }
        Err(TxError::BadTx(_)) => Err(PsbtError::BadPsbt),
        Err(TxError::Memory) => Err(PsbtError::Memory),
    }
}

// Whether a key of the type of the transaction is alone.
fn is_global_key(key: &[u8], value: &[u8]) -> bool
    ensures { result ≡ global_fits (key.now, value.now) }
{
    match key {
        [] => false,
        [0, rest @ ..] => rest.is_empty(),
        _ => true,
    }
}

fn are_global(records: &[Record<'_>]) -> bool
    ensures { result ≡ list_all global_fits (pairs records.now) }
{
    for (key, value) in records {
        if !is_global_key(key, value) {
            return false;
        }
    }
    true
}

// The transaction that the global map has.
fn global_tx(alloc: Global, records: &[Record<'_>]) -> Result<Tx, PsbtError>
    ensures { Reads (λ tx. tx) result (global_of (pairs records.now)) }
{
    if !are_global(records) {
        return Err(PsbtError::BadPsbt);
    }
    match find(records, &[0]) {
        Some(bytes) => unsigned_of(alloc, bytes),
        None => Err(PsbtError::BadPsbt),
    }
}

// What the map of an input at the front says, and the bytes behind it.
#[tactic(auto, unfolding(crate::specs::Ordered::input_at))]
fn input_of_map(alloc: Global, bytes: &[u8]) -> Result<(PsbtInput, &[u8]), PsbtError>
    ensures { Reads (λ x. (x.0, x.1.now)) result (input_at bytes.now) }
{
    let (records, rest) = map_of(alloc, bytes)?;
    let input = input_of(alloc, records.as_slice())?;
    Ok((input, rest))
}

// What so many maps of inputs say, and the bytes behind them.
fn inputs_of(
    alloc: Global,
    count: usize,
    bytes: &[u8],
) -> Result<(Seq<PsbtInput>, &[u8]), PsbtError>
    ensures { Reads (λ x. (x.0, x.1.now)) result (inputs_at count bytes.now) }
{
    let mut inputs = Seq::new(alloc);
    let mut rest = bytes;
    for _ in 0..count {
        let (input, after) = input_of_map(alloc, rest)?;
        inputs.push(input)?;
        rest = after;
    }
    Ok((inputs, rest))
}

// The bytes behind so many maps.
fn maps_behind(alloc: Global, count: usize, bytes: &[u8]) -> Result<&[u8], PsbtError>
    ensures { Reads (λ x. x.now) result (behind_maps count bytes.now) }
{
    let mut rest = bytes;
    for _ in 0..count {
        let (_, after) = map_of(alloc, rest)?;
        rest = after;
    }
    Ok(rest)
}

// The parts of a partially signed transaction, behind the magic.
#[tactic(auto, unfolding(crate::specs::Ordered::behind_magic_in_order))]
fn parts_of(alloc: Global, bytes: &[u8]) -> Result<(Tx, Seq<PsbtInput>), PsbtError>
    ensures { Reads (λ x. record { tx = x.0; inputs = x.1 }) result (behind_magic_in_order bytes.now) }
{
    let (records, rest) = map_of(alloc, bytes)?;
    let tx = global_tx(alloc, records.as_slice())?;
    let (inputs, rest) = inputs_of(alloc, tx.inputs.len(), rest)?;
    let rest = maps_behind(alloc, tx.outputs.len(), rest)?;
    if !rest.is_empty() {
        return Err(PsbtError::BadPsbt);
    }
    Ok((tx, inputs))
}

/// The partially signed transaction that the bytes spell.
pub fn decode(alloc: Global, bytes: &[u8]) -> Result<Psbt, PsbtError>
    ensures ok { IfOk result (λ p. psbt_of bytes.now ≡ Some p) }
    ensures bad { result ≡ Err PsbtError.BadPsbt → psbt_of bytes.now ≡ None }
{
    let Some(maps) = behind_magic(bytes) else {
        return Err(PsbtError::BadPsbt);
    };
    let (tx, inputs) = parts_of(alloc, maps)?;
    Ok(Psbt::made(tx, inputs))
}
