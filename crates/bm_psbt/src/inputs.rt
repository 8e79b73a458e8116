//! What the records of an input say.

ghost use Rattle.std.specs.Prelude.{◌≡◌, [], ◌∷◌, length, true, ◌++◌, is_some, IfOk, OnOk};
ghost use Rattle.std.specs.List.{list_all};
ghost use Rattle.std.specs.Option.{option_map};
ghost use Rattle.spec_data.specs.Lists.{look_up};
ghost use Rattle.spec_bitcoin.specs.Reading.{many, string_at};
ghost use Rattle.spec_tool.specs.PsbtBytes.{taken};
ghost use Rattle.spec_tool.specs.Psbt.{output_of, witness_of, input_fits};
ghost use Rattle.bm_psbt.specs.Gathered.{pairs};
ghost use Rattle.bm_psbt.specs.Giving.{Reads};
ghost use Rattle.bm_psbt.specs.Ordered.{rest_of, signatures_in, spent_in, witness_in, input_in};

use crate::fault::PsbtError;
use crate::maps::Record;
use bm_tx::{count_at, string_of, u64_at};
use spec_bitcoin::TxOut;
use spec_data::{Bytes, OutOfMemory, Seq};
use spec_tool::PsbtInput;
use std::alloc::Global;

/// The signature hash type ALL, the only one that there is here.
pub(crate) const ALL_TYPE: [u8; 4] = [1, 0, 0, 0];

/// What stands at the key.
pub(crate) fn find<'a>(records: &[Record<'a>], key: &[u8]) -> Option<&'a [u8]>
    ensures { option_map (λ x. x.now) result ≡ look_up key.now (pairs records.now) }
{
    for (other, value) in records {
        if *other == key {
            return Some(value);
        }
    }
    None
}

// The value and the script of the output that is all of the bytes.
#[tactic(auto, unfolding(spec_bitcoin::specs::Reading::output_at))]
fn output_parts(bytes: &[u8]) -> Option<(u64, &[u8])>
    ensures { option_map (λ x. record { value = x.0; script = x.1.now }) result ≡ output_of bytes.now }
{
    let Ok((value, rest)) = u64_at(bytes) else {
        return None;
    };
    let Ok((script, rest)) = string_of(rest) else {
        return None;
    };
    if !rest.is_empty() {
        return None;
    }
    Some((value, script))
}

// The bytes behind so many strings.
fn behind_strings(count: u64, bytes: &[u8]) -> Option<&[u8]>
    ensures { option_map (λ x. x.now) result ≡ rest_of (many string_at count bytes.now) }
{
    let mut rest = bytes;
    for _ in 0..count {
        match string_of(rest) {
            Ok((_, after)) => rest = after,
            Err(_) => return None,
        }
    }
    Some(rest)
}

// Whether the bytes are those of a witness.
#[tactic(auto, using(crate::proofs::Strings::is_whole), unfolding(spec_bitcoin::specs::Reading::witness_at))]
fn is_witness(bytes: &[u8]) -> bool
    ensures { result ≡ is_some (witness_of bytes.now) }
{
    let Ok((count, rest)) = count_at(bytes) else {
        return false;
    };
    match behind_strings(count, rest) {
        Some(rest) => rest.is_empty(),
        None => false,
    }
}

// So many strings, and the bytes behind them.
fn items_of(
    alloc: Global,
    count: u64,
    bytes: &[u8],
) -> Result<Option<(Seq<Bytes>, &[u8])>, OutOfMemory>
    ensures { IfOk result (λ r. option_map (λ x. (x.0, x.1.now)) r ≡ taken (many string_at count bytes.now)) }
{
    let mut items = Seq::new(alloc);
    let mut rest = bytes;
    for _ in 0..count {
        match string_of(rest) {
            Ok((item, after)) => {
                items.push(Bytes::from_slice(alloc, item)?)?;
                rest = after;
            }
            Err(_) => return Ok(None),
        }
    }
    Ok(Some((items, rest)))
}

// The witness that is all of the bytes.
#[tactic(auto, unfolding(spec_bitcoin::specs::Reading::witness_at))]
fn witness_items(alloc: Global, bytes: &[u8]) -> Result<Option<Seq<Bytes>>, OutOfMemory>
    ensures { IfOk result (λ items. items ≡ witness_of bytes.now) }
{
    let Ok((count, rest)) = count_at(bytes) else {
        return Ok(None);
    };
    match items_of(alloc, count, rest)? {
        Some((items, [])) => Ok(Some(items)),
        _ => Ok(None),
    }
}

// Whether the record is foreign, or has a key of its length and a value that spells its part.
fn record_fits(key: &[u8], value: &[u8]) -> bool
    ensures { result ≡ input_fits (key.now, value.now) }
{
    match key {
        [1, rest @ ..] => rest.is_empty() && output_parts(value).is_some(),
        [2, ..] => key.len() == 34,
        [3, rest @ ..] => rest.is_empty() && value == ALL_TYPE.as_slice(),
        [5, rest @ ..] => rest.is_empty(),
        [8, rest @ ..] => rest.is_empty() && is_witness(value),
        _ => true,
    }
}

// Whether each of the records does.
fn all_fit(records: &[Record<'_>]) -> bool
    ensures { result ≡ list_all input_fits (pairs records.now) }
{
    for (key, value) in records {
        if !record_fits(key, value) {
            return false;
        }
    }
    true
}

// The output that the records say is spent.
fn spent_of(alloc: Global, records: &[Record<'_>]) -> Result<Option<TxOut>, OutOfMemory>
    ensures { IfOk result (λ spent. spent ≡ spent_in (pairs records.now)) }
{
    let Some(bytes) = find(records, &[1]) else {
        return Ok(None);
    };
    match output_parts(bytes) {
        Some((value, script)) => {
            let script = Bytes::from_slice(alloc, script)?;
            Ok(Some(TxOut { value, script }))
        }
        None => Ok(None),
    }
}

// The script that the records say.
fn script_of(alloc: Global, records: &[Record<'_>]) -> Result<Option<Bytes>, OutOfMemory>
    ensures { IfOk result (λ script. script ≡ look_up (5 ∷ []) (pairs records.now)) }
{
    match find(records, &[5]) {
        Some(bytes) => Ok(Some(Bytes::from_slice(alloc, bytes)?)),
        None => Ok(None),
    }
}

// The final witness that the records say.
fn witness_of(alloc: Global, records: &[Record<'_>]) -> Result<Option<Seq<Bytes>>, OutOfMemory>
    ensures { IfOk result (λ items. items ≡ witness_in (pairs records.now)) }
{
    match find(records, &[8]) {
        Some(bytes) => witness_items(alloc, bytes),
        None => Ok(None),
    }
}

fn signature_key(bytes: &[u8]) -> [u8; 33]
    requires { length bytes.now ≡ 33 }
    ensures { result ≡ bytes.now }
{
    let mut key = [0; 33];
    key.copy_from_slice(bytes);
    key
}

// Adds the signature of the record, if it is one of a signature.
fn add_signature(
    alloc: Global,
    signatures: &mut Seq<([u8; 33], Bytes)>,
    key: &[u8],
    value: &[u8],
) -> Result<(), OutOfMemory>
    requires { input_fits (key.now, value.now) ≡ true }
    ensures { OnOk result (signatures.new ≡ signatures.old ++ signatures_in ((key.now, value.now) ∷ [])) }
{
    if let [2, rest @ ..] = key {
        let key = signature_key(rest);
        signatures.push((key, Bytes::from_slice(alloc, value)?))?;
    }
    Ok(())
}

// The signatures of the records, in their order.
fn signatures_of(
    alloc: Global,
    records: &[Record<'_>],
) -> Result<Seq<([u8; 33], Bytes)>, OutOfMemory>
    requires { list_all input_fits (pairs records.now) ≡ true }
    ensures { IfOk result (λ signatures. signatures ≡ signatures_in (pairs records.now)) }
{
    let mut signatures = Seq::new(alloc);
    for (key, value) in records {
        add_signature(alloc, &mut signatures, key, value)?;
    }
    Ok(signatures)
}

/// What the records of an input say.
pub(crate) fn input_of(alloc: Global, records: &[Record<'_>]) -> Result<PsbtInput, PsbtError>
    ensures { Reads (λ input. input) result (input_in (pairs records.now)) }
{
    if !all_fit(records) {
        return Err(PsbtError::BadPsbt);
    }
    Ok(PsbtInput {
        spent: spent_of(alloc, records)?,
        partial: signatures_of(alloc, records)?,
        all: find(records, &[3]).is_some(),
        script: script_of(alloc, records)?,
        witness: witness_of(alloc, records)?,
    })
}
