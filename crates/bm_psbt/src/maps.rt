//! Maps of records, in the order of their keys.

ghost use Rattle.std.specs.Prelude.{◌≡◌, [], IfOk};
ghost use Rattle.bm_psbt.specs.Giving.{Reads, Fails};
ghost use Rattle.bm_psbt.specs.Gathered.{pairs, one_put, gathered, ordered_at};

use crate::fault::PsbtError;
use bm_tx::string_of;
use std::alloc::{AllocError, Global};
use std::collections::BTreeMap;

/// A key and a value.
pub(crate) type Record<'a> = (&'a [u8], &'a [u8]);

// Puts the record at the front among others, and gives the bytes behind it. A key that is there
// already is no record of a map.
#[tactic(auto, unfolding(crate::specs::Gathered::one_put))]
fn put_record<'a>(
    records: &mut BTreeMap<&'a [u8], &'a [u8]>,
    bytes: &'a [u8],
) -> Result<&'a [u8], PsbtError>
    ensures { Reads (λ rest. (pairs records.new.entries, rest.now)) result (one_put (pairs records.old.entries) bytes.now) }
{
    let Ok((key, rest)) = string_of(bytes) else {
        return Err(PsbtError::BadPsbt);
    };
    let Ok((value, rest)) = string_of(rest) else {
        return Err(PsbtError::BadPsbt);
    };
    match records.insert(key, value) {
        Ok(None) => Ok(rest),
        Ok(Some(_)) => Err(PsbtError::BadPsbt),
        Err(_) => Err(PsbtError::Memory),
    }
}

// The records up to the byte 00, and the bytes behind it.
fn gather(alloc: Global, bytes: &[u8]) -> Result<(BTreeMap<&[u8], &[u8]>, &[u8]), PsbtError>
    ensures { Reads (λ x. (pairs x.0.entries, x.1.now)) result (ordered_at bytes.now) }
{
    let mut records = BTreeMap::new(alloc);
    let mut rest = bytes;
    for _ in 0..bytes.len() {
        let Some((first, after)) = rest.split_first() else {
            return Err(PsbtError::BadPsbt);
        };
        if *first == 0 {
            return Ok((records, after));
        }
        rest = put_record(&mut records, rest)?;
    }
    Err(PsbtError::BadPsbt)
}

// The records of the tree in order.
fn listed<'a>(
    alloc: Global,
    records: BTreeMap<&'a [u8], &'a [u8]>,
) -> Result<Vec<Record<'a>>, AllocError>
    ensures { IfOk result (λ list. list.items ≡ records.entry.entries) }
{
    let mut list = Vec::new(alloc);
    for (key, value) in records {
        list.push((key, value))?;
    }
    Ok(list)
}

/// A map with its records in the order of their keys, and the bytes behind it.
pub(crate) fn map_of(alloc: Global, bytes: &[u8]) -> Result<(Vec<Record<'_>>, &[u8]), PsbtError>
    ensures { Reads (λ x. (pairs x.0.items, x.1.now)) result (ordered_at bytes.now) }
{
    let (records, rest) = gather(alloc, bytes)?;
    Ok((listed(alloc, records)?, rest))
}
