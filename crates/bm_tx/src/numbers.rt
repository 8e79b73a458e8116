//! Numbers, counts and strings at the front of bytes. Where they go wrong, the answer is how many bytes are left.

ghost use Rattle.std.specs.Prelude.{◌≡◌, ◌^◌, length, IfOk};
ghost use Rattle.std.specs.Int.{w16, w32, w64};
ghost use Rattle.bm_tx.specs.Giving.{Reads};
ghost use Rattle.spec_bitcoin.specs.Reading.{chunk, byte_where, number_at, wide_at, compact_at, compact_from, string_at, any};
ghost use Rattle.spec_bitcoin.specs.Reading.{not_zero, may_be};

/// So many bytes, and those after them.
pub(crate) fn chunk_of(bytes: &[u8], len: usize) -> Result<(&[u8], &[u8]), usize>
    ensures gives { Reads (λ x. (x.0.now, x.1.now)) result (chunk len bytes.now) }
    ensures len { IfOk result (λ x. length x.0.now ≡ len) }
{
    if bytes.len() < len {
        return Err(0);
    }
    Ok(bytes.split_at(len))
}

pub(crate) fn u32_at(bytes: &[u8]) -> Result<(u32, &[u8]), usize>
    ensures { Reads (λ x. (x.0, x.1.now)) result (number_at w32 bytes.now) }
{
    let (prefix, rest) = chunk_of(bytes, 4)?;
    let number = u32::from_le_bytes([prefix[0], prefix[1], prefix[2], prefix[3]]);
    Ok((number, rest))
}

/// A number of eight bytes, and the bytes after it.
pub fn u64_at(bytes: &[u8]) -> Result<(u64, &[u8]), usize>
    ensures { Reads (λ x. (x.0, x.1.now)) result (number_at w64 bytes.now) }
{
    let (prefix, rest) = chunk_of(bytes, 8)?;
    let number = u64::from_le_bytes([
        prefix[0], prefix[1], prefix[2], prefix[3], prefix[4], prefix[5], prefix[6], prefix[7],
    ]);
    Ok((number, rest))
}

// A number of two bytes that is no shorter form's.
#[tactic(auto, unfolding(spec_bitcoin::specs::Reading::wide_at))]
fn wide16_at(bytes: &[u8]) -> Result<(u64, &[u8]), usize>
    ensures { Reads (λ x. (x.0, x.1.now)) result (wide_at w16 253 bytes.now) }
{
    let (prefix, rest) = chunk_of(bytes, 1)?;
    let [last, rest @ ..] = rest else {
        return Err(0);
    };
    let number = u16::from_le_bytes([prefix[0], *last]);
    if number < 253 {
        return Err(rest.len() + 1);
    }
    Ok((u64::from(number), rest))
}

// A number of four bytes that is no shorter form's.
#[tactic(auto, unfolding(spec_bitcoin::specs::Reading::wide_at))]
fn wide32_at(bytes: &[u8]) -> Result<(u64, &[u8]), usize>
    ensures { Reads (λ x. (x.0, x.1.now)) result (wide_at w32 (2 ^ 16) bytes.now) }
{
    let (prefix, rest) = chunk_of(bytes, 3)?;
    let [last, rest @ ..] = rest else {
        return Err(0);
    };
    let number = u32::from_le_bytes([prefix[0], prefix[1], prefix[2], *last]);
    if number < 0x1_0000 {
        return Err(rest.len() + 1);
    }
    Ok((u64::from(number), rest))
}

// A number of eight bytes that is no shorter form's.
#[tactic(auto, unfolding(spec_bitcoin::specs::Reading::wide_at))]
fn wide64_at(bytes: &[u8]) -> Result<(u64, &[u8]), usize>
    ensures { Reads (λ x. (x.0, x.1.now)) result (wide_at w64 (2 ^ 32) bytes.now) }
{
    let (prefix, rest) = chunk_of(bytes, 7)?;
    let [last, rest @ ..] = rest else {
        return Err(0);
    };
    let number = u64::from_le_bytes([
        prefix[0], prefix[1], prefix[2], prefix[3], prefix[4], prefix[5], prefix[6], *last,
    ]);
    if number < 0x1_0000_0000 {
        return Err(rest.len() + 1);
    }
    Ok((number, rest))
}

/// A count, in the shortest of its four forms, and the bytes after it.
#[tactic(auto, unfolding(spec_bitcoin::specs::Reading::compact_at))]
pub fn count_at(bytes: &[u8]) -> Result<(u64, &[u8]), usize>
    ensures { Reads (λ x. (x.0, x.1.now)) result (compact_at any bytes.now) }
{
    match bytes {
        [] => Err(0),
        [253, rest @ ..] => wide16_at(rest),
        [254, rest @ ..] => wide32_at(rest),
        [255, rest @ ..] => wide64_at(rest),
        [byte, rest @ ..] => Ok((u64::from(*byte), rest)),
    }
}

/// A count that isn't 0.
#[tactic(auto, unfolding(spec_bitcoin::specs::Reading::compact_at))]
pub(crate) fn some_count_at(bytes: &[u8]) -> Result<(u64, &[u8]), usize>
    ensures { Reads (λ x. (x.0, x.1.now)) result (compact_at not_zero bytes.now) }
{
    match bytes {
        [] => Err(0),
        [0, ..] => Err(bytes.len()),
        [253, rest @ ..] => wide16_at(rest),
        [254, rest @ ..] => wide32_at(rest),
        [255, rest @ ..] => wide64_at(rest),
        [byte, rest @ ..] => Ok((u64::from(*byte), rest)),
    }
}

/// The count of a witness, after which so many witnesses follow; whether an item was seen before.
pub(crate) fn witness_count_at(bytes: &[u8], left: usize, seen: bool) -> Result<(u64, &[u8]), usize>
    ensures { Reads (λ x. (x.0, x.1.now)) result (compact_at (may_be left seen) bytes.now) }
{
    if seen {
        return count_at(bytes);
    }
    match left {
        0 => some_count_at(bytes),
        _ => count_at(bytes),
    }
}

/// Bytes with their length before them, and those after them.
#[tactic(auto, unfolding(spec_bitcoin::specs::Reading::string_at))]
pub fn string_of(bytes: &[u8]) -> Result<(&[u8], &[u8]), usize>
    ensures { Reads (λ x. (x.0.now, x.1.now)) result (string_at bytes.now) }
{
    let (len, rest) = count_at(bytes)?;
    chunk_of(rest, len as usize)
}
