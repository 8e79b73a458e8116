//! Bytes as groups of five bits, and back.

ghost use Rattle.std.specs.Prelude.{◌≡◌, ◌≤◌, length, slice_index, IfOk};
ghost use Rattle.spec_address.specs.Groups as spec;

use spec_data::OutOfMemory;
use std::alloc::Global;

// What stands at a place, and 0 behind the last.
fn at(list: &[u8], place: usize) -> u32
    ensures { result ≡ slice_index list.now place }
{
    match list.get(place) {
        Some(number) => *number as u32,
        None => 0,
    }
}

// The five bits from the bit 5i on.
#[tactic(auto, unfolding(spec_address::specs::Groups::group_at))]
fn group_at(bytes: &[u8], i: usize) -> u8
    requires { i ≤ 1000 }
    ensures { result ≡ spec.group_at bytes.now i }
{
    let place = 5 * i / 8;
    let two = at(bytes, place) * 256 + at(bytes, place + 1);
    ((two >> (11 - 5 * i % 8)) % 32) as u8
}

// The eight bits from the bit 8i on.
#[tactic(auto, unfolding(spec_address::specs::Groups::byte_at))]
fn byte_at(groups: &[u8], i: usize) -> u8
    requires { i ≤ 1000 }
    ensures { result ≡ spec.byte_at groups.now i }
{
    let place = 8 * i / 5;
    let three = at(groups, place) * 1024 + at(groups, place + 1) * 32 + at(groups, place + 2);
    ((three >> (7 - 8 * i % 5)) % 256) as u8
}

/// The groups of five bits of a program.
pub(crate) fn groups_of(alloc: Global, bytes: &[u8]) -> Result<Vec<u8>, OutOfMemory>
    requires { length bytes.now ≤ 100 }
    ensures { IfOk result (λ groups. groups.items ≡ spec.groups_of bytes.now) }
{
    let mut groups = Vec::new(alloc);
    for i in 0..(8 * bytes.len() + 4) / 5 {
        groups.push(group_at(bytes, i))?;
    }
    Ok(groups)
}

/// The bytes that groups of five bits fill.
pub(crate) fn bytes_of(alloc: Global, groups: &[u8]) -> Result<Vec<u8>, OutOfMemory>
    requires { length groups.now ≤ 100 }
    ensures { IfOk result (λ bytes. bytes.items ≡ spec.bytes_of groups.now) }
{
    let mut bytes = Vec::new(alloc);
    for i in 0..5 * groups.len() / 8 {
        bytes.push(byte_at(groups, i))?;
    }
    Ok(bytes)
}
