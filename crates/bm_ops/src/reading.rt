//! The operations of a script's bytes.

ghost use Rattle.std.specs.Prelude.{◌≡◌, ◌≤◌, ◌+◌, Some, None, IfOk, IfErr, IsNone, IfSome, length, nat_le, if◌then◌else◌};
ghost use Rattle.std.specs.Option.{option_map};
ghost use Rattle.bm_ops.specs.declared.reading.ScriptError.TheVariants.{Memory};
ghost use Rattle.bm_ops.specs.Found.{placed, IsWithin};
ghost use Rattle.spec_bitcoin.specs.Scripts.{head_of, one_byte, two_bytes, four_bytes, first_op, script_ops};

use crate::opcodes::opcode_named;
use spec_bitcoin::Op;
use spec_data::Bytes;
use std::alloc::{AllocError, AllocFailed, Global};

/// Why a script was not decoded.
#[derive(Clone, Copy, Debug, PartialEq, Eq)]
pub enum ScriptError {
    /// A push is cut off, or a byte in an opcode's place is none of the list.
    BadScript,
    Memory,
}

impl<T: Drop> From<AllocFailed<T>> for ScriptError {
    ghost from_gives = { λ _ r. r ≡ Memory };

    fn from(_error: AllocFailed<T>) -> ScriptError {
        ScriptError::Memory
    }
}

impl From<AllocError> for ScriptError {
    ghost from_gives = { λ _ r. r ≡ Memory };

    fn from(_error: AllocError) -> ScriptError {
        ScriptError::Memory
    }
}

/// Where an operation stands that bytes begin with: what it pushes, from one place to another, or an opcode's byte.
#[derive(Clone, Copy, Debug, PartialEq, Eq)]
pub enum Found {
    Span(usize, usize),
    Single(u8),
}

// The lengths of the head of a push and of what it pushes.
fn head(first: u8, rest: &[u8]) -> Option<(usize, usize)>
    ensures { result ≡ head_of first rest.now }
{
    if first <= 75 {
        return Some((1, first as usize));
    }
    if first == 76 {
        return match rest {
            [a, ..] => Some((2, *a as usize)),
            _ => None,
        };
    }
    if first == 77 {
        return match rest {
            [a, b, ..] => Some((3, *a as usize + 256 * (*b as usize))),
            _ => None,
        };
    }
    match rest {
        [a, b, c, d, ..] => Some((
            5,
            *a as usize + 256 * (*b as usize + 256 * (*c as usize + 256 * (*d as usize))),
        )),
        _ => None,
    }
}

// The operation that the bytes begin with.
fn find_op(bytes: &[u8]) -> Option<Found>
    ensures value { option_map (placed bytes.now) result ≡ first_op bytes.now }
    ensures within { IfSome result (IsWithin (length bytes.now)) }
{
    let (first, rest) = bytes.split_first()?;
    if *first > 78 {
        opcode_named(*first)?;
        return Some(Found::Single(*first));
    }
    let (start, len) = head(*first, rest)?;
    if len > bytes.len() || start > bytes.len() - len {
        return None;
    }
    Some(Found::Span(start, start + len))
}

/// The operations of a script.
pub fn decode_script(alloc: Global, bytes: &[u8]) -> Result<Vec<Op>, ScriptError>
    ensures ok { IfOk result (λ ops. script_ops bytes.now ≡ Some ops.items) }
    ensures bad { result ≡ Err ScriptError.BadScript → script_ops bytes.now ≡ None }
{
    let mut ops = Vec::new(alloc);
    let mut rest = bytes;
    while !rest.is_empty() {
        match find_op(rest) {
            None => return Err(ScriptError::BadScript),
            Some(Found::Span(start, end)) => {
                ops.push(Op::Push(Bytes::from_slice(alloc, &rest[start..end])?))?;
                rest = rest.split_at(end).1;
            }
            Some(Found::Single(code)) => {
                ops.push(Op::Code(code))?;
                rest = rest.split_at(1).1;
            }
        }
    }
    Ok(ops)
}
