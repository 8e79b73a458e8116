//! The bytes of a script's operations.

ghost use Rattle.std.specs.Prelude.{◌≡◌, ◌≤◌, ◌++◌, [], ◌∷◌, OnOk, IfOk, length, true};
ghost use Rattle.std.specs.List.{list_all};
ghost use Rattle.spec_bitcoin.specs.declared.script.Op.TheVariants.{Push};
ghost use Rattle.spec_bitcoin.specs.Meaning.{is_short_push};
ghost use Rattle.spec_bitcoin.specs.Scripts as spec;

use crate::numbers::item_of;
use spec_bitcoin::Op;
use spec_data::{Bytes, OutOfMemory};
use std::alloc::Global;

/// The shortest push of a number.
pub fn push_number(alloc: Global, number: i64) -> Result<Op, OutOfMemory>
    ensures { IfOk result (λ op. op ≡ spec.push_number number) }
{
    match number {
        0 => Ok(Op::Push(Bytes::of(Vec::new(alloc)))),
        -1 => Ok(Op::Code(0x4f)),
        1..=16 => Ok(Op::Code(80 + number as u8)),
        _ => Ok(Op::Push(item_of(alloc, number)?)),
    }
}

fn put_byte(bytes: &mut Vec<u8>, byte: u8) -> Result<(), OutOfMemory>
    ensures { OnOk result (bytes.new.items ≡ bytes.old.items ++ byte ∷ []) }
{
    bytes.push(byte)?;
    Ok(())
}

fn put_item(bytes: &mut Vec<u8>, item: &[u8]) -> Result<(), OutOfMemory>
    requires { length item.now ≤ 520 }
    ensures { OnOk result (bytes.new.items ≡ bytes.old.items ++ spec.encode_op (Push item.now)) }
{
    let len = item.len();
    if len <= 75 {
        put_byte(bytes, len as u8)?;
    } else if len <= 255 {
        put_byte(bytes, 76)?;
        put_byte(bytes, len as u8)?;
    } else {
        put_byte(bytes, 77)?;
        put_byte(bytes, (len % 256) as u8)?;
        put_byte(bytes, (len / 256) as u8)?;
    }
    bytes.extend_from_slice(item)?;
    Ok(())
}

fn put_op(bytes: &mut Vec<u8>, op: &Op) -> Result<(), OutOfMemory>
    requires { list_all is_short_push (op.now ∷ []) ≡ true }
    ensures { OnOk result (bytes.new.items ≡ bytes.old.items ++ spec.encode_op op.now) }
{
    match op {
        Op::Code(code) => put_byte(bytes, *code),
        Op::Push(item) => put_item(bytes, item.as_slice()),
    }
}

/// The bytes of a script, each push in its shortest form.
pub fn encode_script(alloc: Global, ops: &[Op]) -> Result<Vec<u8>, OutOfMemory>
    requires { list_all is_short_push ops.now ≡ true }
    ensures { IfOk result (λ bytes. bytes.items ≡ spec.encode ops.now) }
{
    // a key has 33 bytes, its push and the opcode that takes it three more
    let mut bytes = Vec::with_capacity(alloc, ops.len().saturating_mul(18))?;
    for op in ops {
        put_op(&mut bytes, op)?;
    }
    Ok(bytes)
}
