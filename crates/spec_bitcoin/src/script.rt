//! The operations of a script.

ghost use Rattle.std.specs.Prelude.{◌≡◌, ℕ, List, IfOk};

use spec_data::{Bytes, OutOfMemory};
use std::alloc::Global;

/// One operation: bytes that are pushed, or an opcode by its byte.
pub enum Op {
    Push(Bytes),
    Code(u8),
}

impl Drop for Op {
    fn drop(self) {
        match self {
            Op::Push(_) | Op::Code(_) => {}
        }
    }
}

impl Op {
    /// An equal operation.
    pub fn copy(&self, alloc: Global) -> Result<Op, OutOfMemory>
        ensures { IfOk result (λ op. op ≡ self.now) }
    {
        match self {
            Op::Push(bytes) => Ok(Op::Push(bytes.copy(alloc)?)),
            Op::Code(code) => Ok(Op::Code(*code)),
        }
    }
}
