//! Opcodes by their bytes.

ghost use Rattle.std.specs.Prelude.{◌≡◌};
ghost use Rattle.spec_bitcoin.specs.Opcodes.{opcode_of};

use spec_bitcoin::{Binary, Opcode};

/// The opcode of a byte.
pub fn opcode_named(code: u8) -> Option<Opcode>
    ensures { result ≡ opcode_of code }
{
    Some(match code {
        0x4f => Opcode::Constant(-1),
        0x51..=0x60 => Opcode::Constant(i64::from(code) - 80),
        0x63 => Opcode::If,
        0x64 => Opcode::NotIf,
        0x67 => Opcode::Else,
        0x68 => Opcode::EndIf,
        0x61 => Opcode::Nop,
        0x69 => Opcode::Verify,
        0x6a => Opcode::Return,
        0x6b => Opcode::ToAltStack,
        0x6c => Opcode::FromAltStack,
        0x75 => Opcode::Drop,
        0x76 => Opcode::Dup,
        0x79 => Opcode::Pick,
        0x7c => Opcode::Swap,
        0x82 => Opcode::Size,
        0x87 => Opcode::Equal,
        0x88 => Opcode::EqualVerify,
        0x91 => Opcode::Not,
        0x93 => Opcode::Binary(Binary::Add),
        0x94 => Opcode::Binary(Binary::Sub),
        0x9a => Opcode::Binary(Binary::BoolAnd),
        0x9b => Opcode::Binary(Binary::BoolOr),
        0x9c => Opcode::Binary(Binary::NumEqual),
        0x9f => Opcode::Binary(Binary::LessThan),
        0xa3 => Opcode::Binary(Binary::Min),
        0xa4 => Opcode::Binary(Binary::Max),
        0xa5 => Opcode::Within,
        0xa8 => Opcode::Sha256,
        0xaa => Opcode::Hash256,
        0xac => Opcode::CheckSig,
        0xad => Opcode::CheckSigVerify,
        _ => return None,
    })
}
