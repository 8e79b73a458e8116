//! The opcodes that the scripts of contracts are made of, by their names in Bitcoin's script without `OP_`.

pub(crate) const ONE: u8 = 0x51;

pub(crate) const SIXTEEN: u8 = 0x60;

pub(crate) const IF: u8 = 0x63;

pub(crate) const ELSE: u8 = 0x67;

pub(crate) const ENDIF: u8 = 0x68;

pub(crate) const VERIFY: u8 = 0x69;

pub(crate) const TOALTSTACK: u8 = 0x6b;

pub(crate) const FROMALTSTACK: u8 = 0x6c;

pub(crate) const DROP: u8 = 0x75;

pub(crate) const DUP: u8 = 0x76;

pub(crate) const PICK: u8 = 0x79;

pub(crate) const SIZE: u8 = 0x82;

pub(crate) const EQUALVERIFY: u8 = 0x88;

pub(crate) const NOT: u8 = 0x91;

pub(crate) const ADD: u8 = 0x93;

pub(crate) const SUB: u8 = 0x94;

pub(crate) const BOOLAND: u8 = 0x9a;

pub(crate) const NUMEQUAL: u8 = 0x9c;

pub(crate) const LESSTHAN: u8 = 0x9f;

pub(crate) const WITHIN: u8 = 0xa5;

pub(crate) const SHA256: u8 = 0xa8;

pub(crate) const CHECKSIG: u8 = 0xac;

pub(crate) const CHECKSIGVERIFY: u8 = 0xad;
