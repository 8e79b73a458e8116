//! The opcodes of the profile by name.

/// What two numbers are made into.
#[derive(Clone, Copy, Debug, PartialEq, Eq)]
pub enum Binary {
    Add,
    Sub,
    BoolAnd,
    BoolOr,
    NumEqual,
    LessThan,
    Min,
    Max,
}

/// What an opcode does when it runs.
#[derive(Clone, Copy, Debug, PartialEq, Eq)]
pub enum Opcode {
    /// Pushes this number.
    Constant(i64),
    /// Pops two numbers and pushes what they are made into.
    Binary(Binary),
    If,
    NotIf,
    Else,
    EndIf,
    Nop,
    Verify,
    Return,
    ToAltStack,
    FromAltStack,
    Drop,
    Dup,
    Pick,
    Swap,
    Size,
    Equal,
    EqualVerify,
    Not,
    Within,
    Sha256,
    Hash256,
    CheckSig,
    CheckSigVerify,
}

/// What an operation is to the blocks of a script.
#[derive(Clone, Copy, Debug, PartialEq, Eq)]
pub enum Kind {
    /// It begins a block; whether the popped item is negated.
    Begins(bool),
    /// It cuts the innermost block into a further section.
    Cuts,
    /// It ends the innermost block.
    Ends,
    /// It runs, where its section does.
    Runs,
}
