//! Tokens of contract text.

/// A word that means something by itself and so is no name.
#[derive(Clone, Copy, Debug, PartialEq, Eq)]
pub enum Keyword {
    Put,
    Reveal,
    If,
    Withdraw,
    Split,
    After,
    Secret,
    True,
    And,
    Not,
    Fee,
    Outside,
}

/// A mark of one byte, or the arrow of two.
#[derive(Clone, Copy, Debug, PartialEq, Eq)]
pub enum Symbol {
    LeftBrace,
    RightBrace,
    LeftParen,
    RightParen,
    LeftBracket,
    RightBracket,
    Colon,
    Bang,
    Question,
    At,
    Dot,
    Comma,
    Ampersand,
    Plus,
    Minus,
    Arrow,
    Equal,
    Less,
    Bar,
}

/// What a token is. A name and a number that exceed what can be held are kinds of their own.
#[derive(Clone, Copy, Debug, PartialEq, Eq)]
pub enum Kind {
    Keyword(Keyword),
    Symbol(Symbol),
    /// At most 32 bytes.
    Name,
    /// More than 32 bytes.
    LongName,
    /// Below 2^64.
    Number(u64),
    /// 2^64 or more.
    HugeNumber,
}

/// A token: its bytes are those of the text from `start` up to and without `end`.
#[derive(Clone, Copy, Debug, PartialEq, Eq)]
pub struct Token {
    pub kind: Kind,
    pub start: usize,
    pub end: usize,
}
