//! Where the reading of contract text stops.

use spec_terms::Limit;

/// Why reading stopped, with how many tokens were left from the one at fault on, itself included.
#[derive(Clone, Copy, Debug, PartialEq, Eq)]
pub enum Stop {
    /// No contract goes on with this token, or the tokens end too early.
    Syntax(usize),
    /// The quantity is exceeded with this token.
    Limit(Limit, usize),
}

/// Why a text is no contract, with the place in bytes. A token that is missing at the end has the text's length.
#[derive(Clone, Copy, Debug, PartialEq, Eq)]
pub enum TextFault {
    /// This byte begins no token.
    BadByte(usize),
    Syntax(usize),
    Limit(Limit, usize),
}
