//! Why a chain file is refused. Lines are counted from 1, inputs from 0.

/// Why a line of a chain file is bad.
#[derive(Clone, Copy, Debug, PartialEq, Eq)]
pub enum ChainReason {
    /// Its words are no line of a chain.
    Form,
    /// It gives no height, or a lower one than before; or a transaction stands below no height.
    Height,
    /// Its word spells no transaction.
    Tx,
    /// This input spends an output of the deal that isn't live.
    Input(u32),
    /// The transaction isn't the deal's, and this input spends a position.
    Foreign(u32),
    /// It is the deal's, and no block of this height may have it.
    Lock,
    /// It is the deal's, and the witness of this input doesn't open what it spends.
    Witness(u32),
    /// It is the deal's, and the branch that its witness selects has another transaction.
    Branch,
}

/// Why a chain file is refused.
#[derive(Clone, Copy, Debug, PartialEq, Eq)]
pub enum ChainFault {
    /// It has too many bytes.
    Size,
    /// This line is the first bad one.
    Line(u32, ChainReason),
}
