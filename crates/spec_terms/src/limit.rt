//! The limits on contracts.

/// A quantity that is limited. The reader judges the first eight, the check of an advert the others.
#[derive(Clone, Copy, PartialEq, Eq, Debug)]
pub enum Limit {
    Name,
    Number,
    Depth,
    Branches,
    Choice,
    Split,
    Deposits,
    Secrets,
    Participants,
    Balance,
    Expression,
    Script,
}
