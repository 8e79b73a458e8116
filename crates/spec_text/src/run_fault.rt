//! Why a text is no run.

/// A quantity of a run file that is limited.
#[derive(Clone, Copy, Debug, PartialEq, Eq)]
pub enum RunLimit {
    Line,
    Events,
    Parties,
    Deposits,
    Secrets,
}

/// Why a text is no run, with the number of the line, counted from 1.
#[derive(Clone, Copy, Debug, PartialEq, Eq)]
pub enum RunFault {
    BadLine(u32),
    Limit(RunLimit, u32),
}
