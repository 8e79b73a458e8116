//! Where a part of a contract stands at a moment of a run.

/// Where a transaction of a contract, or a condition of it, stands at a moment of a run.
#[derive(Clone, Copy)]
pub enum Status {
    /// Nothing has come of it so far.
    Open,
    /// The transaction may be taken now.
    Offered,
    /// The transaction was taken.
    Taken,
    /// The condition is met.
    Met,
    /// Another transaction was taken, or the condition can't be met any more.
    Gone,
}
