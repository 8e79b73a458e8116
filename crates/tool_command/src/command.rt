//! The commands.

use spec_tool::Which;

/// What a call is asked for. Files go by the words that name them.
#[derive(Drop)]
pub enum Command<'a> {
    /// Reads a contract and prints it.
    Check(&'a str),
    /// Plays a run with contracts.
    Play(&'a str, &'a [String]),
    /// Plays a run and prints the contract's transactions.
    Plan(&'a str, &'a str),
    /// Plays the run that is made from a number, of this size.
    Make(u64, u32),
    /// Plays a run and prints one of the contract's transactions with the signatures that are there.
    PsbtOf(&'a str, &'a str, Which),
    /// Prints what a partially signed transaction says.
    PsbtShown(&'a str),
    /// Combines two of them.
    PsbtJoined(&'a str, &'a str),
    /// Plays a run and prints the contract's transactions with their weights.
    Weigh(&'a str, &'a str),
    /// Plays a run and says of each transaction of the last file what it is.
    Audit(&'a str, &'a str, &'a str),
    /// Goes on with a run by the rules of a strategy.
    Auto(&'a str, &'a str, &'a str),
}
