//! The commands of the program for deals.

use spec_tool::Which;

/// What a call is asked for. Files go by the words that name them: a contract, its deal file, a chain file, a file of signatures,
/// one of secrets.
#[derive(Drop)]
pub enum DealCommand<'a> {
    /// Prints which lines a deal file needs.
    Keys(&'a str),
    /// Prints scripts, deposits, transactions and digests, and who signs.
    Plan(&'a str, &'a str),
    /// Prints the transactions for signers.
    Psbts(&'a str, &'a str),
    /// Prints one of them.
    Psbt(&'a str, &'a str, Which),
    /// Prints the signatures that aren't there, and whether the initial transaction may be signed.
    Missing(&'a str, &'a str, &'a str),
    /// Prints the signatures that are there.
    Held(&'a str, &'a str, &'a str),
    /// Prints a transaction for the network.
    Finish(&'a str, &'a str, Which, &'a str),
    /// Prints one that may reveal secrets.
    FinishWith(&'a str, &'a str, Which, &'a str, &'a str),
    /// Prints where deposits and payouts go, by a deal file that may lack lines.
    Fund(&'a str, &'a str),
    /// Prints what nodes wouldn't relay.
    Warn(&'a str, &'a str),
    /// Prints it, with the secrets that scripts will show.
    WarnWith(&'a str, &'a str, &'a str),
    /// Prints it, and whether the initial transaction may be signed.
    Ready(&'a str, &'a str, &'a str),
    /// Prints both, with the secrets that scripts will show.
    ReadyWith(&'a str, &'a str, &'a str, &'a str),
    /// Prints the transactions that a party endorses, for signers.
    Endorse(&'a str, &'a str, &'a str),
    /// Prints the hashes of secrets, as lines of a deal file.
    Hashes(&'a str, &'a str),
    /// Prints its plan for people and their wallets, as JSON.
    Show(&'a str, &'a str),
    /// Prints where a deal stands.
    State(&'a str, &'a str, &'a str, &'a str),
    /// Prints it with secrets that the chain doesn't show.
    StateWith(&'a str, &'a str, &'a str, &'a str, &'a str),
}
