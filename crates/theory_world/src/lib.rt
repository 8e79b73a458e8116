//! Theorems on the ledger's side of a run: value never grows, a refused event changes only what was hashed, and each
//! event hashes the strings of its row. Each is the contract of a function that does nothing.
#![tactic(auto)]

ghost use Rattle.spec_run.specs.Statements.{ValueTheorem, RefusalTheorem};
ghost use Rattle.theory_world.specs.Hashing.{EventsHashRows};

/// What the live outputs are worth never grows, and stays the same after every event that isn't
/// accepted.
pub fn value_theorem()
    ensures { ValueTheorem }
{}

/// A refused event leaves all as it was, but for the messages that were hashed.
pub fn refusal_theorem()
    ensures { RefusalTheorem }
{}

/// An event hashes the strings of its row in the table, or where it is refused a prefix of them.
pub fn events_hash_rows()
    ensures { EventsHashRows }
{}
