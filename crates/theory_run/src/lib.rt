//! The main theorems on runs: ledger and calculus agree after every event, honest parties act only by their own events,
//! and a run halts only by showing why. A few definitions are said here a second time in other words, so that a wrong
//! one is noticed. Each theorem is the contract of a function that does nothing.
#![tactic(auto)]

ghost use Rattle.spec_run.specs.Statements.{SimulationTheorem, LicenceTheorem, HonestDepositsTheorem, HaltsTheorem};
ghost use Rattle.theory_run.specs.WorldsOfRuns.{WorldsOfRuns, WorldsOfTurns};
ghost use Rattle.theory_run.specs.Sound.{RunsAreSound};
ghost use Rattle.theory_run.specs.Locks.{LockIsReached, BranchesWait};
ghost use Rattle.theory_run.specs.OwnEvents.{OnlyOwnEvents};
ghost use Rattle.theory_run.specs.Witnesses.{WitnessesArePosted};

/// Every run of events is, step by step, a legal run of the calculus, and configuration and world
/// agree at the opening and after every event.
pub fn simulation_theorem()
    ensures { SimulationTheorem }
{}

/// Honest parties authorise only by their own events.
pub fn licence_theorem()
    ensures { LicenceTheorem }
{}

/// An honest party's live deposit goes only by its own gift, or by a transaction that is, but for
/// witnesses, the compiled one of a contract that it endorsed or started.
pub fn honest_deposits_theorem()
    ensures { HonestDepositsTheorem }
{}

/// Every event before a run's halt goes on where nothing halts it, and a halt is of two different strings
/// with one digest, or of a secret that somebody else gave away; so is the collision of an opening.
pub fn halts_theorem()
    ensures { HaltsTheorem }
{}

/// Every world that a run comes to has the messages that its events hashed, in turn; under each
/// party's keys the pairs that the party itself signed; contract outputs exactly where they are
/// compiled to; different commitments, an honest party's to its own secrets; and money within bounds.
pub fn worlds_of_runs()
    ensures { WorldsOfRuns }
{}

/// So has the world that each turn of a run left.
pub fn worlds_of_turns()
    ensures { WorldsOfTurns }
{}

/// At the opening of a run, after each of its events and at its end the configuration is one that a
/// legal run leads to: its numbers stand apart, its contracts hold their static balances, each step
/// keeps money, and nothing is more than all money.
pub fn runs_are_sound()
    ensures { RunsAreSound }
{}

// ---- definitions said another way, so that a wrong one is refused

/// A time has reached a branch's lock exactly where it has reached every height above the branch's core.
pub fn locks_are_reached()
    ensures { LockIsReached }
{}

/// A branch is taken only at a time that has reached each height above its core.
pub fn branches_wait()
    ensures { BranchesWait }
{}

/// Each step that an honest party authorises is licensed by one event alone: the party's own, of the
/// same contract, output, branch, secret or move.
pub fn only_own_events()
    ensures { OnlyOwnEvents }
{}

/// An accepted transaction posts each item of the witness of each of its inputs, and nothing else.
pub fn witnesses_are_posted()
    ensures { WitnessesArePosted }
{}
