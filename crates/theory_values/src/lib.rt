//! Test vectors of the program: words and files of runs and what the definitions answer, computed by the kernel. The
//! expected texts come from another implementation.
#![tactic(auto)]

ghost use Rattle.theory_values.specs.EveryEvent.{EveryEventIsPlayed};

/// A run with every kind of event and every kind of step is played as its text says, to the last
/// offer. The other values stand in `proofs/`.
pub fn every_event_is_played()
    ensures { EveryEventIsPlayed }
{}
