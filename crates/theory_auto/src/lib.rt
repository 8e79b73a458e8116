//! Theorems on strategies: the added events are the rules', each once, and the longer run is one of which the theorems
//! on runs speak. Each is the contract of a function that does nothing.
#![tactic(auto)]

ghost use Rattle.theory_auto.specs.Continued.{StrategiesGoOn};
ghost use Rattle.theory_auto.specs.OwnRules.{StrategiesAreHonest, StrategiesKeepToRules};
ghost use Rattle.theory_auto.specs.Printed.{PrintedIsLonger};
ghost use Rattle.theory_auto.specs.RulePaths.{RulesTakeTheirBranches};
ghost use Rattle.theory_auto.specs.Spelled.{LongerRunsAreSpelled};

use theory_tool::valid_runs;

/// The rules of a strategy go on with a run by events that the longer run does or accepts, each a
/// rule's and no rule twice, until no rule that is left is enabled; or the first event that is tried
/// and halts ends them.
pub fn strategies_go_on()
    ensures { StrategiesGoOn }
{}

/// The rules of a strategy file are honest parties'.
pub fn strategies_are_honest()
    ensures { StrategiesAreHonest }
{}

/// Each event that a strategy adds is a rule's, and the longer run is one of which the theorems on
/// runs speak: honest parties authorise only by their own events, and a deposit of theirs goes only
/// by what they did in the run or have a rule for.
pub fn strategies_keep_to_rules()
    ensures { StrategiesKeepToRules }
{}

/// A rule that names a path authorises or fires the branch at that path, and has no event only where
/// no live output has that branch.
pub fn rules_take_their_branches()
    ensures { RulesTakeTheirBranches }
{}

/// The text of the run that goes on by the rules of a strategy is read as that very run, within all
/// limits of a run file.
pub fn longer_runs_are_spelled()
    ensures { LongerRunsAreSpelled }
{}

/// What `auto` prints with the status 0 spells a run that has the header of the run file and begins
/// with its events.
pub fn printed_is_longer()
    ensures { PrintedIsLonger }
{
    valid_runs();
}
