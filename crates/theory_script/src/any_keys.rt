//! The theorems on scripts and transactions, for every way to give a key of 33 bytes to each label. Those of the same names in the
//! root speak of the key plan, and are instances of these.

ghost use Rattle.spec_compiler.specs.Keyed.Statements.{ScriptTheorem, OpenedIsChosen, SizeTheorem, WitnessOpens};
ghost use Rattle.theory_script.specs.Keyed.Endorsed.{MissingIsFirst};
ghost use Rattle.theory_script.specs.Keyed.Limits.{NoLimitIsMet};
ghost use Rattle.theory_script.specs.Keyed.Listed.{PathsAreListed, ScriptsAreListed, PositionsStand, PathsInOrder};
ghost use Rattle.theory_script.specs.Keyed.Money.{MoneyIsKept};

/// The script of a position of a checked contract is true exactly on the stacks that open one of its branches.
pub fn script_theorem()
    ensures { ScriptTheorem }
{}

/// The branch that a stack opens is the one that its selectors choose.
pub fn opened_is_chosen()
    ensures { OpenedIsChosen }
{}

/// The script of a position of a checked contract is as large as its cost, and meets no limit of scripts.
pub fn size_theorem()
    ensures { SizeTheorem }
{}

/// A witness that is handed valid signatures and fitting secrets makes its script true.
pub fn witness_opens()
    ensures { WitnessOpens }
{}

/// The list of a contract's transactions has for each path the one of the branch there, and no other path.
pub fn paths_are_listed()
    ensures { PathsAreListed }
{}

/// The list of a contract's scripts has for each position that of its output, and no other path.
pub fn scripts_are_listed()
    ensures { ScriptsAreListed }
{}

/// A position that is found by its path has that path, the term's branches, and their script.
pub fn positions_stand()
    ensures { PositionsStand }
{}

/// No endorsement is missing exactly where a contract is endorsed, and the one that is answered is
/// the first that is missing.
pub fn missing_is_first()
    ensures { MissingIsFirst }
{}

/// A contract has one transaction for each of its branches and one script for each of its positions, in the order of the text.
pub fn paths_in_order()
    ensures { PathsInOrder }
{}

/// Each transaction of a checked contract pays out all that it spends but the fee, and each position pays for its branches.
pub fn money_is_kept()
    ensures { MoneyIsKept }
{}

/// The script of a checked position meets no limit of scripts, whatever stack it runs on.
pub fn no_limit_is_met()
    ensures { NoLimitIsMet }
{}
