//! Theorems on scripts and compiled transactions: a script is true exactly on a branch's witness, meets no limit, and
//! money is kept. Those of `any_keys` hold whatever the keys are; here they speak of the key plan.
#![tactic(auto)]

ghost use Rattle.spec_bitcoin.specs.Statements.{WrittenIsRead};
ghost use Rattle.spec_compiler.specs.Statements.{ScriptTheorem, OpenedIsChosen, SizeTheorem, WitnessOpens, DepositMeaning};
ghost use Rattle.theory_script.specs.Choices.{WitnessChooses, ChoosesByItems};
ghost use Rattle.theory_script.specs.Endorsed.{MissingIsFirst};
ghost use Rattle.theory_script.specs.Listed.{PathsAreListed, ScriptsAreListed, PositionsStand, PathsInOrder};
ghost use Rattle.theory_script.specs.Limits.{NoLimitIsMet, LimitOnItems};
ghost use Rattle.theory_script.specs.Money.{MoneyIsKept};
ghost use Rattle.theory_script.specs.Items.{NumbersAreReadBack, ItemsAreShortest};

pub mod any_keys;

/// The script of a position of a checked contract is true exactly on the stacks that open one of its branches.
pub fn script_theorem()
    ensures { ScriptTheorem }
{}

/// The branch that a stack opens is the one that its selectors choose.
pub fn opened_is_chosen()
    ensures { OpenedIsChosen }
{}

/// A witness that is made for a branch chooses it.
pub fn witness_chooses()
    ensures { WitnessChooses }
{}

/// A witness chooses by the stack on which its script runs.
pub fn chooses_by_items()
    ensures { ChoosesByItems }
{}

/// The script of a position of a checked contract is as large as its cost, and meets no limit of scripts.
pub fn size_theorem()
    ensures { SizeTheorem }
{}

/// A witness that is handed valid signatures and fitting secrets makes its script true.
pub fn witness_opens()
    ensures { WitnessOpens }
{}

/// The script of a deposit is true exactly on one valid signature.
pub fn deposit_meaning()
    ensures { DepositMeaning }
{}

/// What is written of operations is read as the same operations.
pub fn written_is_read()
    ensures { WrittenIsRead }
{}

/// The list of a contract's transactions has for each path the one of the branch there, and no other path.
pub fn paths_are_listed()
    ensures { PathsAreListed }
{}

/// The list of a contract's scripts has for each position that of its output, and no other path.
pub fn scripts_are_listed()
    ensures { ScriptsAreListed }
{}

/// A position that is found by its path has that path, the term's branches, and their script.
pub fn positions_stand()
    ensures { PositionsStand }
{}

/// No endorsement is missing exactly where a contract is endorsed, and the one that is answered is
/// the first that is missing.
pub fn missing_is_first()
    ensures { MissingIsFirst }
{}

/// A contract has one transaction for each of its branches and one script for each of its positions, in the order of the text.
pub fn paths_in_order()
    ensures { PathsInOrder }
{}

/// Each transaction of a checked contract pays out all that it spends but the fee, and each position pays for its branches.
pub fn money_is_kept()
    ensures { MoneyIsKept }
{}

/// The number of each item that a script writes is read back, and the item is a shortest one.
pub fn numbers_are_read_back()
    ensures { NumbersAreReadBack }
{}

/// No item of a number is shorter than the one that a script writes, and no other is as short and a shortest one.
pub fn items_are_shortest()
    ensures { ItemsAreShortest }
{}

/// The script of a checked position meets no limit of scripts, whatever stack it runs on.
pub fn no_limit_is_met()
    ensures { NoLimitIsMet }
{}

/// The limit on items changes nothing where items and operations together are at most 1,000.
pub fn limit_on_items()
    ensures { LimitOnItems }
{}
