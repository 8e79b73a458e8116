//! Theorems on whole commands: which status comes of which files, and what the text of each command shows. `run_tool`
//! has them in its clause. Each is the contract of a function that does nothing.
#![tactic(auto)]

ghost use Rattle.theory_commands.specs.Causes.{CausesInFiles};
ghost use Rattle.theory_commands.specs.Commands.{CommandsShow, GeneratedSizesAreTaken};
ghost use Rattle.theory_commands.specs.ContractFiles.{ContractsAreRead};
ghost use Rattle.theory_commands.specs.Leave.{LeaveIsMeant};
ghost use Rattle.theory_commands.specs.LineForms.{LinesAreSpelled};
ghost use Rattle.theory_commands.specs.PsbtFiles.{PsbtFilesAreRead};
ghost use Rattle.theory_commands.specs.Refused.{FilesAreJudged};
ghost use Rattle.theory_commands.specs.RunFiles.{RunFilesAreRead};
ghost use Rattle.theory_commands.specs.Strategies.{StrategyFilesAreRead};
ghost use Rattle.theory_psbt.specs.Listed.{SignersForEach};
ghost use Rattle.theory_script.specs.Listed.{PathsAreListed, PathsInOrder, ScriptsAreListed};
ghost use Rattle.theory_script.specs.Money.{MoneyIsKept};
ghost use Rattle.theory_weights.specs.Bounds.{WeightsAreBounds};
ghost use Rattle.theory_weights.specs.Runs.{TotalsBoundRuns, WeightsAddUp};
ghost use Rattle.theory_weights.specs.Sizes.{WeightsBySizes};

use theory_psbt::signers_for_each;
use theory_script::{money_is_kept, paths_are_listed, paths_in_order, scripts_are_listed};
use theory_weights::{totals_bound_runs, weights_add_up, weights_are_bounds, weights_by_sizes};

/// An honest party's deposit is spent by its leave exactly where the event is its own gift, or the transaction is that of a contract
/// for which it was done before that the party started or endorsed it.
pub fn leave_is_meant()
    ensures { LeaveIsMeant }
{}

/// The words of a line of a run file or a strategy file are read as the event, the part of a header or the rule that they spell by the
/// form of such lines, and as nothing else.
pub fn lines_are_spelled()
    ensures { LinesAreSpelled }
{}

/// A run file is read as the run that its lines spell, and is refused for its size, or for its first
/// line that is bad or exceeds a limit.
pub fn run_files_are_read()
    ensures { RunFilesAreRead }
{}

/// A contract file is taken for the advert that its text spells within all limits and without a
/// fault, and is refused for its size, its first bad byte, where its grammar ends, the first token
/// that exceeds a limit, or the advert's first fault or limit.
pub fn contract_files_are_read()
    ensures { ContractsAreRead }
{}

/// A file is taken for the partially signed transaction that the bytes of its base64 spell, and is
/// refused for its size, where it is the base64 of no bytes, or where these spell none.
pub fn psbt_files_are_read()
    ensures { PsbtFilesAreRead }
{}

/// A strategy file is taken for the rules that its lines spell, where these stay within the limits
/// of the run file beside it, and is refused for its size, for its first line that spells none or
/// one too many, or for the events or bytes that the run would have.
pub fn strategy_files_are_read()
    ensures { StrategyFilesAreRead }
{}

// Each command shows what is said of it, where the theorems on a contract's transactions hold.
fn by_theorems()
    requires paths { PathsAreListed }
    requires scripts { ScriptsAreListed }
    requires in_order { PathsInOrder }
    requires money { MoneyIsKept }
    requires bounds { WeightsAreBounds }
    requires sums { WeightsAddUp }
    requires totals { TotalsBoundRuns }
    requires sizes { WeightsBySizes }
    requires signers { SignersForEach }
    ensures { CommandsShow }
{}

/// What each command answers to the texts of its files shows what the theorems say: of a contract
/// file its advert, of a run and a contract the transactions and weights of the contract in the
/// run's last world, one of them with the signatures that are there, an audit of a file, or the run
/// that goes on by a strategy; of files with partially signed transactions what these say, alone and
/// combined; of a number the counts of the run that is made from it. A file that is refused is told
/// with its first fault.
pub fn commands_show()
    ensures { CommandsShow }
{
    paths_are_listed();
    scripts_are_listed();
    paths_in_order();
    money_is_kept();
    weights_are_bounds();
    weights_add_up();
    totals_bound_runs();
    weights_by_sizes();
    signers_for_each();
    by_theorems();
}

/// Each status comes exactly by its cause in the command's files: 0 where every file holds what it
/// should and nothing halts, 6 where the run file is refused, 1 where it isn't and a contract file
/// is, 9 where a file with a partially signed transaction is or two can't be combined, 10 and 11
/// where the file of an audit or a strategy is, and 7 and 8 where the run that they hold is halted,
/// or what is judged or tried after it.
pub fn causes_are_in_files()
    ensures { CausesInFiles }
{}

/// Of a run file and contract files the first that is refused is answered, with its place and why, and those are taken that hold a run
/// and contracts, for every program that takes such files.
pub fn files_are_judged()
    ensures { FilesAreJudged }
{}

/// The size of `make` in words that are a command is one for which the theorems on generated runs hold.
pub fn generated_sizes_are_taken()
    ensures { GeneratedSizesAreTaken }
{}
