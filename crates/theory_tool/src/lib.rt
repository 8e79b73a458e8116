//! Theorems on the program's answers: which status comes of what, and that `play` prints the ledger's run beside a
//! legal run of the calculus. Each is the contract of a function that does nothing.
#![tactic(auto)]

ghost use Rattle.spec_tool.specs.Causes.{CausesTheorem};
ghost use Rattle.spec_tool.specs.Headline.{HeadlineTheorem};
ghost use Rattle.spec_tool.specs.Reading.{TextsTheorem, CompletenessTheorem};
ghost use Rattle.spec_tool.specs.Statements.{ValidRunTheorem};
ghost use Rattle.theory_tool.specs.Auto.{AutoTheorem};
ghost use Rattle.theory_tool.specs.Ended.{CallsEnd};
ghost use Rattle.theory_tool.specs.Example.{RunWithOffers};
ghost use Rattle.theory_tool.specs.Kept.{RunsAreKept};
ghost use Rattle.theory_tool.specs.Runs.{RunsHaltByCauses};
ghost use Rattle.theory_tool.specs.Statuses.{StatusesTheorem};
ghost use Rattle.theory_tool.specs.Strategies.{StrategiesAreRead};
ghost use Rattle.theory_tool.specs.Texts.{FurtherTextsTheorem};

/// Where the files of a command are there and no read fails, its answer is that to their texts,
/// whether a file is longer than it may be or not.
pub fn commands_answer_texts()
    ensures { TextsTheorem }
{}

/// Well-formed contracts, a valid run and further files that are taken give the status 0, where
/// nothing is guessed and nothing collides.
pub fn well_formed_files_end()
    ensures { CompletenessTheorem }
{}

/// Each status comes by its cause: 2 where the words are no command, 3 where a read failed, 6 where
/// the run file is refused, 1 where no run file is and a contract file is, 9 where a partially signed
/// transaction is, or two can't be combined.
pub fn statuses_have_causes()
    ensures { CausesTheorem }
{}

/// A run ends with a guess exactly where an event gives a secret away and nothing collides before or
/// with it, with a collision exactly where the opening or an event collides and nothing is guessed
/// before, and else at the end of all events.
pub fn runs_halt_by_causes()
    ensures { RunsHaltByCauses }
{}

/// Each status that a played run or a further file gives comes exactly by its cause: 7 where an event
/// guesses, or one that a strategy tries; 8 where the opening or an event collides, or what is judged
/// or tried after the run; 10 where the file of an audit is too long; 11 where a strategy is refused;
/// and 0 where nothing is refused and nothing halts.
pub fn statuses_have_exact_causes()
    ensures { StatusesTheorem }
{}

/// Where their files are there, `audit`, `auto` and the commands on files with partially signed
/// transactions answer to the texts of these too, and `make` to its words; of a further file that is
/// longer than it may be nothing is taken.
pub fn commands_answer_further_texts()
    ensures { FurtherTextsTheorem }
{}

/// A call ends with 4 exactly where there was something to write and the write failed, and else with
/// the status of its answer, which is neither 5 nor 12; nothing is to write exactly where a read failed.
pub fn calls_end_by_causes()
    ensures { CallsEnd }
{}

/// With a valid run and a well-formed contract `auto` writes the longer run where nothing halts, and
/// else the halt of the run, or of an event that a rule tries; a strategy that is refused comes before
/// these, for its size, its first fault, or the events or the bytes that it would add to the run.
pub fn auto_answers_every_case()
    ensures { AutoTheorem }
{}

/// A strategy file is read as the rules that its lines spell exactly where each line that isn't empty
/// spells one and they aren't too many; else it is refused for its first line that spells none, or
/// that is one rule too many.
pub fn strategies_are_read()
    ensures { StrategiesAreRead }
{}

/// Valid run files and well-formed contracts make a run of which the theorems on runs speak.
pub fn valid_runs()
    ensures { ValidRunTheorem }
{}

/// For every valid run file and every list of up to 16 well-formed contracts, `play` shows the
/// ledger's run of all events and a legal run of the calculus that agrees with it, in which honest
/// parties authorise only by their own events and what may be taken is offered and kept; or it
/// shows a collision or a guessed secret.
pub fn headline_theorem()
    ensures { HeadlineTheorem }
{}

/// In every run of a valid run file and well-formed contracts no event makes the live outputs worth
/// more, and a refused one changes nothing but the messages; an honest party's deposit goes only with
/// its leave, a contract begins only where it is endorsed, and every world has the messages,
/// signatures, places, commitments and money that the theorems on runs say.
pub fn runs_are_kept()
    ensures { RunsAreKept }
{}

/// A run whose contract has a secret and a split, in which no event is refused and at whose end more
/// may be taken: so nothing that is claimed of runs is claimed of none.
pub fn runs_with_offers_exist()
    ensures { RunWithOffers }
{}
