//! Theorems on the text of `play`: it reads back as the run that it tells, so equal texts mean equal runs. Each is the
//! contract of a function that does nothing.
#![tactic(auto)]

ghost use Rattle.theory_play_text.specs.Statements.{ReportsReadBack, SameTextsShowTheSame};
ghost use Rattle.theory_play_text.specs.Statements.{PlaysAreRead, SamePlaysShowTheSame};

/// The text that is printed of a run is read as what it shows: its opening deposits, its events
/// with their outcomes and steps, and its end with the offers. Numbers are within eight bytes, and
/// names are such as contract text may have.
pub fn reports_read_back()
    ensures { ReportsReadBack }
{}

/// Two of which the same text is printed are the same in all that is printed.
pub fn same_texts_show_the_same()
    ensures { SameTextsShowTheSame }
{}

/// What `play` prints of any valid run file and well-formed contracts is read as all that the run
/// shows: no step, no part of the end and no offer can be left out of the text.
pub fn plays_are_read()
    ensures { PlaysAreRead }
{}

/// So two runs of which `play` prints the same are the same in all that is printed, whoever takes
/// part in them.
pub fn same_plays_show_the_same()
    ensures { SamePlaysShowTheSame }
{}
