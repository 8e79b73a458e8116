//! What follows of pages: each theorem is the contract of a function that does nothing.
#![tactic(auto)]

ghost use Rattle.spec_page.specs.Statements.{PagesAreWellFormed, SvgsAreWellFormed, TextsStandApart, TextsAreSafe, RowsShowBranches, AllRowsHoldEvents, MoneyIsWhole, RowsAreWhole};
ghost use Rattle.theory_page.specs.Ids.{IdsStandOnce, SvgIdsStandOnce};
ghost use Rattle.theory_page.specs.Outcomes.{RowsLookSo};
ghost use Rattle.theory_page.specs.Shows.{RowsShowLooks, FoldsHaveMoments};
ghost use Rattle.theory_page.specs.SvgTells.{SvgTellsAll};
ghost use Rattle.theory_page.specs.Tells.{LinesTellTurns};
ghost use Rattle.theory_run.specs.Sound.{RunsAreSound};
ghost use Rattle.theory_script.specs.Listed.{PathsInOrder};

use theory_run::runs_are_sound;
use theory_script::paths_in_order;

/// Every page of a run or of a contract alone is well-formed HTML, whatever its title and its names are.
pub fn pages_are_well_formed()
    ensures { PagesAreWellFormed }
{}

/// Every SVG of a run is well-formed, whatever its title and its names are.
pub fn svgs_are_well_formed()
    ensures { SvgsAreWellFormed }
{}

/// No two texts of an SVG overlap, and none leaves it.
pub fn texts_stand_apart()
    ensures { TextsStandApart }
{}

/// Each text of an SVG's rows stands at one place of it, and nothing else does.
pub fn svg_tells_all()
    ensures { SvgTellsAll }
{}

/// Whatever is written as a text or a value stays there, and is read as it is shown.
pub fn texts_are_safe()
    ensures { TextsAreSafe }
{}

/// The rows of a contract show each of its branches as often as it stands in it.
pub fn rows_show_branches()
    ensures { RowsShowBranches }
{}

/// The rows of a run hold its events, each once; of those that are shown none holds an event that another holds.
pub fn rows_hold_events()
    ensures { AllRowsHoldEvents }
{}

/// A page has the ids of its rows, and those of its slider; each stands once.
pub fn ids_stand_once()
    ensures { IdsStandOnce }
{}

fn by_order()
    requires { PathsInOrder }
    ensures { SvgIdsStandOnce }
{}

/// An SVG has the ids of its rows, and of a run of checked contracts each stands once.
pub fn svg_ids_stand_once()
    ensures { SvgIdsStandOnce }
{
    paths_in_order();
    by_order();
}

/// Where no more is there than was, all sums of a row together are what was.
pub fn money_is_whole()
    ensures { MoneyIsWhole }
{}

fn by_sound_runs()
    requires { RunsAreSound }
    ensures { RowsAreWhole }
{}

/// In every run of checked contracts all sums of each row together are the header's deposits.
pub fn rows_are_whole()
    ensures { RowsAreWhole }
{
    runs_are_sound();
    by_sound_runs();
}

/// The lines of a row tell its events and their outcomes: equal lines are of equal events with equal outcomes.
pub fn lines_tell_turns()
    ensures { LinesTellTurns }
{}

/// In every row of a run each part of a contract has the look that it has at the row's moment, by the number at which a page looks it up.
pub fn rows_show_looks()
    ensures { RowsShowLooks }
{}

/// The moment of each row is what the events up to its last one left.
pub fn folds_have_moments()
    ensures { FoldsHaveMoments }
{}

/// Each row of a run that is of events looks as the last of them came out: done, accepted or refused.
pub fn rows_look_so()
    ensures { RowsLookSo }
{}
