//! What is known of answers.

ghost use Rattle.spec_tool.specs.Statements.{ValidRunTheorem};
ghost use Rattle.theory_commands.specs.Refused.{FilesAreJudged};
ghost use Rattle.theory_next.specs.Asked.{EventsAreAsked};
ghost use Rattle.theory_next.specs.ByHand.{HandsBringTheorem};
ghost use Rattle.theory_next.specs.Candidates.{OffersAreSaid};
ghost use Rattle.theory_next.specs.FirstEvents.{FirstEventsGoThrough};
ghost use Rattle.theory_next.specs.FirstLines.{FirstLinesAreARun};
ghost use Rattle.theory_next.specs.FirstRun.{FirstRunIsARun};
ghost use Rattle.theory_next.specs.Hands.{HandsCountTheorem};
ghost use Rattle.theory_next.specs.Lasting.{RefusalsLast};
ghost use Rattle.theory_next.specs.Leads.{LeadsAreEffects};
ghost use Rattle.theory_next.specs.Listed.{NothingIsLeftOut};
ghost use Rattle.theory_next.specs.MetAlone.{MetAloneTheorem};
ghost use Rattle.theory_next.specs.MetShown.{MetShownTheorem};
ghost use Rattle.theory_next.specs.Named.{WaitsAreNamed};
ghost use Rattle.theory_next.specs.Never.{NeverIsSaid};
ghost use Rattle.theory_next.specs.Once.{CandidatesStandOnce};
ghost use Rattle.theory_next.specs.Others.{OthersComeTheorem};
ghost use Rattle.theory_next.specs.Ready.{ReadyComesTheorem};
ghost use Rattle.theory_next.specs.Together.{LinesNameAll};
ghost use Rattle.theory_next.specs.Waits.{WaitsAreMeant};
ghost use Rattle.theory_next.specs.Requirements.{RequirementsAreExactTheorem};
ghost use Rattle.theory_next_text.specs.Statements.{NextIsReadBack};
ghost use Rattle.bitml_next.specs.Told.{TellsAll};

use theory_commands::files_are_judged;
use theory_next::{
    candidates_stand_once, events_are_asked, first_events_go_through, first_lines_are_a_run,
    first_run_is_a_run, hands_bring, hands_count, leads_are_effects, lines_name_all, met_alone,
    met_shown, never_is_said, nothing_is_left_out, offers_are_said, others_come, ready_comes,
    refusals_last, requirements_are_exact, waits_are_meant, waits_are_named,
};
use theory_next_text::next_is_read_back;
use theory_tool::valid_runs;

// A call that gives the defined answer or gives up tells all that is known of it, where the theorems hold.
fn by_theorems()
    requires valid { ValidRunTheorem }
    requires asked { EventsAreAsked }
    requires said { OffersAreSaid }
    requires once { CandidatesStandOnce }
    requires outstanding { RequirementsAreExactTheorem }
    requires waits { WaitsAreMeant }
    requires named { WaitsAreNamed }
    requires never { NeverIsSaid }
    requires hands { HandsCountTheorem }
    requires listed { NothingIsLeftOut }
    requires together { LinesNameAll }
    requires read { NextIsReadBack }
    requires leads { LeadsAreEffects }
    requires last { RefusalsLast }
    requires ready { ReadyComesTheorem }
    requires by_hand { HandsBringTheorem }
    requires others { OthersComeTheorem }
    requires alone { MetAloneTheorem }
    requires shown_alone { MetShownTheorem }
    requires lines { FirstLinesAreARun }
    requires run { FirstRunIsARun }
    requires go { FirstEventsGoThrough }
    requires files { FilesAreJudged }
    ensures { TellsAll }
{}

/// A call that gives the defined answer, or gives up as memory ran out, tells all that is known of it: each status comes exactly by its
/// cause, as the definition reads the files and as their tokens and lines spell them; a file that is refused is said, the first of them; and
/// what is said of a run, or written of the first lines of one, is what the theorems say.
pub(crate) fn answers_tell_all()
    ensures { TellsAll }
{
    valid_runs();
    events_are_asked();
    offers_are_said();
    candidates_stand_once();
    requirements_are_exact();
    waits_are_meant();
    waits_are_named();
    never_is_said();
    hands_count();
    nothing_is_left_out();
    lines_name_all();
    next_is_read_back();
    leads_are_effects();
    refusals_last();
    ready_comes();
    hands_bring();
    others_come();
    met_alone();
    met_shown();
    first_lines_are_a_run();
    first_run_is_a_run();
    first_events_go_through();
    files_are_judged();
    by_theorems();
}
