//! What is known of answers.

ghost use Rattle.spec_tool.specs.Causes.{CausesTheorem};
ghost use Rattle.spec_tool.specs.Headline.{HeadlineTheorem};
ghost use Rattle.theory_commands.specs.Causes.{CausesInFiles};
ghost use Rattle.theory_commands.specs.Commands.{CommandsShow};
ghost use Rattle.theory_commands.specs.Leave.{LeaveIsMeant};
ghost use Rattle.theory_play_text.specs.Statements.{PlaysAreRead};
ghost use Rattle.theory_tool.specs.Ended.{CallsEnd};
ghost use Rattle.theory_tool.specs.Kept.{RunsAreKept};
ghost use Rattle.theory_tool.specs.Statuses.{StatusesTheorem};
ghost use Rattle.tool_headline.specs.Headline.{HeadlineOfAnswers};

use theory_commands::{causes_are_in_files, commands_show, leave_is_meant};
use theory_play_text::plays_are_read;
use theory_tool::{
    calls_end_by_causes, headline_theorem, runs_are_kept, statuses_have_causes,
    statuses_have_exact_causes,
};

// A call that gives the defined answer or gives up has its headline, where the theorems hold.
fn by_theorems()
    requires causes { CausesTheorem }
    requires statuses { StatusesTheorem }
    requires ends { CallsEnd }
    requires headline { HeadlineTheorem }
    requires kept { RunsAreKept }
    requires leave { LeaveIsMeant }
    requires told { PlaysAreRead }
    requires commands { CommandsShow }
    requires files { CausesInFiles }
    ensures { HeadlineOfAnswers }
{}

/// A call that gives the defined answer, or gives up as memory ran out, has its headline: each status comes exactly by its cause;
/// what `play` writes is a faithful run, which keeps what the theorems on runs say of money, refusals, deposits, beginnings and worlds,
/// and is read as all that the run shows; of files that `play` refuses it says the first, with its place and why; and what every other
/// command writes shows what its theorems say.
pub fn answers_are_headlines()
    ensures { HeadlineOfAnswers }
{
    statuses_have_causes();
    statuses_have_exact_causes();
    calls_end_by_causes();
    headline_theorem();
    runs_are_kept();
    leave_is_meant();
    plays_are_read();
    commands_show();
    causes_are_in_files();
    by_theorems();
}
