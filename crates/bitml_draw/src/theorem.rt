//! What is known of answers.

ghost use Rattle.spec_tool.specs.Statements.{ValidRunTheorem};
ghost use Rattle.spec_page.specs.Statements.{PagesAreWellFormed, SvgsAreWellFormed, TextsAreSafe, TextsStandApart};
ghost use Rattle.spec_page.specs.Statements.{RowsShowBranches, AllRowsHoldEvents, MoneyIsWhole, RowsAreWhole};
ghost use Rattle.theory_commands.specs.Causes.{CausesInFiles};
ghost use Rattle.theory_commands.specs.ContractFiles.{ContractsAreRead};
ghost use Rattle.theory_commands.specs.Refused.{FilesAreJudged};
ghost use Rattle.theory_commands.specs.RunFiles.{RunFilesAreRead};
ghost use Rattle.theory_script.specs.Listed.{PathsInOrder};
ghost use Rattle.theory_page.specs.Ids.{IdsStandOnce, SvgIdsStandOnce};
ghost use Rattle.theory_page.specs.Outcomes.{RowsLookSo};
ghost use Rattle.theory_page.specs.Shows.{RowsShowLooks, FoldsHaveMoments};
ghost use Rattle.theory_page.specs.SvgTells.{SvgTellsAll};
ghost use Rattle.theory_page.specs.Tells.{LinesTellTurns};
ghost use Rattle.bitml_draw.specs.Drawn.{DrawsAll};

use theory_commands::{
    causes_are_in_files, contract_files_are_read, files_are_judged, run_files_are_read,
};
use theory_page::{
    folds_have_moments, ids_stand_once, lines_tell_turns, money_is_whole, pages_are_well_formed,
    rows_are_whole, rows_hold_events, rows_look_so, rows_show_branches, rows_show_looks,
    svg_ids_stand_once, svg_tells_all, svgs_are_well_formed, texts_are_safe, texts_stand_apart,
};
use theory_script::paths_in_order;
use theory_tool::valid_runs;

// A call that gives the defined answer or gives up draws what is asked for, where the theorems hold.
fn by_theorems()
    requires valid { ValidRunTheorem }
    requires causes { CausesInFiles }
    requires runs { RunFilesAreRead }
    requires contracts { ContractsAreRead }
    requires files { FilesAreJudged }
    requires order { PathsInOrder }
    requires formed { PagesAreWellFormed }
    requires svgs { SvgsAreWellFormed }
    requires apart { TextsStandApart }
    requires tells { SvgTellsAll }
    requires ids { IdsStandOnce }
    requires svg_ids { SvgIdsStandOnce }
    requires safe { TextsAreSafe }
    requires branches { RowsShowBranches }
    requires events { AllRowsHoldEvents }
    requires lines { LinesTellTurns }
    requires outcomes { RowsLookSo }
    requires looks { RowsShowLooks }
    requires moments { FoldsHaveMoments }
    requires sums { RowsAreWhole }
    requires money { MoneyIsWhole }
    ensures { DrawsAll }
{}

/// A call that gives the defined answer, or gives up as memory ran out, draws what is asked for: of what is written the theorems on pages
/// and their rows hold, and each status comes exactly by its cause, by what the files hold and by why they are refused.
pub(crate) fn answers_draw_all()
    ensures { DrawsAll }
{
    valid_runs();
    causes_are_in_files();
    run_files_are_read();
    contract_files_are_read();
    files_are_judged();
    paths_in_order();
    pages_are_well_formed();
    svgs_are_well_formed();
    texts_stand_apart();
    svg_tells_all();
    ids_stand_once();
    svg_ids_stand_once();
    texts_are_safe();
    rows_show_branches();
    rows_hold_events();
    lines_tell_turns();
    rows_look_so();
    rows_show_looks();
    folds_have_moments();
    rows_are_whole();
    money_is_whole();
    by_theorems();
}
