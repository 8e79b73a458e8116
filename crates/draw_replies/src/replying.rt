//! What is replied to the texts of files.

ghost use Rattle.std.specs.Prelude.{◌≡◌, ◌≤◌, ◌+◌, length, IfOk};
ghost use Rattle.spec_data.specs.Ranges.{most_contracts};
ghost use Rattle.spec_tool.specs.Answers.{contract_in, contracts_in, run_in};
ghost use Rattle.spec_tool.specs.Commands.{run_answer, both_judged};
ghost use Rattle.spec_tool.specs.Replies.{printed};
ghost use Rattle.spec_page.specs.Statements.{PagesAreWellFormed, SvgsAreWellFormed, TextsAreSafe, TextsStandApart, RowsShowBranches, AllRowsHoldEvents, RowsAreWhole};
ghost use Rattle.theory_page.specs.Ids.{IdsStandOnce, SvgIdsStandOnce};
ghost use Rattle.theory_page.specs.Shows.{RowsShowLooks, FoldsHaveMoments};
ghost use Rattle.theory_page.specs.Tells.{LinesTellTurns};
ghost use Rattle.draw_replies.specs.DrawnTexts as spec;

use crate::form::Form;
use crate::playing::draw_reply;
use crate::writing::sheet_reply;
use bm_hash::Hash32;
use spec_data::{Bytes, OutOfMemory};
use spec_tool::Reply;
use std::alloc::{AllocError, Global};
use theory_page::{
    folds_have_moments, ids_stand_once, lines_tell_turns, pages_are_well_formed, rows_are_whole,
    rows_hold_events, rows_show_branches, rows_show_looks, svg_ids_stand_once,
    svgs_are_well_formed, texts_are_safe, texts_stand_apart,
};
use tool_command::{JudgeError, Judgement, contract_in, contract_refused, judge_both};

// What is replied to the text of a contract.
fn contract_reply(alloc: Global, title: &[u8], text: &Option<Bytes>) -> Result<Reply, OutOfMemory>
    ensures { IfOk result (λ reply. printed reply ≡ spec.sheet_judged title.now (contract_in text.now)) }
{
    match contract_in(alloc, text) {
        Ok(contract) => sheet_reply(alloc, title, &contract),
        Err(JudgeError::Refused(why)) => contract_refused(alloc, 0, why.as_slice()),
        Err(JudgeError::Memory) => Err(AllocError),
    }
}

// What is replied to the texts of a run and of its contracts.
fn run_reply<H: Hash32 + Drop>(
    alloc: Global,
    form: Form,
    title: &[u8],
    hash: H,
    run: &Option<Bytes>,
    contracts: &[Option<Bytes>],
) -> Result<Reply, OutOfMemory>
    requires { length contracts.now ≤ most_contracts }
    ensures { IfOk result (λ reply. printed reply
        ≡ both_judged (run_answer (spec.run_drawn form title.now)) (H.digest_of hash) (run_in run.now) (contracts_in 0 contracts.now)) }
{
    match judge_both(alloc, run, contracts)? {
        Judgement::Refused(reply) => Ok(reply),
        Judgement::Taken(run, contracts) => draw_reply(alloc, form, title, hash, &run, contracts),
    }
}

/// What is replied to these texts: one is a contract, of more the first is a run. What is written of files that are taken is a page, or the
/// SVG of a run, in which no name leaves its text, no id stands twice, and no text of an SVG meets another; each branch of a contract has its row or its
/// payment; each event of the run is in one row at most, with all parts as they stand behind it and with all sums, which together are the
/// deposits; and the lines of a row tell its events.
pub fn drawn_texts<H: Hash32 + Drop>(
    alloc: Global,
    form: Form,
    title: &[u8],
    hash: H,
    texts: &[Option<Bytes>],
) -> Result<Reply, OutOfMemory>
    requires { length texts.now ≤ most_contracts + 1 }
    ensures drawn { IfOk result (λ reply. printed reply ≡ spec.drawn_texts form title.now (H.digest_of hash) texts.now) }
    ensures formed { PagesAreWellFormed }
    ensures svgs { SvgsAreWellFormed }
    ensures apart { TextsStandApart }
    ensures ids { IdsStandOnce }
    ensures svg_ids { SvgIdsStandOnce }
    ensures safe { TextsAreSafe }
    ensures branches { RowsShowBranches }
    ensures events { AllRowsHoldEvents }
    ensures told { LinesTellTurns }
    ensures looks { RowsShowLooks }
    ensures moments { FoldsHaveMoments }
    ensures sums { RowsAreWhole }
{
    pages_are_well_formed();
    svgs_are_well_formed();
    texts_stand_apart();
    ids_stand_once();
    svg_ids_stand_once();
    texts_are_safe();
    rows_show_branches();
    rows_hold_events();
    lines_tell_turns();
    rows_show_looks();
    folds_have_moments();
    rows_are_whole();
    match texts {
        [] => Ok(Reply {
            status: 2,
            text: Bytes::from_slice(alloc, b"usage\n")?,
        }),
        [contract] => contract_reply(alloc, title, contract),
        [run, contracts @ ..] => run_reply(alloc, form, title, hash, run, contracts),
    }
}
