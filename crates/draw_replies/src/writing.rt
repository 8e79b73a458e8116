//! What a run came to, as it is drawn, and the page of a contract alone.

ghost use Rattle.std.specs.Prelude.{◌≡◌, ◌∷◌, [], length, IfOk};
ghost use Rattle.spec_terms.specs.Parties.{participants};
ghost use Rattle.spec_tool.specs.Commands.{prints};
ghost use Rattle.spec_tool.specs.Replies.{printed};
ghost use Rattle.spec_page.specs.Page.{contract_text};
ghost use Rattle.draw_rows.specs.Halts.{halt_of};
ghost use Rattle.draw_rows.specs.Pictures.{picture_by, picture_with, unopened_rows};
ghost use Rattle.draw_rows.specs.Settings.{setup_with};
ghost use Rattle.draw_rows.specs.Turns.{rows_by};
ghost use Rattle.draw_replies.specs.DrawnTexts.{written};

use crate::form::Form;
use bm_wellformed::Checked;
use draw_page::{write_contract_page, write_page};
use draw_rows::{Halted, Played, contract_lines, picture_of, sheet_of};
use draw_svg::write_svg;
use spec_data::OutOfMemory;
use spec_page::Picture;
use spec_run::{Header, Run};
use spec_text::Entry;
use spec_tool::Reply;
use std::alloc::Global;
use std::slice;

// The text of a picture.
fn write(alloc: Global, form: Form, title: &[u8], picture: &Picture) -> Result<Vec<u8>, OutOfMemory>
    ensures { IfOk result (λ text. text.items ≡ written form title.now picture.now) }
{
    let mut text = Vec::new(alloc);
    match form {
        Form::Page => write_page(alloc, &mut text, title, picture)?,
        Form::Svg => write_svg(alloc, &mut text, title, picture)?,
    }
    Ok(text)
}

// A run of so many events with this header and these contracts, with this status.
fn run_reply(
    alloc: Global,
    form: Form,
    title: &[u8],
    header: &Header,
    contracts: &[Checked],
    count: usize,
    events: &Played,
    status: u8,
) -> Result<Reply, OutOfMemory>
    ensures { IfOk result (λ reply. printed reply ≡ prints status
        (written form title.now (picture_by (setup_with header.now contracts.now) count events.now))) }
{
    let picture = picture_of(alloc, header, contracts, count as u64, events)?;
    let text = write(alloc, form, title, &picture)?;
    Ok(Reply::new(status, text))
}

/// That of a run whose opening collides.
pub(crate) fn unopened_reply(
    alloc: Global,
    form: Form,
    title: &[u8],
    run: &Run,
    contracts: &[Checked],
) -> Result<Reply, OutOfMemory>
    ensures { IfOk result (λ reply. printed reply ≡ prints 8
        (written form title.now (picture_with (setup_with run.now.header contracts.now) (length run.now.events)
        (unopened_rows (setup_with run.now.header contracts.now))))) }
{
    let count = run.events.len();
    run_reply(
        alloc,
        form,
        title,
        &run.header,
        contracts,
        count,
        &Played::Unopened,
        8,
    )
}

/// That of a run that opens, by the entries of its events.
pub(crate) fn opened_reply(
    alloc: Global,
    form: Form,
    title: &[u8],
    header: &Header,
    contracts: &[Checked],
    count: usize,
    entries: &[Entry],
    halted: &Halted,
    status: u8,
) -> Result<Reply, OutOfMemory>
    ensures { IfOk result (λ reply. printed reply ≡ prints status
        (written form title.now (picture_with (setup_with header.now contracts.now) count
        (rows_by (setup_with header.now contracts.now) entries.now (halt_of halted.now))))) }
{
    let played = Played::Opened(entries, halted);
    run_reply(
        alloc, form, title, header, contracts, count, &played, status,
    )
}

/// The page of a contract alone.
#[tactic(auto, unfolding(spec_page::specs::Page::contract_text))]
pub(crate) fn sheet_reply(
    alloc: Global,
    title: &[u8],
    contract: &Checked,
) -> Result<Reply, OutOfMemory>
    ensures { IfOk result (λ reply. printed reply ≡ prints 0 (contract_text title.now contract.now)) }
{
    let sheet = sheet_of(alloc, contract)?;
    let lines = contract_lines(alloc, slice::from_ref(contract))?;
    let mut text = Vec::new(alloc);
    write_contract_page(
        alloc,
        &mut text,
        title,
        contract.parties(),
        &sheet,
        lines.as_slice(),
    )?;
    Ok(Reply::new(0, text))
}
