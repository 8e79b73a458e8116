//! What can be done and on whom something waits, in words.

ghost use Rattle.std.specs.Prelude.{◌≡◌, ◌-◌, ◌++◌, codes, take, length, IfOk, OnOk};
ghost use Rattle.spec_text.specs.Canonical.{joined};
ghost use Rattle.spec_page.specs.Statuses as statuses;
ghost use Rattle.spec_page.specs.Outlooks as spec;
ghost use Rattle.draw_rows.specs.Settings.{setup_in, IsSetting};

use crate::awaited::awaited;
use crate::figures::put_sum;
use crate::possible::possible;
use crate::setting::Setting;
use crate::view::View;
use crate::words::put_joined;
use bm_text::put;
use spec_data::{Bytes, OutOfMemory};
use spec_page::Look;
use std::alloc::Global;

/// So many events are named.
const MOST_NAMED: usize = 12;

#[tactic(auto, using(std::proofs::Common::append_assoc))]
fn put_others(alloc: Global, out: &mut Vec<u8>, others: usize) -> Result<(), OutOfMemory>
    ensures { OnOk result (out.new.items ≡ out.old.items ++ spec.others_text others) }
{
    if others == 0 {
        return Ok(());
    }
    put(out, b", and ")?;
    put_sum(alloc, out, others as u64)?;
    put(out, b" more")
}

// The first of these texts.
fn named(texts: &[Bytes]) -> &[Bytes]
    ensures { result.now ≡ take 12 texts.now }
{
    if texts.len() <= MOST_NAMED {
        texts
    } else {
        &texts[..MOST_NAMED]
    }
}

#[tactic(auto, using(std::proofs::Common::append_assoc))]
fn put_possible(alloc: Global, out: &mut Vec<u8>, texts: &[Bytes]) -> Result<(), OutOfMemory>
    ensures { OnOk result (out.new.items ≡ out.old.items ++ spec.possible_text texts.now) }
{
    match texts.split_first() {
        None => put(out, b"nothing"),
        Some(_) => {
            put_joined(out, b", ", named(texts))?;
            put_others(alloc, out, texts.len().saturating_sub(MOST_NAMED))
        }
    }
}

#[tactic(auto, using(std::proofs::Common::append_assoc))]
fn put_waits(out: &mut Vec<u8>, names: &[Bytes]) -> Result<(), OutOfMemory>
    ensures { OnOk result (out.new.items ≡ out.old.items ++ (codes "; waits for " ++ joined (codes ", ") names.now)) }
{
    put(out, b"; waits for ")?;
    put_joined(out, b", ", names)
}

fn put_awaited(out: &mut Vec<u8>, names: &[Bytes]) -> Result<(), OutOfMemory>
    ensures { OnOk result (out.new.items ≡ out.old.items ++ spec.awaited_text names.now) }
{
    match names.split_first() {
        None => Ok(()),
        Some(_) => put_waits(out, names),
    }
}

#[tactic(auto, using(std::proofs::Common::append_assoc))]
fn outlook_text(alloc: Global, setting: &Setting, view: &View) -> Result<Bytes, OutOfMemory>
    requires setting { IsSetting setting.now }
    requires offered { view.now.offered.now ≡ statuses.offered view.now.moment.now }
    ensures { IfOk result (λ text. text ≡ spec.outlook_text (setup_in setting.now) view.now.moment.now) }
{
    let texts = possible(alloc, setting, view)?;
    let names = awaited(alloc, setting, view.moment)?;
    let mut text = Vec::new(alloc);
    put_possible(alloc, &mut text, &texts)?;
    put_awaited(&mut text, &names)?;
    Ok(Bytes::of(text))
}

/// What a row says of what comes. Behind a halt nothing comes.
pub(crate) fn outlook_of(
    alloc: Global,
    setting: &Setting,
    view: &View,
    look: Look,
) -> Result<Bytes, OutOfMemory>
    requires setting { IsSetting setting.now }
    requires offered { view.now.offered.now ≡ statuses.offered view.now.moment.now }
    ensures { IfOk result (λ text. text ≡ spec.stop_outlook (setup_in setting.now) view.now.moment.now look) }
{
    match look {
        Look::Halt => Bytes::from_slice(alloc, b"nothing, the run is halted"),
        _ => outlook_text(alloc, setting, view),
    }
}
