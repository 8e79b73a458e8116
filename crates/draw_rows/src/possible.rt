//! What can be done at a moment of a run.

ghost use Rattle.std.specs.Prelude.{◌≡◌, ◌<◌, ◌++◌, ◌==◌, IfOk, OnOk};
ghost use Rattle.spec_run.specs.Steps as run;
ghost use Rattle.spec_next.specs.Candidates as candidates;
ghost use Rattle.spec_page.specs.Statuses as statuses;
ghost use Rattle.spec_page.specs.Outlooks as spec;
ghost use Rattle.draw_rows.specs.Settings.{setup_in, IsSetting};

use crate::figures::plus;
use crate::going::put_going;
use crate::openings::put_beginning;
use crate::setting::Setting;
use crate::standing::{has_begun, is_barred};
use crate::view::View;
use bm_calculus::Config;
use bm_wellformed::Checked;
use spec_calculus::ActiveContract;
use spec_data::{Bytes, OutOfMemory};
use std::alloc::Global;
use std::marker::Model;

/// The active contracts that are of a contract.
#[tactic(auto, using(std::proofs::Common::append_assoc))]
pub(crate) fn actives_of(
    alloc: Global,
    config: &Config,
    contract: u32,
) -> Result<Vec<ActiveContract>, OutOfMemory>
    ensures { IfOk result (λ list. list.items ≡ candidates.actives_of config.now contract) }
{
    let mut list = Vec::new(alloc);
    for active in config.active() {
        if active.contract == contract {
            let copy = active.copy(alloc)?;
            list.push(copy)?;
        }
    }
    Ok(list)
}

fn put_begun(
    alloc: Global,
    found: &mut Vec<Bytes>,
    several: bool,
    view: &View,
    contract: u32,
    checked: &Checked,
) -> Result<(), OutOfMemory>
    requires { view.now.offered.now ≡ statuses.offered view.now.moment.now }
    ensures { OnOk result (found.new.items ≡ found.old.items ++ spec.going_words several view.now.moment.now contract checked.now
        (candidates.actives_of view.now.moment.now.configuration contract)) }
{
    let moment = view.moment;
    let actives = actives_of(alloc, &moment.config, contract)?;
    put_going(alloc, found, several, view, contract, checked, &actives)
}

// What can be done of a contract.
fn put_possible(
    alloc: Global,
    found: &mut Vec<Bytes>,
    setting: &Setting,
    view: &View,
    contract: u32,
    checked: &Checked,
) -> Result<(), OutOfMemory>
    requires setting { IsSetting setting.now }
    requires offered { view.now.offered.now ≡ statuses.offered view.now.moment.now }
    ensures { OnOk result (found.new.items ≡ found.old.items
        ++ spec.contract_words (setup_in setting.now) view.now.moment.now contract checked.now) }
{
    if has_begun(view.moment, contract) {
        return put_begun(alloc, found, setting.several, view, contract, checked);
    }
    if is_barred(view.moment, contract) {
        return Ok(());
    }
    put_beginning(alloc, found, setting, view, contract, checked)
}

/// What can be done.
#[tactic(auto, using(std::proofs::Common::append_assoc))]
pub(crate) fn possible(
    alloc: Global,
    setting: &Setting,
    view: &View,
) -> Result<Vec<Bytes>, OutOfMemory>
    requires setting { IsSetting setting.now }
    requires offered { view.now.offered.now ≡ statuses.offered view.now.moment.now }
    ensures { IfOk result (λ found. found.items ≡ spec.possible_words (setup_in setting.now) view.now.moment.now) }
{
    let mut found = Vec::new(alloc);
    let mut contract = 0u32;
    for checked in setting.contracts {
        put_possible(alloc, &mut found, setting, view, contract, checked)?;
        contract = plus(contract, 1)?;
    }
    Ok(found)
}
