//! A moment as it is looked at.

ghost use Rattle.std.specs.Prelude.{◌≡◌, ◌<◌, ◌++◌, OnOk};
ghost use Rattle.spec_calculus.specs.Offers.{is_enabled};
ghost use Rattle.spec_page.specs.Statuses as statuses;
ghost use Rattle.spec_page.specs.Outlooks as spec;

use crate::moments::Moment;
use crate::places::Taking;
use crate::standing::is_among;
use crate::words::put_taking;
use bm_calculus::Config;
use bm_text::put;
use spec_calculus::Step;
use spec_data::{Bytes, OutOfMemory};
use std::alloc::Global;
use std::marker::Model;

/// A moment, and the transactions that are offered at it.
#[derive(Clone, Copy)]
pub(crate) struct View<'a> {
    pub moment: &'a Moment,
    pub offered: &'a [Taking],
}

// A transaction that is offered.
pub(crate) fn put_fire(
    alloc: Global,
    found: &mut Vec<Bytes>,
    several: bool,
    view: &View,
    taking: &Taking,
) -> Result<(), OutOfMemory>
    requires { view.now.offered.now ≡ statuses.offered view.now.moment.now }
    ensures { OnOk result (found.new.items ≡ found.old.items ++ spec.fire_words several view.now.moment.now taking.now) }
{
    if !is_among(taking, view.offered) {
        return Ok(());
    }
    let mut text = Vec::new(alloc);
    put(&mut text, b"fire ")?;
    put_taking(alloc, &mut text, several, taking)?;
    found.push(Bytes::of(text))?;
    Ok(())
}

// Whether the step may be taken.
pub(crate) fn is_allowed(config: &Config, step: &Step) -> bool
    ensures { result ≡ is_enabled config.now step.now }
{
    match config.enabled(step) {
        Ok(()) => true,
        Err(_) => false,
    }
}
